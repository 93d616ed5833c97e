// Tests of a load and of what is read from a sheet, through the public calls alone.
#![tactic(auto)]

#[cfg(test)]
mod bodies;
#[cfg(test)]
mod build;
#[cfg(test)]
mod cursors;
#[cfg(test)]
mod faults;
#[cfg(test)]
mod kinds;
#[cfg(test)]
mod lines;
#[cfg(test)]
mod sheets;
#[cfg(test)]
mod sizes;
#[cfg(test)]
mod tables;
#[cfg(test)]
mod texts;

// Tests of the seeds, each read through a cursor on a small sheet, and of the member list.
#![tactic(auto)]

#[cfg(test)]
mod bools;
#[cfg(test)]
mod build;
#[cfg(test)]
mod calls;
#[cfg(test)]
mod chars;
#[cfg(test)]
mod contents;
#[cfg(test)]
mod ends;
#[cfg(test)]
mod evens;
#[cfg(test)]
mod floats;
#[cfg(test)]
mod lists;
#[cfg(test)]
mod reads;
#[cfg(test)]
mod signeds;
#[cfg(test)]
mod texts;
#[cfg(test)]
mod units;
#[cfg(test)]
mod unsigneds;
#[cfg(test)]
mod wholes;

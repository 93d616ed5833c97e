// Loads a sheet file, prints its records as a tree, and then the values of the scalar members of record 0.
#![tactic(auto)]

mod failure;
mod members;
mod show;
mod walk;

use crate::failure::Failure;
use crate::members::print_members;
use crate::walk::walk;
use layout::limits::LIMITS;
use layout::record::Record;
use load::load::{Loaded, load};
use sheet::sheet::Sheet;
use std::fs::File;
use std::io::Read;
use std::process::ExitCode;
use std::{env, io};

// One byte more than the longest sheet: of a longer file no more is read, and it is refused all the same.
const ENOUGH: usize = 12 + 32 * LIMITS.records + LIMITS.names + LIMITS.strings + 1;

// The one argument of the program, a path.
fn path_given(rt: &HostRuntime) -> Result<String, Failure> {
    let mut args = env::args(rt).map_err(Failure::Arguments)?;
    let _program = args.next();
    match (args.next(), args.next()) {
        (Some(path), None) => Ok(path),
        _ => Err(Failure::Usage),
    }
}

fn read_enough(rt: &HostRuntime, path: &str) -> io::Result<Vec<u8>> {
    let mut bytes = Vec::new(rt.alloc());
    let mut start = File::open(rt, path)?.take(ENOUGH as u64);
    start.read_to_end(&mut bytes)?;
    Ok(bytes)
}

fn read_file(rt: &HostRuntime, path: String) -> Result<Vec<u8>, Failure> {
    read_enough(rt, path.as_str()).map_err(|error| Failure::Unreadable(path, error))
}

fn print_head(rt: &HostRuntime, loaded: &Loaded) -> Result<(), Failure> {
    let records = loaded.count;
    let names = loaded.names.len();
    let strings = loaded.strings.len();
    println!(rt; "{records} records, {names} bytes of names, {strings} bytes of strings")?;
    Ok(())
}

// Prints the tree of a sheet, and how many of its records were walked: all of them, or it is a failure.
fn print_tree(rt: &HostRuntime, sheet: &Sheet, count: usize) -> Result<(), Failure> {
    let walked = walk(rt, sheet)?;
    if walked != count {
        return Err(Failure::Unwalked(walked, count));
    }
    println!(rt; "{walked} of {count} records walked")?;
    Ok(())
}

fn run(rt: &HostRuntime) -> Result<(), Failure> {
    let file = read_file(rt, path_given(rt)?)?;
    let mut table = vec![in rt.alloc(); Record::default(); LIMITS.records]?;
    let loaded = load(file.as_slice(), table.as_mut_slice())?;
    print_head(rt, &loaded)?;
    let sheet = Sheet::new(loaded.count, table.as_slice(), loaded.names, loaded.strings);
    print_tree(rt, &sheet, loaded.count)?;
    print_members(rt, &sheet)
}

// A failure is told on standard error, and ends the program with status 1.
fn main(rt: HostRuntime) -> Result<ExitCode, Failure> {
    match run(&rt) {
        Ok(()) => Ok(ExitCode::SUCCESS),
        Err(failure) => {
            eprintln!(rt; "{failure}")?;
            Ok(ExitCode::FAILURE)
        }
    }
}

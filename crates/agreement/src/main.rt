// Works out the sets of units in data/ by the proved crates: compiles each unit alone, links the objects in each of the set's ways, and runs
// them. For each file it prints its name, and for each set a line, just as the reference program does by the definition in words: `stdout` is
// what that one prints.
#![tactic(auto)]

use decimal::input::read_words;
use std::{fs, io};

mod sets;
mod ways;

use crate::sets::{Set, Sets};
use crate::ways::Bench;

// The most numbers of a file.
const FILE_WORDS: usize = 1_048_576;

// How many words may be put out: more than any set does.
const OUT_WORDS: usize = 4096;

fn main(rt: HostRuntime) -> io::Result<()> {
    run(&rt)
}

fn run(rt: &HostRuntime) -> io::Result<()> {
    let mut bench = Bench::new(rt.alloc())?;
    for name in ["sets.txt", "shapes.txt", "misfits.txt"] {
        rt.println(name)?;
        print_file(rt, name, &mut bench)?;
    }
    Ok(())
}

fn print_file(rt: &HostRuntime, name: &str, bench: &mut Bench) -> io::Result<()> {
    let mut file = fs::open(rt, name)?;
    let mut words = Vec::new(rt.alloc());
    if let Err(e) = read_words(&mut file, &mut words, FILE_WORDS) {
        rt.println(e)?;
    }
    let mut out = vec![in rt.alloc(); 0; OUT_WORDS]?;
    let mut other_out = vec![in rt.alloc(); 0; OUT_WORDS]?;
    for (i, set) in Sets::new(&words).enumerate() {
        print_set(rt, i + 1, &set, bench, &mut out, &mut other_out)?;
    }
    Ok(())
}

// Prints what comes of a set, and whether that is not so in all ways.
fn print_set(
    rt: &HostRuntime,
    number: usize,
    set: &Set<'_>,
    bench: &mut Bench,
    out: &mut [u32],
    other_out: &mut [u32],
) -> io::Result<()> {
    let first = bench.outcome(set, 0, out);
    let remark = if bench.agrees(set, &first, other_out) {
        ""
    } else {
        ", and otherwise in another way"
    };
    match first {
        Ok(outcome) => println!(rt; "set {number}: {outcome}{remark}"),
        Err(failure) => println!(rt; "set {number}: {failure}{remark}"),
    }
}

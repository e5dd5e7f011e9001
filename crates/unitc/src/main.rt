// Compiles a unit's row, given in decimal on standard input, and prints the row of its object.
#![tactic(auto)]

use compiler::compile;
use decimal::input::read_words;
use decimal::output::write_line;
use std::io::Write;
use std::process::ExitCode;
use std::{env, io};

mod failure;

use crate::failure::Failure;

// The most words of a unit's row: with those, what `compile` is lent has less than 4 MiB.
const UNIT_WORDS: usize = 21_200;

// What `compile` asks to be lent for an object, and so many words more for each word of the unit's row.
const OBJECT_WORDS: usize = 256;

const OBJECT_WORDS_EACH: usize = 32;

// What it asks to be lent to work with, and so many words more for each word of the row.
const WORK_WORDS: usize = 4096;

const WORK_WORDS_EACH: usize = 16;

const USAGE: &str = "usage: unitc < UNIT > OBJECT

Reads a unit's row in decimal, separated by white space, and prints the row of
its object.

  --help     prints this
  --version  prints the version

What it refuses, and what to do:

  unitc: no unit
      The numbers are no unit's row: a count that doesn't fit, a word left over,
      a name that isn't there, a call with another number of arguments, or a
      limit passed. docs/FORMATS.md says what a unit's row is. Check the five
      counts at the front first, then the bodies, sign by sign.
  unitc: line L: number N is not a decimal number below 4294967296
      Mend that number; signs, commas and comments are not read.
  unitc: more than the 21200 numbers that there is room for
      Cut the unit in two, of which one wants what the other offers.";

// As in unitrun, under another name: a crate of what both share would be longer than these lines.
fn main(rt: HostRuntime) -> ExitCode {
    match run(&rt) {
        Ok(()) => ExitCode::SUCCESS,
        Err(e) => {
            let _ = rt.eprintln(format_args!("unitc: {e}"));
            ExitCode::FAILURE
        },
    }
}

// What the line asks for.
#[derive(Clone, Copy, PartialEq, Eq, Debug)]
enum Command {
    Compile,
    Help,
    Version,
}

fn run(rt: &HostRuntime) -> Result<(), Failure> {
    match asked(rt)? {
        Command::Compile => compile_input(rt),
        Command::Help => Ok(rt.println(USAGE)?),
        Command::Version => Ok(rt.println("unitc 0.1.0")?),
    }
}

fn asked(rt: &HostRuntime) -> Result<Command, Failure> {
    let mut command = Command::Compile;
    for arg in env::args(rt)?.skip(1) {
        command = match arg.as_str() {
            "--help" => Command::Help,
            "--version" => Command::Version,
            _ => return Err(Failure::Unknown(arg)),
        };
    }
    Ok(command)
}

// Compiles the unit on standard input and prints its object.
fn compile_input(rt: &HostRuntime) -> Result<(), Failure> {
    let mut unit = Vec::with_capacity(rt.alloc(), UNIT_WORDS)?;
    read_words(&mut rt.stdin(), &mut unit, UNIT_WORDS)?;
    let mut object = vec![in rt.alloc(); 0; OBJECT_WORDS + OBJECT_WORDS_EACH * unit.len()]?;
    let mut work = vec![in rt.alloc(); 0; WORK_WORDS + WORK_WORDS_EACH * unit.len()]?;
    let size = compile(&unit, &mut object, &mut work)?;
    object.truncate(size);
    let mut to = io::BufWriter::new(rt.alloc(), rt.stdout())?;
    write_line(&mut to, &object)?;
    Ok(to.flush()?)
}

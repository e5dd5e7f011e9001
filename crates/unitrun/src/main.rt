// Links objects and runs them, or runs an image, on a tape that is given on standard input.
#![tactic(auto)]

use decimal::input::{InputError, read_words};
use decimal::output::write_line;
use linker::link;
use machine::{Ran, go};
use semantics::linked::{RunError, run_linked};
use std::io::Write;
use std::process::ExitCode;
use std::{fs, io};

mod ending;
mod failure;
mod options;

use crate::ending::Ending;
use crate::failure::Failure;
use crate::options::{Budgets, Command, Options};

// All buffers together have at most 4 MiB.
const BUFFER_WORDS: usize = 1_048_576;

const INPUT_WORDS: usize = 393_216;

const TAPE_WORDS: usize = 65_536;

const OUT_WORDS: usize = 65_536;
// An image's words in front of the units' code: a call of the first procedure and a halt, of two words each.
const HEAD_WORDS: usize = 4;
// What is left for the image and for memory.
const FREE_WORDS: usize = BUFFER_WORDS - INPUT_WORDS - TAPE_WORDS - OUT_WORDS;

const USAGE: &str = "usage: unitrun [--room N] [--calls N] [--steps N] OBJECTS...
       unitrun --image OBJECTS...
       unitrun [--room N] [--calls N] [--steps N] --code FILE

Links the objects of the files, in the order given, and runs the image on the
tape that is given on standard input in decimal. Prints each word that it puts
out, and as the last line how it ended: done, no calls, no room, wild, more or
out full.

  --room N     room for frames (65536)
  --calls N    calls allowed (1000000)
  --steps N    steps allowed (4294967295)
  --image      only links: prints the image, and the number of words of all units
  --code FILE  runs an image as --image prints it
  --help       prints this
  --version    prints the version

How a run ends short, and what to do:

  no calls   more calls are needed: raise --calls, or look for a call that never
             ends
  no room    the frames of nested calls need more words: raise --room
  more       more steps are needed: raise --steps
  out full   more than 65536 words were put out: run it on a shorter tape
  wild       the code left its way; objects of units never do (docs/PROVING.md)

What is refused, and what to do:

  unitrun: no objects  the files' numbers are no objects' rows: use what unitc
                       wrote, whole
  unitrun: twice       two objects have one name: leave one of them out
  unitrun: missing     an object wants a procedure that no object with that name
                       offers with so many arguments, or the first object offers
                       no procedure 0 without arguments: add the object, or put
                       the one with the main procedure first
  unitrun: no space    the image doesn't fit
  unitrun: small       units' words and room don't fit the memory: lower --room";

// As in unitc, under another name: a crate of what both share would be longer than these lines.
fn main(rt: HostRuntime) -> ExitCode {
    match run(&rt) {
        Ok(()) => ExitCode::SUCCESS,
        Err(e) => {
            let _ = rt.eprintln(format_args!("unitrun: {e}"));
            ExitCode::FAILURE
        },
    }
}

fn run(rt: &HostRuntime) -> Result<(), Failure> {
    let Options { budgets, command } = Options::read(rt)?;
    match command {
        Command::Help => Ok(rt.println(USAGE)?),
        Command::Version => Ok(rt.println("unitrun 0.1.0")?),
        Command::Run(names) => run_objects(rt, names, budgets),
        Command::Image(names) => print_image(rt, names),
        Command::Code(name) => run_code(rt, name, budgets),
    }
}

// Links the objects of files and runs them.
fn run_objects(rt: &HostRuntime, names: Vec<String>, budgets: Budgets) -> Result<(), Failure> {
    let objects = read_objects(rt, names)?;
    let tape = read_tape(rt)?;
    let size = objects.len() + HEAD_WORDS;
    let mut image = vec![in rt.alloc(); 0; size]?;
    let mut out = vec![in rt.alloc(); 0; OUT_WORDS]?;
    let mut work = vec![in rt.alloc(); 0; FREE_WORDS.saturating_sub(size)]?;
    let ran = run_linked(
        &objects,
        budgets.room,
        &tape,
        budgets.calls,
        budgets.steps,
        &mut image,
        &mut out,
        &mut work,
    );
    print_run(rt, &out, ran)
}

// All the files' words, one file after the other.
fn read_objects(rt: &HostRuntime, names: Vec<String>) -> Result<Vec<u32>, Failure> {
    let mut objects = Vec::with_capacity(rt.alloc(), INPUT_WORDS)?;
    for name in names {
        read_file(rt, name, &mut objects)?;
    }
    Ok(objects)
}

// Links the objects of files, and prints the image on one line, and the number of words of all units on another.
fn print_image(rt: &HostRuntime, names: Vec<String>) -> Result<(), Failure> {
    let objects = read_objects(rt, names)?;
    let mut words = vec![in rt.alloc(); 0; objects.len() + HEAD_WORDS]?;
    let image = link(&objects, &mut words)?;
    words.truncate(image.size);
    let mut to = io::BufWriter::new(rt.alloc(), rt.stdout())?;
    write_line(&mut to, &words)?;
    writeln!(to, "{}", image.words)?;
    Ok(to.flush()?)
}

// Runs an image from a file.
fn run_code(rt: &HostRuntime, name: String, budgets: Budgets) -> Result<(), Failure> {
    let mut code = Vec::with_capacity(rt.alloc(), INPUT_WORDS)?;
    read_file(rt, name, &mut code)?;
    let words = code.pop().ok_or(Failure::NoImage)?;
    let tape = read_tape(rt)?;
    let size = (words as usize + budgets.room as usize).min(FREE_WORDS);
    let mut work = vec![in rt.alloc(); 0; size]?;
    let mut out = vec![in rt.alloc(); 0; OUT_WORDS]?;
    let ran = go(
        &code,
        words,
        budgets.room,
        &tape,
        budgets.calls,
        budgets.steps,
        &mut out,
        &mut work,
    );
    print_run(rt, &out, ran.map_err(RunError::from))
}

// Reads a file behind the words that are there.
fn read_file(rt: &HostRuntime, name: String, words: &mut Vec<u32>) -> Result<(), Failure> {
    open_and_read(rt, &name, words).map_err(|error| Failure::BadFile { name, error })
}

fn open_and_read(rt: &HostRuntime, name: &str, words: &mut Vec<u32>) -> Result<(), InputError> {
    let mut file = fs::open(rt, name)?;
    read_words(&mut file, words, INPUT_WORDS)
}

fn read_tape(rt: &HostRuntime) -> Result<Vec<u32>, Failure> {
    let mut tape = Vec::with_capacity(rt.alloc(), TAPE_WORDS)?;
    read_words(&mut rt.stdin(), &mut tape, TAPE_WORDS).map_err(Failure::BadTape)?;
    Ok(tape)
}

// Prints the words that were put out, one to a line, and how the run ended.
fn print_run(rt: &HostRuntime, out: &[u32], ran: Result<Ran, RunError>) -> Result<(), Failure> {
    let ending = Ending::try_from(ran)?;
    let mut to = io::BufWriter::new(rt.alloc(), rt.stdout())?;
    for x in out.iter().take(ending.put()) {
        writeln!(to, "{x}")?;
    }
    writeln!(to, "{ending}")?;
    Ok(to.flush()?)
}

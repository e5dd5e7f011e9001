// Runs the machine at its edges. A line of data/cases is a case: the code's length and words, the tape's length and words, then words,
// room, calls, steps, and how many words of `out` and of work are lent. Its name is the same line of data/names, and what is to come of it
// the same line of `stdout`.
#![tactic(auto)]

use decimal::input::read_words;
use machine::{NotRun, Ran};
use std::fs;

fn main(rt: HostRuntime) -> anyhow::Result<()> {
    run(&rt)
}

fn run(rt: &HostRuntime) -> anyhow::Result<()> {
    let mut file = fs::open(rt, "cases")?;
    let mut words = Vec::new(rt.alloc());
    if let Err(e) = read_words(&mut file, &mut words, 65536) {
        println!(rt; "{e}")?;
    }
    let names = fs::read_to_string(rt, "names")?;
    let mut rest = words.as_slice();
    for name in names.as_str().lines() {
        rt.print(name)?;
        rest = case(rt, rest)?;
    }
    Ok(())
}

// The words that are counted in front, and what stands behind them; none where there are fewer.
fn counted(words: &[u32]) -> (&[u32], &[u32]) {
    let Some((n, rest)) = words.split_first() else {
        return (&[], words);
    };
    rest.split_at_checked(*n as usize).unwrap_or((&[], words))
}

// Runs the case in front, prints what comes of it, and gives what stands behind it. A number that it lacks reads as 0.
fn case<'a>(rt: &HostRuntime, words: &'a [u32]) -> anyhow::Result<&'a [u32]> {
    let (code, rest) = counted(words);
    let (tape, rest) = counted(rest);
    let (given, rest) = rest.split_at(rest.len().min(6));
    let mut numbers = [0; 6];
    numbers[..given.len()].copy_from_slice(given);
    let [units, room, calls, steps, out, work] = numbers;
    let mut out = vec![in rt.alloc(); 77u32; out as usize]?;
    let mut work = vec![in rt.alloc(); 77u32; work as usize]?;
    let ran = machine::go(
        code,
        units,
        room,
        tape,
        calls,
        steps,
        out.as_mut_slice(),
        work.as_mut_slice(),
    );
    show(rt, out.as_slice(), ran)?;
    Ok(rest)
}

// Prints what was put out and how the run ended, or why there is none.
fn show(rt: &HostRuntime, out: &[u32], ran: Result<Ran, NotRun>) -> anyhow::Result<()> {
    rt.print(":")?;
    match ran {
        Ok(Ran { status, put }) => {
            for x in out.iter().take(put) {
                print!(rt; " {x}")?;
            }
            println!(rt; " {status}")?;
        }
        Err(e) => println!(rt; " {e}")?,
    }
    Ok(())
}

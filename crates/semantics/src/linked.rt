// Objects linked and run in one call, with the promise from end to end.
ghost use Rattle.std.specs.Prelude.{◌≡◌, length};
ghost use Rattle.semantics.specs.declared.linked.RunError.TheVariants.{Link, Run};
ghost use Rattle.semantics.specs.RunLinked.{RunLinkedPost};

// Lent on, so that who calls `run_linked` needs not name the linker.
pub use linker::NotLinked;
use linker::{Image, link};
use machine::{NotRun, Ran, go};
use std::error::Error;
use std::fmt;

// Why there was no run to its end: the objects were not linked, or too few words were lent to the machine.
#[derive(Clone, Copy, PartialEq, Eq, Debug)]
pub enum RunError {
    Link(NotLinked),
    Run(NotRun),
}

impl From<NotLinked> for RunError {
    ghost from_gives = { λ e r. r ≡ Link e };

    fn from(e: NotLinked) -> RunError {
        RunError::Link(e)
    }
}

impl From<NotRun> for RunError {
    ghost from_gives = { λ e r. r ≡ Run e };

    fn from(e: NotRun) -> RunError {
        RunError::Run(e)
    }
}

// By hand: a derived text has no contract.
impl fmt::Display for RunError {
    ghost use Rattle.std.specs.Prelude.{Some};
    ghost use Rattle.semantics.specs.Texts.{run_error_text};

    ghost output = { λ e. Some (run_error_text e) };

    fn fmt<W: fmt::Write>(&self, f: &mut fmt::Formatter<W>) -> fmt::Result {
        match self {
            RunError::Link(refusal) => write!(f, "{refusal}"),
            RunError::Run(refusal) => write!(f, "{refusal}"),
        }
    }
}

impl Error for RunError {}

// Links the objects of a row and runs their image, which stands first in `image`, with this room, tape and number of calls, for so many steps.
// What is put out stands first in `out`, and the rest of both stays; where it does not fit in `out`, and in `work`, anything may be left.
// Objects of units that fit together do what the units do.
// Room, calls and steps stay plain parameters, as in machine's `go`: the parameters of both are fixed for the programs of others that call them.
pub fn run_linked(
    objects: &[u32],
    room: u32,
    tape: &[u32],
    calls: u32,
    steps: u32,
    image: &mut [u32],
    out: &mut [u32],
    work: &mut [u32],
) -> Result<Ran, RunError>
    ensures { RunLinkedPost (record { objects = objects.entry.now; room = room; tape = tape.now; calls = calls; steps = steps; image = image.old; out = out.old; work = length work.old }) image.new out.new result }
{
    let Image { size, words } = link(objects, image)?;
    let ran = go(
        &image[..size],
        words as u32,
        room,
        tape,
        calls,
        steps,
        out,
        work,
    )?;
    Ok(ran)
}

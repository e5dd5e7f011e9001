// The machine that runs images. Its instructions are the table in specs/Instructions; here they are done on lent memory.
#![tactic(auto)]

ghost use Rattle.std.specs.Prelude.{length};
ghost use Rattle.machine.specs.Says.{RanPost};

use crate::registers::Registers;
use crate::run::run;

mod act;
mod ending;
mod instruction;
mod memory;
mod opcode;
mod registers;
mod run;
mod turn;

pub use ending::{NotRun, Ran, Status};
pub use opcode::{Opcode, UnknownOpcode};

// Runs code with so many words of units, room, tape and calls, for so many steps. What is put out stands first in `out`, and the
// rest of `out` stays; where it does not fit, and in `work`, anything may be left.
// Room, calls and steps are plain parameters, since firms call `go` as it stands: its parameters are fixed.
pub fn go(
    code: &[u32],
    words: u32,
    room: u32,
    tape: &[u32],
    calls: u32,
    steps: u32,
    out: &mut [u32],
    work: &mut [u32],
) -> Result<Ran, NotRun>
    ensures { RanPost code.now words room tape.now calls steps out.old out.new (length work.old) result }
{
    let size = words as usize + room as usize;
    let memory = work.get_mut(..size).ok_or(NotRun::Small)?;
    memory.fill(0);
    let start = Registers::begin(words, room, calls);
    let end = run(code, tape, start, steps, memory, out).ok_or(NotRun::OutFull)?;
    Ok(Ran {
        status: end.status,
        put: end.put,
    })
}

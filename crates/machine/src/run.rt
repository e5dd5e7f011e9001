// Runs of the machine, by turns. `Within` is a clause and no invariant, for the reason that stands at `Ready` in act.rt.
ghost use Rattle.std.specs.Prelude.{◌^◌, ◌≤◌, length};
ghost use Rattle.machine.specs.Registers.{Within, RunSays, StepSays};

use crate::ending::Status;
use crate::registers::Registers;
use crate::turn::turn;

// So many steps, or as many as there are until the machine halts; nothing where the words put out do not fit in `out`.
pub fn run(
    code: &[u32],
    tape: &[u32],
    start: Registers,
    steps: u32,
    memory: &mut [u32],
    out: &mut [u32],
) -> Option<Registers>
    requires within { Within (2 ^ 34) start }
    requires put { start.put ≤ length out.old }
    ensures { RunSays code.now tape.now steps start memory.old memory.new out.old out.new result }
{
    // No `for`: a turn goes one step or several.
    let mut r = start;
    let mut left = steps;
    while left > 0 {
        let Status::Running = r.status else {
            return Some(r);
        };
        let (next, more) = turn(code, tape, r, left - 1, memory, out)?;
        r = next;
        left = left - 1 - more;
    }
    Some(r)
}

// One step of the machine, from any registers whose places are those of a run. Nothing calls this: it states that one step is the
// definition's step.
pub fn step(
    code: &[u32],
    tape: &[u32],
    r: Registers,
    memory: &mut [u32],
    out: &mut [u32],
) -> Option<Registers>
    requires within { Within (2 ^ 34) r }
    requires put { r.put ≤ length out.old }
    ensures { StepSays code.now tape.now r memory.old memory.new out.old out.new result }
{
    run(code, tape, r, 1, memory, out)
}

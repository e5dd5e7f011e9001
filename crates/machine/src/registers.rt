ghost use Rattle.std.specs.Prelude.{◌≡◌};
ghost use Rattle.machine.specs.Registers.{begin_registers};

use crate::ending::Status;

// A machine without its memory: where it stands in its code, stack, tape and output, its budgets, and whether it runs.
// `put` stands here and apart from the lent `out`: registers are copied at each instruction, so they can't hold a `&mut`, and a struct
// of the two would go by `&mut` wherever `out` goes now, with no parameter less.
#[derive(Clone, Copy, PartialEq, Eq, Debug)]
pub struct Registers {
    pub pc: usize,
    pub fp: usize,
    pub sp: usize,
    pub free: u32,
    pub left: u32,
    pub read: usize,
    pub put: usize,
    pub status: Status,
}

impl Registers {
    // Where a run begins: fp and sp behind the units' words.
    pub fn begin(words: u32, room: u32, calls: u32) -> Registers
        ensures { result ≡ begin_registers words room calls }
    {
        let behind = words as usize;
        Registers {
            pc: 0,
            fp: behind,
            sp: behind,
            free: room,
            left: calls,
            read: 0,
            put: 0,
            status: Status::Running,
        }
    }
}

// A turn of the machine: one instruction, and with it those that nearly always follow it.
ghost use Rattle.std.specs.Prelude.{◌≡◌, ◌^◌, ◌≤◌, length};
ghost use Rattle.machine.specs.declared.ending.Status.TheVariants.{Running};
ghost use Rattle.machine.specs.Registers.{Within, Does, TurnSays, WentOn};

use crate::ending::Status;
use crate::instruction::Instruction;
use crate::opcode::Opcode;
use crate::registers::Registers;

impl Registers {
    // `Within` is a clause of each of these and no invariant, as `Ready` is of each instruction.

    // Goes on with the instruction of an opcode, if it comes next and a step is spare, by a method that does what it does; says how many
    // steps it went.
    fn then<F: FnOnce(Registers, u32, &mut [u32]) -> Registers>(
        self,
        opcode: Opcode,
        method: F,
        code: &[u32],
        spare: u32,
        memory: &mut [u32],
    ) -> (Registers, u32)
        requires within { Within (2 ^ 40) self }
        requires does { Does opcode (F.pre method) (F.post method) }
        ensures { WentOn code.now spare self memory.old memory.new result.0 result.1 }
    {
        // By a pattern, and so in `run`: with the derived `!=` and `==` an image that counts takes 0.97 of a plain interpreter's time in
        // place of 0.85.
        let Status::Running = self.status else {
            return (self, 0);
        };
        if spare == 0 {
            return (self, 0);
        }
        match Instruction::operand(code, self.pc, opcode) {
            Some(n) => (method(self, n, memory), 1),
            None => (self, 0),
        }
    }

    // The next three are one call of `then` each, since with such calls in its arms `turn` has 51 lines. Code, spare and memory go
    // through them apart: with a struct of them each contract would also have to say that code and spare stay.

    // After a push: the operation that takes the word.
    fn then_operate(self, code: &[u32], spare: u32, memory: &mut [u32]) -> (Registers, u32)
        requires { Within (2 ^ 40) self }
        ensures { WentOn code.now spare self memory.old memory.new result.0 result.1 }
    {
        self.then(Opcode::Operate, Registers::operate, code, spare, memory)
    }

    // After a word is kept: the pop that lets go of it.
    fn then_pop(self, code: &[u32], spare: u32, memory: &mut [u32]) -> (Registers, u32)
        requires { Within (2 ^ 40) self }
        ensures { WentOn code.now spare self memory.old memory.new result.0 result.1 }
    {
        self.then(Opcode::Pop, Registers::pop, code, spare, memory)
    }

    // After room is released: the return.
    fn then_return(self, code: &[u32], spare: u32, memory: &mut [u32]) -> (Registers, u32)
        requires { Within (2 ^ 40) self }
        ensures { WentOn code.now spare self memory.old memory.new result.0 result.1 }
    {
        self.then(Opcode::Return, Registers::return_from, code, spare, memory)
    }

    // After a call is counted: its room and its frame.
    fn then_enter(self, code: &[u32], spare: u32, memory: &mut [u32]) -> (Registers, u32)
        requires { Within (2 ^ 38) self }
        ensures { WentOn code.now spare self memory.old memory.new result.0 result.1 }
    {
        let (reserved, j) = self.then(Opcode::Reserve, Registers::reserve, code, spare, memory);
        let spare = spare - j;
        let (entered, k) = reserved.then(
            Opcode::SetFrame,
            Registers::set_frame,
            code,
            spare,
            memory,
        );
        (entered, j + k)
    }
}

// Code, tape, memory and out stay apart, here, in `run` and in `step`: with the `&mut` of memory and out in a struct each contract would
// also have to say that code and tape stay; a struct of code and tape alone is no plainer, since `then` takes the code without the tape
// and `take_next` the tape without the code.

// One step, and at most `spare` more where instructions follow that nearly always do; says how many more.
// Nothing where the step would put out a word for which `out` has no place.
pub fn turn(
    code: &[u32],
    tape: &[u32],
    r: Registers,
    spare: u32,
    memory: &mut [u32],
    out: &mut [u32],
) -> Option<(Registers, u32)>
    requires running { r.status ≡ Running }
    requires within { Within (2 ^ 36) r }
    requires put { r.put ≤ length out.old }
    ensures { TurnSays code.now tape.now spare r memory.old memory.new out.old out.new result }
{
    let Some(i) = Instruction::fetch(code, r.pc) else {
        return Some((r.stop(Status::Wild), 0));
    };
    let n = i.n;
    match i.opcode {
        Opcode::Halt => Some((r.halt(n), 0)),
        Opcode::Push => Some(r.push(n, memory).then_operate(code, spare, memory)),
        Opcode::Arg => Some(r.push_argument(n, memory).then_operate(code, spare, memory)),
        Opcode::Load => Some(r.load(n, memory).then_operate(code, spare, memory)),
        Opcode::Store => Some(r.store(n, memory).then_pop(code, spare, memory)),
        Opcode::Operate => Some((r.operate(n, memory), 0)),
        Opcode::JumpIfZero => Some((r.jump_if_zero(n, memory), 0)),
        Opcode::Jump => Some((r.jump(n), 0)),
        Opcode::Call => Some((r.call(n, memory), 0)),
        Opcode::SetFrame => Some((r.set_frame(n, memory), 0)),
        Opcode::Return => Some((r.return_from(n, memory), 0)),
        Opcode::Out => Some((r.put_out(memory, out)?, 0)),
        Opcode::Next => Some((r.take_next(tape, memory), 0)),
        Opcode::Pop => Some((r.pop(n, memory), 0)),
        Opcode::Reserve => Some((r.reserve(n, memory), 0)),
        Opcode::Release => Some(r.release(n).then_return(code, spare, memory)),
        Opcode::Count => Some(r.count().then_enter(code, spare, memory)),
    }
}

ghost use Rattle.std.specs.Prelude.{◌≡◌, ◌^◌, ◌≤◌};
ghost use Rattle.machine.specs.Opcodes.{opcode_of, opcode_number};
ghost use Rattle.machine.specs.Registers.{Fetched, operand_at};

use crate::opcode::Opcode;
use rows::words::word_at;

// An instruction is two words: its opcode's number, and its operand.
#[derive(Clone, Copy, PartialEq, Eq, Debug)]
pub struct Instruction {
    pub opcode: Opcode,
    pub n: u32,
}

impl Instruction {
    // The instruction at a place of the code, if an opcode's number stands there; an operand behind the code is 0.
    pub fn fetch(code: &[u32], pc: usize) -> Option<Instruction>
        requires { pc ≤ 2 ^ 40 }
        ensures { Fetched code.now pc result }
    {
        let opcode = Opcode::try_from(*code.get(pc)?).ok()?;
        Some(Instruction {
            opcode,
            n: word_at(code, pc + 1),
        })
    }

    // The operand of the instruction at a place of the code, if it has this opcode and all of it lies in the code. By an index behind one
    // test: a cut of two words (`get(pc..pc + 2)`) tests both its ends, and misses the bar of speed.
    pub fn operand(code: &[u32], pc: usize, opcode: Opcode) -> Option<u32>
        requires { pc ≤ 2 ^ 40 }
        ensures { result ≡ operand_at code.now pc (opcode_number (opcode_of opcode)) }
    {
        let n = *code.get(pc + 1)?;
        if code[pc] == u32::from(opcode) {
            Some(n)
        } else {
            None
        }
    }
}

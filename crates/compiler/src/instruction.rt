// Instructions of an object, before it is known where the object will lie: their words, and the fits of their operands.
ghost use Rattle.std.specs.Prelude.{◌≡◌, [], ◌∷◌};
ghost use Rattle.rows.specs.ObjectRows.{row_fits};
ghost use Rattle.machine.specs.Opcodes.{opcode_of};
ghost use Rattle.compiler.specs.Instructions.{instr, plain, in_code, operand_word, code_words, fit_operand};
ghost use Rattle.compiler.specs.Writing.{operand_of, instruction_of, fit_row};

use machine::Opcode;
use rows::objects::{Fit, Kind};

// An operand: a number that stays as it is, a place in the object's own code, one of its own words, or the place of a want.
#[derive(Clone, Copy, PartialEq, Eq, Debug)]
pub enum Operand {
    Plain(u32),
    InCode(u32),
    InWords(u32),
    OfWant(u32),
}

impl Operand {
    // The operand's word in the object, before it is fitted. No From: the word alone is not the operand, its fit says the rest.
    fn word(self) -> u32
        ensures { result ≡ operand_word (operand_of self) }
    {
        match self {
            Operand::Plain(n) => n,
            Operand::InCode(at) => at,
            Operand::InWords(i) => i,
            Operand::OfWant(_) => 0,
        }
    }

    // The words of the operand's fit, if it wants one and stands at that place of the code.
    pub fn fit(self, place: u32) -> Option<[u32; 3]>
        ensures { fit_row result ≡ row_fits (fit_operand place (operand_of self) []) }
    {
        let kind = match self {
            Operand::Plain(_) => return None,
            Operand::InCode(_) => Kind::Code,
            Operand::InWords(_) => Kind::Words,
            Operand::OfWant(want) => Kind::Want(want),
        };
        Some(Fit::new(place, kind).into())
    }
}

#[derive(Clone, Copy, PartialEq, Eq, Debug)]
pub struct Instruction {
    pub opcode: Opcode,
    pub operand: Operand,
}

impl Instruction {
    // An instruction whose operand is a number that stays as it is.
    pub fn plain(opcode: Opcode, n: u32) -> Instruction
        ensures { instruction_of result ≡ instr (opcode_of opcode) (plain n) }
    {
        Instruction {
            opcode,
            operand: Operand::Plain(n),
        }
    }

    // A jump whose target is filled in later.
    pub fn jump(opcode: Opcode) -> Instruction
        ensures { instruction_of result ≡ instr (opcode_of opcode) (in_code 0) }
    {
        Instruction {
            opcode,
            operand: Operand::InCode(0),
        }
    }

    // The instruction's two words in the object, before they are fitted.
    pub fn words(self) -> [u32; 2]
        ensures { result ≡ code_words (instruction_of self ∷ []) }
    {
        [u32::from(self.opcode), self.operand.word()]
    }
}

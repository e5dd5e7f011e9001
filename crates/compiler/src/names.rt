// What a body may name, and where its calls go.
ghost use Rattle.std.specs.Prelude.{◌≡◌};
ghost use Rattle.compiler.specs.Writing.{operand_of, instruction_of};
ghost use Rattle.compiler.specs.WritingExpressions.{callees_of, callee_operand, own_instruction};

use crate::instruction::{Instruction, Operand};
use machine::Opcode;
use rows::bodies::Scope;
use rows::signs::{Callee, Procedure, Sign, Target};
use rows::words::word_at;

// What a body may name, and the places of its unit's code where the unit's own procedures begin.
#[derive(Clone, Copy, Debug)]
pub struct Names<'a> {
    pub scope: Scope<'a>,
    pub starts: &'a [u32],
}

impl Names<'_> {
    // The operand of a call.
    fn operand(&self, callee: Callee) -> Operand
        ensures { operand_of result ≡ callee_operand (callees_of self.now) callee.0 }
    {
        match callee.target(self.scope.wants.len()) {
            Target::Want(number) => Operand::OfWant(number),
            Target::Own(Procedure(number)) => {
                Operand::InCode(word_at(self.starts, number as usize))
            }
        }
    }

    // The instruction that does what a sign says, behind the code of its parts; a branch has two of its own, which stand between them.
    pub fn instruction(&self, sign: Sign) -> Instruction
        ensures { instruction_of result ≡ own_instruction (callees_of self.now) sign }
    {
        let (opcode, operand) = match sign {
            Sign::Number(n) => (Opcode::Push, Operand::Plain(n)),
            Sign::Argument(i) => (Opcode::Arg, Operand::Plain(i)),
            Sign::Word(i) => (Opcode::Load, Operand::InWords(i)),
            Sign::Operation(o) => (Opcode::Operate, Operand::Plain(u32::from(o))),
            Sign::Keep(i) => (Opcode::Store, Operand::InWords(i)),
            Sign::Out => (Opcode::Out, Operand::Plain(0)),
            Sign::Next => (Opcode::Next, Operand::Plain(0)),
            Sign::Call(callee, _) => (Opcode::Call, self.operand(callee)),
            // neither is asked for, since these two write their own between their parts: no Option, which each other sign would have to open
            Sign::If | Sign::Then => (Opcode::Pop, Operand::Plain(0)),
        };
        Instruction { opcode, operand }
    }
}

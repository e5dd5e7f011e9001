// Writing the code of expressions, as they are read off a row: a cycle of an expression and its parts, which stops where what is read is not right.
ghost use Rattle.compiler.specs.Writing.{instruction_of, state, Space};
ghost use Rattle.compiler.specs.WritingExpressions.{ExprSays, PartsSays, then_one, sequence, branch};

use crate::instruction::Instruction;
use crate::names::Names;
use crate::writer::Writer;
use machine::Opcode;
use rows::signs::Sign;

// Space is asked for by each function and is no fact of the type: besides what the row can say, each asks for its own instructions too.
// Names and depth are two parameters and no struct: depth falls at each level, and names stay.
impl Writer<'_, '_> {
    // Writes the expression at the front of the row, if it names only what is there and is at most so deep; says how many words the
    // work on it holds at most.
    #[cycle(arguments_branch_expression_sequence)]
    pub fn expression(&mut self, names: &Names, depth: u32) -> Option<u32>
        requires { Space 0 0 (state self.old) }
        ensures { ExprSays names.now depth (state self.old) (state self.new) result }
    {
        if depth == 0 {
            return None;
        }
        let (sign, size) = Sign::read(self.row)?;
        if !names.scope.allows(sign) {
            return None;
        }
        self.row = &self.row[size..];
        let own = names.instruction(sign);
        // each count stands in an arm of its own: with `sign.parts()` in one arm for all of them a word took 16.4 ns in place of 14.3
        match sign {
            Sign::If => self.branch(names, depth - 1),
            Sign::Then => self.sequence(names, depth - 1),
            Sign::Operation(_) => self.arguments(names, depth - 1, 2, own),
            Sign::Keep(_) => self.arguments(names, depth - 1, 1, own),
            Sign::Out => self.arguments(names, depth - 1, 1, own),
            Sign::Call(_, count) => self.arguments(names, depth - 1, count, own),
            _ => self.arguments(names, depth - 1, 0, own),
        }
    }

    // Writes so many expressions, one behind the other, each of which waits on those before it, and then an instruction.
    #[cycle(arguments_branch_expression_sequence)]
    #[inline(always)]
    fn arguments(&mut self, names: &Names, depth: u32, count: u32, own: Instruction) -> Option<u32>
        requires { Space 2 3 (state self.old) }
        ensures { PartsSays names.now depth count (then_one (instruction_of own)) (state self.old) (state self.new) result }
    {
        let mut height: u32 = 1;
        for before in 0..count {
            height = height.max(before + self.expression(names, depth)?);
        }
        self.write(own);
        Some(height)
    }

    // Writes two expressions, the value of the first of which is dropped.
    #[cycle(arguments_branch_expression_sequence)]
    fn sequence(&mut self, names: &Names, depth: u32) -> Option<u32>
        requires { Space 2 3 (state self.old) }
        ensures { PartsSays names.now depth 2 sequence (state self.old) (state self.new) result }
    {
        let first = self.expression(names, depth)?;
        self.write(Instruction::plain(Opcode::Pop, 0));
        let second = self.expression(names, depth)?;
        Some(first.max(second))
    }

    // Writes a condition, a jump to the second of two ways, and the ways, the first with a jump over the second.
    #[cycle(arguments_branch_expression_sequence)]
    fn branch(&mut self, names: &Names, depth: u32) -> Option<u32>
        requires { Space 4 6 (state self.old) }
        ensures { PartsSays names.now depth 3 branch (state self.old) (state self.new) result }
    {
        let test = self.expression(names, depth)?;
        let to_second = self.code.len() + 1;
        self.write(Instruction::jump(Opcode::JumpIfZero));
        let first = self.expression(names, depth)?;
        let to_end = self.code.len() + 1;
        self.write(Instruction::jump(Opcode::Jump));
        let second_way = self.code.len() as u32;
        self.fill_in(to_second, second_way);
        let second = self.expression(names, depth)?;
        let end = self.code.len() as u32;
        self.fill_in(to_end, end);
        Some(test.max(first).max(second))
    }
}

// The code of a unit's procedures, one behind the other.
ghost use Rattle.compiler.specs.Writing.{state};
ghost use Rattle.compiler.specs.WritingProcedures.{SpaceProcs, ProcSays, ProcsSays};
ghost use Rattle.compiler.specs.Laying.{outline_in, callees_in};

use crate::instruction::Instruction;
use crate::layout::Layout;
use crate::writer::Writer;
use machine::Opcode;
use rows::bodies::MOST_DEPTH;
use rows::units::MOST_ARGS;

impl Writer<'_, '_> {
    // An Option of nothing, as `expression` answers one: of Refusal's cases only NoUnit would come, and the clause would have to rule out the other.
    // Writes the procedure at the front of the row, if it is right: it counts a call, takes its frame from the room and finds its
    // arguments, and behind its body it gives the frame back and returns.
    fn procedure(&mut self, layout: &Layout) -> Option<()>
        requires { SpaceProcs (state self.old) }
        ensures { ProcSays (outline_in layout.now) (callees_in layout.now) (state self.old) (state self.new) result }
    {
        let [args, body @ ..] = self.row else {
            return None;
        };
        let args = *args;
        if args > MOST_ARGS {
            return None;
        }
        self.row = body;
        let reserve = self.code.len() + 3;
        self.write(Instruction::plain(Opcode::Count, 0));
        self.write(Instruction::plain(Opcode::Reserve, 0));
        self.write(Instruction::plain(Opcode::SetFrame, args));
        let height = self.expression(&layout.names(args), MOST_DEPTH)?;
        let frame = 4 + args + height;
        self.fill_in(reserve, frame);
        self.write(Instruction::plain(Opcode::Release, frame));
        self.write(Instruction::plain(Opcode::Return, args));
        Some(())
    }

    // Writes the unit's procedures, which are all of the row; none where they are not right.
    pub fn procedures(&mut self, layout: &Layout) -> Option<()>
        requires { SpaceProcs (state self.old) }
        ensures { ProcsSays (outline_in layout.now) (callees_in layout.now) layout.now.view.count (state self.old) (state self.new) result }
    {
        for _number in 0..layout.view.count {
            self.procedure(layout)?;
        }
        self.row.is_empty().then_some(())
    }
}

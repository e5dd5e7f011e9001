// A writer of code: it reads a row from its front on, and writes code and fits into lent words, each behind what it wrote before.
ghost use Rattle.std.specs.Prelude.{◌≡◌, ◌<◌, length};
ghost use Rattle.compiler.specs.Writing.{instruction_of, state, changed, SpaceOne, WroteOne};

use crate::filled::Filled;
use crate::instruction::Instruction;

// The row that is left, and the lent words for code and for fits. Fits are flat words and no triples, as they are in an object's row: so
// one type fills code, fits and the row, and only their count is divided by 3.
#[derive(Drop)]
pub struct Writer<'r, 'w> {
    pub row: &'r [u32],
    pub code: Filled<'w>,
    pub fits: Filled<'w>,
}

impl Writer<'_, '_> {
    // Writes an instruction, and its fit, if it wants one.
    pub fn write(&mut self, instruction: Instruction)
        requires { SpaceOne (state self.old) }
        ensures { WroteOne (instruction_of instruction) (state self.old) (state self.new) }
    {
        let place = self.code.len() as u32 + 1;
        self.code.put(&instruction.words());
        if let Some(fit) = instruction.operand.fit(place) {
            self.fits.put(&fit);
        }
    }

    // Changes one word of the code.
    pub fn fill_in(&mut self, place: usize, word: u32)
        requires { place < length (state self.old).code }
        ensures { state self.new ≡ changed (state self.old) place word }
    {
        self.code.set(place, word);
    }
}

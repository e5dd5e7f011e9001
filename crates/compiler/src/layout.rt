// A unit that is laid out: its row is opened, and it is known where the code of each procedure begins.
ghost use Rattle.std.specs.Prelude.{◌≡◌};
ghost use Rattle.compiler.specs.ObjectWriting.{offer};

use crate::names::Names;
use rows::bodies::Scope;
use rows::units::UnitView;
use rows::words::word_at;

// The unit's row, how many arguments each of its procedures takes, and the places of its code where they begin; the latter two stand in
// lent words apart, since a scope sees the former alone.
#[derive(Clone, Copy, PartialEq, Eq, Debug)]
pub struct Layout<'a> {
    pub view: UnitView<'a>,
    pub arities: &'a [u32],
    pub starts: &'a [u32],
}

impl<'a> Layout<'a> {
    // What the body of a procedure with so many arguments may name, and where its calls go.
    pub fn names(&self, args: u32) -> Names<'a>
        ensures { result ≡ record { scope = record { args = args; words = self.now.view.words; wants = self.now.view.wants; arities = self.now.arities }; starts = self.now.starts } }
    {
        Names {
            scope: Scope {
                args,
                words: self.view.words,
                wants: self.view.wants,
                arities: self.arities,
            },
            starts: self.starts,
        }
    }

    // The three words of an offered procedure: its number, how many arguments it takes and where it begins.
    pub fn offer(&self, procedure: u32) -> [u32; 3]
        ensures { result ≡ offer self.now.arities.now self.now.starts.now procedure }
    {
        let number = procedure as usize;
        [
            procedure,
            word_at(self.arities, number),
            word_at(self.starts, number),
        ]
    }
}

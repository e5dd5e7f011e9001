// Objects by their names.
ghost use Rattle.std.specs.Prelude.{◌≡◌, ◌<◌, ◌≤◌, false, length};
ghost use Rattle.std.specs.Option.{option_map};
ghost use Rattle.linker.specs.Linking.{named as named_laid, twice as two_names};
ghost use Rattle.linker.specs.Tables.{laid_of, laid_in, objects_of, names_of};

use crate::NotLinked;
use crate::laying::Laid;
use crate::names::twice;
use arrayvec::ArrayVec;
use rows::objects::MOST_OBJECTS;

// The names of the objects, in their order. By a loop, since `collect` asks for an allocator, and there is none here.
fn names_of(laid: &[Laid]) -> ArrayVec<u32, MOST_OBJECTS>
    requires { length laid.now ≤ 256 }
    ensures { result.items ≡ names_of laid.now }
{
    let mut names = ArrayVec::new();
    for one in laid {
        names.push(one.object.name);
    }
    names
}

// The first object with the name, looked for from the first on.
fn first_named<'t, 'a>(laid: &'t [Laid<'a>], name: u32) -> Option<&'t Laid<'a>>
    ensures { option_map (λ l. laid_of l.now) result ≡ named_laid name (laid_in laid.now) }
{
    laid.iter().find(|one| name == one.object.name)
}

// How many hints a directory has.
const HINTS: usize = 1024;

// How many hints in a row are tried for a name.
const TRIES: usize = 8;

// The objects as they are laid, and hints of which of them has a name: the object's number stands at one of the first free hints from the name's
// own on. A hint may be of another name, so it is checked. A table of our own, since a HashMap needs a heap.
#[derive(Debug, Drop)]
pub struct Directory<'t, 'a> {
    pub laid: &'t [Laid<'a>],
    hints: [u8; HINTS],
    // no two objects have one name
    ghost apart: { two_names (objects_of laid.now) ≡ false },
}

// A name's own hint: the product's highest ten bits, which depend on all bits of the name.
fn hint_of(name: u32) -> usize
    ensures { result < 1024 }
{
    (name as u64).wrapping_mul(0x9e37_79b9_7f4a_7c15) as usize >> 54
}

// The hint that is tried for a name at this step: its own and those behind it, the first of all behind the last.
fn hint_at(name: u32, step: usize) -> usize
    requires { step < 8 }
    ensures { result < 1024 }
{
    (hint_of(name) + step) % HINTS
}

// Where a name's object is put down: at the first of its hints that is free, or else at the last that is tried. A hint of 0 is free.
fn free_for(hints: &[u8; HINTS], name: u32) -> usize
    ensures { result < 1024 }
{
    (0..TRIES)
        .map(|step| hint_at(name, step))
        .find(|at| hints[*at] == 0)
        .unwrap_or(hint_at(name, TRIES - 1))
}

impl<'t, 'a> Directory<'t, 'a> {
    ghost use Rattle.linker.specs.Directories.{DirectorySays};

    // A directory of the objects, where no two have one name.
    pub fn new(laid: &'t [Laid<'a>]) -> Result<Directory<'t, 'a>, NotLinked>
        requires { length laid.now ≤ 256 }
        ensures { DirectorySays laid.now result }
    {
        if twice(&names_of(laid)) {
            return Err(NotLinked::Twice);
        }
        let mut hints = [0; HINTS];
        for (number, one) in laid.iter().enumerate() {
            hints[free_for(&hints, one.object.name)] = number as u8;
        }
        Ok(Directory { laid, hints })
    }

    // The object with the name.
    pub fn named(&self, name: u32) -> Option<&'t Laid<'a>>
        ensures { option_map (λ l. laid_of l.now) result ≡ named_laid name (laid_in self.now.laid.now) }
    {
        // a loop: `find_map` was tried, and the borrow checker covers none whose closure hands out what it borrows from outside
        for step in 0..TRIES {
            let hint = self.hints[hint_at(name, step)] as usize;
            if let Some(likely) = self.laid.get(hint)
                && likely.object.name == name
            {
                return Some(likely);
            }
        }
        first_named(self.laid, name)
    }
}

// Linking objects: laying them one behind the other, finding what each wants, fitting their code, and writing the image.
#![tactic(auto)]

ghost use Rattle.std.specs.Prelude.{◌≡◌, Some};
ghost use Rattle.linker.specs.Says.{LinkedPost};
ghost use Rattle.linker.specs.Texts.{refusal_text};

mod directory;
mod finding;
mod fitting;
mod laying;
mod names;
mod writing;

use directory::Directory;
use laying::{Extent, HEAD, Laid};
use rows::objects::{MOST_OBJECTS, NoObjects};
use std::error::Error;
use std::fmt;
use writing::join;

// An image that objects were linked to: how many words it has, and how many words the units have.
#[derive(Clone, Copy, PartialEq, Eq, Debug)]
pub struct Image {
    pub size: usize,
    pub words: usize,
}

// Why objects are not linked.
#[derive(Clone, Copy, PartialEq, Eq, Debug)]
pub enum NotLinked {
    // the row says no list of objects
    NoObjects,
    // two objects have one name
    Twice,
    // a want isn't met, or the first object offers no procedure 0 without arguments, or there is no object
    Missing,
    // fewer words for the image than four and one for each of the row's
    NoSpace,
}

// By hand, since a derived text has no contract.
impl fmt::Display for NotLinked {
    ghost output = { λ e. Some (refusal_text e) };

    fn fmt<W: fmt::Write>(&self, f: &mut fmt::Formatter<W>) -> fmt::Result {
        f.write_str(match self {
            NotLinked::NoObjects => "no objects",
            NotLinked::Twice => "twice",
            NotLinked::Missing => "missing",
            NotLinked::NoSpace => "no space",
        })
    }
}

impl Error for NotLinked {}

impl From<NoObjects> for NotLinked {
    ghost use Rattle.linker.specs.declared.NotLinked.{NotLinked};

    ghost from_gives = { λ _ e. e ≡ NotLinked.NoObjects };

    fn from(_refused: NoObjects) -> Self {
        Self::NoObjects
    }
}

// Links the objects of a row. The image stands first in its words, and the rest of them stays; what is refused leaves them all as they were.
pub fn link(objects: &[u32], image: &mut [u32]) -> Result<Image, NotLinked>
    ensures { LinkedPost objects.now image.old image.new result }
{
    if image.len() < HEAD as usize + objects.len() {
        return Err(NotLinked::NoSpace);
    }
    let mut table = [Laid::default(); MOST_OBJECTS];
    let extent = Extent::lay(objects, &mut table)?;
    let directory = Directory::new(&table[..extent.objects])?;
    join(&directory, image)?;
    Ok(Image {
        size: extent.image,
        words: extent.words,
    })
}

// Laying objects one behind the other: where the code and the words of each come to lie.
ghost use Rattle.std.specs.Prelude.{◌≡◌};
ghost use Rattle.rows.specs.ObjectViews.{object_of};
ghost use Rattle.linker.specs.Settled.{Settled};

use rows::objects::{NoObjects, ObjectView, Objects};

// Where the code and the words of an object come to lie.
#[derive(Clone, Copy, PartialEq, Eq, Debug)]
pub struct Places {
    pub code_at: u32,
    pub words_at: u32,
}

// An object, and where its code and its words come to lie: behind those of the objects before it.
#[derive(Clone, Copy, PartialEq, Eq, Debug)]
pub struct Laid<'a> {
    pub object: ObjectView<'a>,
    pub code_at: u32,
    pub words_at: u32,
    // the object keeps to its limits, and each place in its code is a word
    ghost settled: { Settled (record { object = object_of object; code_at = code_at; words_at = words_at }) },
}

// What stands in a table where no object is laid. By hand, since none is derived beside a ghost field.
impl Default for Laid<'_> {
    ghost is_default = { λ laid. (laid.code_at ≡ 0) × (laid.words_at ≡ 0) };

    // An object without anything, at the places 0.
    fn default() -> Self {
        Laid {
            object: ObjectView::default(),
            code_at: 0,
            words_at: 0,
        }
    }
}

impl Laid<'_> {
    ghost use Rattle.std.specs.Prelude.{◌+◌, ◌^◌, ◌<◌, length};
    ghost use Rattle.linker.specs.Tables.{laid_of, Behind};

    // Where the code and the words of the next object come to lie: behind those of this one.
    fn behind(&self) -> Places
        requires code { (laid_of self.now).code_at + length (laid_of self.now).object.code < 2 ^ 32 }
        requires words { (laid_of self.now).words_at + (laid_of self.now).object.words < 2 ^ 32 }
        ensures { Behind (laid_of self.now) result }
    {
        let code_at = self.code_at + self.object.code.len() as u32;
        let words_at = self.words_at + self.object.words;
        Places { code_at, words_at }
    }
}

// How many objects were laid, how many words their image has, and how many words the units have.
#[derive(Clone, Copy, PartialEq, Eq, Debug)]
pub struct Extent {
    pub objects: usize,
    pub image: usize,
    pub words: usize,
}

// The words at the front of an image, before the first object's code.
pub const HEAD: u32 = 4;

impl Extent {
    ghost use Rattle.std.specs.Prelude.{length};
    ghost use Rattle.linker.specs.Laying.{LaySays};

    // Lays the objects of a row in the order in which they stand there, in the front of the table. A lent table and no ArrayVec, since each that is
    // made or answered with is filled or copied once more: with one, a link of two small objects took several times as long.
    pub fn lay<'a>(row: &'a [u32], table: &mut [Laid<'a>]) -> Result<Extent, NoObjects>
        requires { length table.old ≡ 256 }
        ensures { LaySays row.now table.new result }
    {
        let mut reader = Objects::new(row)?;
        let mut count = 0;
        let mut places = Places {
            code_at: HEAD,
            words_at: 0,
        };
        while let Some(object) = reader.next()? {
            let Places { code_at, words_at } = places;
            let next = Laid {
                object,
                code_at,
                words_at,
            };
            places = next.behind();
            table[count] = next;
            count += 1;
        }
        Ok(Extent {
            objects: count,
            image: places.code_at as usize,
            words: places.words_at as usize,
        })
    }
}

// Writing the image.
ghost use Rattle.std.specs.Prelude.{◌≡◌, ◌+◌, ◌≤◌, true, [], ◌∷◌, ◌++◌, length, drop, is_some};
ghost use Rattle.linker.specs.Linking.{codes};
ghost use Rattle.linker.specs.Tables.{objects_of, all_code};
ghost use Rattle.linker.specs.Directories.{laid_by};
ghost use Rattle.linker.specs.Fitting.{AllKnown, JoinSays};

use crate::NotLinked;
use crate::directory::Directory;
use crate::fitting::Fitter;
use crate::laying::HEAD;
use arrayvec::ArrayVec;

// How many places of wants are kept from when wants are checked until code is fitted: a few where there are no more wants, and else so many that
// each of as many is looked for but once. Their table is filled at each link, so a small one keeps a small link quick.
const FEW_KEPT: usize = 1024;

const MOST_KEPT: usize = 16384;

// The numbers of the machine's two instructions that an image begins with: to stand over the machine's crate for these alone would be no plainer.
const CALL: u32 = 8;

const HALT: u32 = 0;

// What the halt at an image's head is given: that the program is done.
const DONE: u32 = 1;

// What objects' codes are written by: the objects, and the places of the first of their wants, one object's behind the other's.
#[derive(Debug, Drop)]
pub struct Writer<'w, 't, 'a> {
    directory: &'w Directory<'t, 'a>,
    known: &'w [u32],
    // all wants of all objects are met
    ghost met: { is_some (codes (laid_by directory.now) (laid_by directory.now)) ≡ true },
    // the places are those of their first wants
    ghost right: { AllKnown (laid_by directory.now) (laid_by directory.now) known.now },
}

impl Writer<'_, '_, '_> {
    ghost use Rattle.linker.specs.Writers.{written_by, space_of};

    // Writes the objects' codes, each fitted, one behind the other.
    fn write_codes(&self, words: &mut [u32])
        requires { space_of self.now ≤ length words.old }
        ensures { words.new ≡ written_by self.now ++ drop (space_of self.now) words.old }
    {
        let directory = self.directory;
        let mut known = self.known;
        // by an offset: `split_at_mut` was tried, and behind a loop that goes down the words by it the proof knows nothing of what they hold
        let mut at = 0;
        for own in directory.laid {
            let (first, others) = known.split_at(known.len().min(own.object.wants.len()));
            let fitter = Fitter {
                directory,
                own,
                known: first,
            };
            let end = at + own.object.code.len();
            fitter.write(&mut words[at..end]);
            known = others;
            at = end;
        }
    }

    // Writes the image: a call of the entry and a halt with 1, and behind these four words the objects' codes.
    fn write(&self, entry: u32, image: &mut [u32])
        requires { 4 + space_of self.now ≤ length image.old }
        ensures { image.new ≡ (8 ∷ entry ∷ 0 ∷ 1 ∷ written_by self.now) ++ drop (4 + space_of self.now) image.old }
    {
        let (head, codes) = image.split_at_mut(HEAD as usize);
        head.copy_from_slice(&[CALL, entry, HALT, DONE]);
        self.write_codes(codes);
    }
}

// How many wants the objects have. It decides only how many places are kept, and no contract speaks of that.
fn want_count(directory: &Directory) -> usize {
    let mut count: usize = 0;
    for one in directory.laid {
        count = count.saturating_add(one.object.wants.len());
    }
    count
}

// Joins the objects to an image, where their wants are met and there is an entry; else the image's words stay as they were. As many places of
// wants are kept as there is room for.
fn join_by<const KEPT: usize>(
    directory: &Directory,
    places: &mut ArrayVec<u32, KEPT>,
    image: &mut [u32],
) -> Result<(), NotLinked>
    requires empty { places.old.items ≡ [] }
    requires space { 4 + all_code (objects_of directory.now.laid.now) ≤ length image.old }
    ensures { JoinSays (laid_by directory.now) image.old image.new result }
{
    let entry = directory.entry().ok_or(NotLinked::Missing)?;
    directory.find_all(places)?;
    let writer = Writer {
        directory,
        known: places.as_slice(),
    };
    writer.write(entry, image);
    Ok(())
}

// The same with a large table, which stands on the stack of this function alone.
#[inline(never)]
fn join_many(directory: &Directory, image: &mut [u32]) -> Result<(), NotLinked>
    requires { 4 + all_code (objects_of directory.now.laid.now) ≤ length image.old }
    ensures { JoinSays (laid_by directory.now) image.old image.new result }
{
    let mut places: ArrayVec<u32, MOST_KEPT> = ArrayVec::new();
    join_by(directory, &mut places, image)
}

// The same with a table for the places of the objects' wants.
pub fn join(directory: &Directory, image: &mut [u32]) -> Result<(), NotLinked>
    requires { 4 + all_code (objects_of directory.now.laid.now) ≤ length image.old }
    ensures { JoinSays (laid_by directory.now) image.old image.new result }
{
    if want_count(directory) > FEW_KEPT {
        return join_many(directory, image);
    }
    let mut places: ArrayVec<u32, FEW_KEPT> = ArrayVec::new();
    join_by(directory, &mut places, image)
}

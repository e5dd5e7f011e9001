// Finding what objects want: by name, then by procedure and number of arguments.
ghost use Rattle.std.specs.Prelude.{◌≡◌, [], ◌∷◌, ◌++◌, take};
ghost use Rattle.rows.specs.ObjectViews.{want_of, wants_in, offers_in};
ghost use Rattle.linker.specs.Linking.{offered as offered_place, place as place_of, entry as entry_of};
ghost use Rattle.linker.specs.Settled.{begin_of};
ghost use Rattle.linker.specs.Tables.{laid_of};
ghost use Rattle.linker.specs.Directories.{laid_by};
ghost use Rattle.linker.specs.Fitting.{FindSays, FindAllSays};

use crate::NotLinked;
use crate::directory::Directory;
use crate::laying::Laid;
use arrayvec::ArrayVec;
use rows::objects::{Offer, Want};

// Where the first offer of the procedure with so many arguments begins. By a rule of the project this search is a loop that yields the place by `break`.
fn offered(offers: &[[u32; 3]], proc: u32, args: u32) -> Option<u32>
    ensures { result ≡ offered_place proc args (offers_in offers.now) }
{
    let mut left = offers.iter();
    loop {
        let Some(words) = left.next() else {
            break None;
        };
        let offer = Offer::from(*words);
        if offer.proc == proc && offer.args == args {
            break Some(offer.at);
        }
    }
}

impl Laid<'_> {
    // Where the procedure with so many arguments begins in the image, if the object offers it.
    fn begin_of(&self, proc: u32, args: u32) -> Option<u32>
        ensures { result ≡ begin_of (laid_of self.now) proc args }
    {
        let at = offered(self.object.offers, proc, args)?;
        Some(self.code_at + at)
    }
}

// Puts a place behind the others, if there is room for it.
fn keep<const ROOM: usize>(places: &mut ArrayVec<u32, ROOM>, place: u32)
    ensures { places.new.items ≡ take ROOM (places.old.items ++ place ∷ []) }
{
    let _ = places.try_push(place);
}

impl Directory<'_, '_> {
    // The place of a want: where the procedure begins in the object with that name.
    pub fn place(&self, want: Want) -> Option<u32>
        ensures { result ≡ place_of (laid_by self.now) (want_of want) }
    {
        let unit = self.named(want.unit)?;
        unit.begin_of(want.proc, want.args)
    }

    // The place of the first object's procedure 0 without arguments.
    pub fn entry(&self) -> Option<u32>
        ensures { result ≡ entry_of (laid_by self.now) }
    {
        let first = self.laid.first()?;
        first.begin_of(0, 0)
    }

    // Finds the places of the wants, and puts them behind those found before, as many as there is room for. Missing where a want isn't met.
    pub fn find<const ROOM: usize>(
        &self,
        wants: &[[u32; 3]],
        places: &mut ArrayVec<u32, ROOM>,
    ) -> Result<(), NotLinked>
        ensures { FindSays (laid_by self.now) (wants_in wants.now) ROOM places.old.items places.new.items result }
    {
        for words in wants {
            let place = self.place(Want::from(*words)).ok_or(NotLinked::Missing)?;
            keep(places, place);
        }
        Ok(())
    }

    // Finds the places of all objects' wants, one object's behind the other's, as many as there is room for. Missing where a want isn't met.
    pub fn find_all<const ROOM: usize>(
        &self,
        places: &mut ArrayVec<u32, ROOM>,
    ) -> Result<(), NotLinked>
        requires { places.old.items ≡ [] }
        ensures { FindAllSays (laid_by self.now) ROOM places.new.items result }
    {
        for one in self.laid {
            self.find(one.object.wants, places)?;
        }
        Ok(())
    }
}

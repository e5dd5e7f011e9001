// Objects read from rows of words, one after the other, each as a view of the row.
ghost use Rattle.std.specs.Prelude.{◌≡◌, [], ◌∷◌, length};
ghost use Rattle.std.specs.List.{slice_get};
ghost use Rattle.std.specs.Option.{option_map};
ghost use Rattle.rows.specs.ObjectRows.{row_fits, sound, offers_inside, fits_inside};
ghost use Rattle.rows.specs.ObjectViews.{want_of, want_in, offer_of, offer_in, offers_in, fit_of, fit_in, fits_in, fit_doing, fit_inside, object_of, what};
ghost use Rattle.rows.specs.ObjectReading.{front, said, BegunSays, NextSays, GivesFirst, OneList};

use crate::units;
use crate::words::first_threes;
use std::error::Error;
use std::fmt;

// A want of an object: a procedure of the unit with that name, called with so many arguments.
#[derive(Clone, Copy, PartialEq, Eq, Hash, Debug)]
pub struct Want {
    pub unit: u32,
    pub proc: u32,
    pub args: u32,
}

// An offer of an object: the procedure, with so many arguments, begins at that place of the code.
#[derive(Clone, Copy, PartialEq, Eq, Hash, Debug)]
pub struct Offer {
    pub proc: u32,
    pub args: u32,
    pub at: u32,
}

// A fit of an object: what is done, by its kind, to the code word at that place.
#[derive(Clone, Copy, PartialEq, Eq, Hash, Debug)]
pub struct Fit {
    pub at: u32,
    // a number and no enum: a want stands in fits of every kind, and a view keeps what its row says, also a kind that there is not
    pub kind: u32,
    pub want: u32,
}

// How many kinds of fits there are.
const KINDS: u32 = 3;

// What a fit does: adds the place of the object's own code or of its own words, or puts the place of a want in the word's stead.
#[derive(Clone, Copy, PartialEq, Eq, Hash, Debug)]
pub enum Kind {
    Code,
    Words,
    Want(u32),
}

// An object as it stands in a row: its wants, offers and fits are three words each.
#[derive(Clone, Copy, PartialEq, Eq, Debug, Default)]
pub struct ObjectView<'a> {
    pub name: u32,
    pub words: u32,
    pub wants: &'a [[u32; 3]],
    pub offers: &'a [[u32; 3]],
    pub code: &'a [u32],
    pub fits: &'a [[u32; 3]],
}

impl From<[u32; 3]> for Want {
    ghost from_gives = { λ words want. want_of want ≡ want_in words };

    // The want that three words of a row say.
    fn from([unit, proc, args]: [u32; 3]) -> Want {
        Want { unit, proc, args }
    }
}

impl From<[u32; 3]> for Offer {
    ghost from_gives = { λ words offer. offer_of offer ≡ offer_in words };

    // The offer that three words of a row say.
    fn from([proc, args, at]: [u32; 3]) -> Offer {
        Offer { proc, args, at }
    }
}

impl From<[u32; 3]> for Fit {
    ghost from_gives = { λ words fit. fit_of fit ≡ fit_in words };

    // The fit that three words of a row say.
    fn from([at, kind, want]: [u32; 3]) -> Fit {
        Fit { at, kind, want }
    }
}

impl From<Fit> for [u32; 3] {
    ghost from_gives = { λ fit words. words ≡ row_fits (fit_of fit ∷ []) };

    // The three words of a row that say the fit.
    fn from(fit: Fit) -> [u32; 3] {
        [fit.at, fit.kind, fit.want]
    }
}

impl Fit {
    // The fit of the word at that place that does so.
    pub fn new(at: u32, kind: Kind) -> Fit
        ensures { fit_of result ≡ fit_doing at kind }
    {
        let (kind, want) = match kind {
            Kind::Code => (0, 0),
            Kind::Words => (1, 0),
            Kind::Want(want) => (2, want),
        };
        Fit { at, kind, want }
    }

    // What the fit does; only the kinds 0 to 2 stand in objects. A method, since a Kind keeps less than the fit, and no From would show that.
    pub fn what(&self) -> Kind
        ensures { result ≡ what self.now.kind self.now.want }
    {
        match self.kind {
            0 => Kind::Code,
            1 => Kind::Words,
            _ => Kind::Want(self.want),
        }
    }

    // Whether the fit is of a place in a code of so many words, of one of the three kinds, and names one of so many wants if it has to.
    pub fn is_inside(&self, code: usize, wants: usize) -> bool
        ensures { result ≡ fit_inside code wants (fit_of self.now) }
    {
        let named = match self.what() {
            Kind::Code | Kind::Words => true,
            Kind::Want(want) => (want as usize) < wants,
        };
        self.kind < KINDS && named && (self.at as usize) < code
    }
}

// Whether each offer begins in a code of so many words.
fn offers_inside(offers: &[[u32; 3]], code: usize) -> bool
    ensures { result ≡ offers_inside code (offers_in offers.now) }
{
    offers
        .iter()
        .all(|words| (Offer::from(*words).at as usize) < code)
}

// Whether each fit is inside an object with so many words of code and so many wants.
fn fits_inside(fits: &[[u32; 3]], code: usize, wants: usize) -> bool
    ensures { result ≡ fits_inside code wants (fits_in fits.now) }
{
    fits.iter()
        .all(|words| Fit::from(*words).is_inside(code, wants))
}

impl<'a> ObjectView<'a> {
    // The object at the front of a row, and the row behind it; none where the row ends before the object does.
    pub fn first(row: &'a [u32]) -> Option<(ObjectView<'a>, &'a [u32])>
        ensures { said result ≡ front row.now }
    {
        let [name, words, wants, offers, code, fits, rest @ ..] = row else {
            return None;
        };
        let (wants, rest) = first_threes(rest, *wants)?;
        let (offers, rest) = first_threes(rest, *offers)?;
        let (code, rest) = rest.split_at_checked(*code as usize)?;
        let (fits, rest) = first_threes(rest, *fits)?;
        let view = ObjectView {
            name: *name,
            words: *words,
            wants,
            offers,
            code,
            fits,
        };
        Some((view, rest))
    }

    // How many wants there are.
    pub fn want_count(&self) -> usize
        ensures { result ≡ length (object_of self.now).wants }
    {
        self.wants.len()
    }

    // The want with that number, if it is there.
    pub fn want(&self, number: usize) -> Option<Want>
        ensures { option_map want_of result ≡ slice_get (object_of self.now).wants number }
    {
        self.wants.get(number).copied().map(Want::from)
    }

    // Whether the object keeps to the limits: of its words, of the places of its offers, and of its fits.
    pub fn is_sound(&self) -> bool
        ensures { result ≡ sound (object_of self.now) }
    {
        let code = self.code.len();
        self.words <= units::MOST_WORDS
            && offers_inside(self.offers, code)
            && fits_inside(self.fits, code, self.want_count())
    }
}

// The most words that a row of objects has.
pub const MOST_WORDS: usize = 16_777_216;

// The most objects that a row says.
pub const MOST_OBJECTS: usize = 256;

// A row that says no list of objects.
#[derive(Clone, Copy, PartialEq, Eq, Hash, Debug)]
pub struct NoObjects;

// By hand: a derived text has no contract.
impl fmt::Display for NoObjects {
    ghost use Rattle.std.specs.Prelude.{Some};
    ghost use Rattle.rows.specs.Texts.{no_objects_text};

    ghost output = { λ _. Some no_objects_text };

    fn fmt<W: fmt::Write>(&self, f: &mut fmt::Formatter<W>) -> fmt::Result {
        f.write_str("no objects")
    }
}

impl Error for NoObjects {}

// A reader of objects: the row that is left, and how many objects may still come.
#[derive(PartialEq, Eq, Debug, Drop)]
pub struct Objects<'a> {
    rest: &'a [u32],
    left: usize,
}

impl<'a> Objects<'a> {
    // A reader of the whole row, which is refused where it is too long.
    pub fn new(row: &'a [u32]) -> Result<Objects<'a>, NoObjects>
        ensures { BegunSays row.now result }
    {
        if row.len() > MOST_WORDS {
            return Err(NoObjects);
        }
        Ok(Objects {
            rest: row,
            left: MOST_OBJECTS,
        })
    }

    // The next object, or none at the row's end; a row that is no list of objects is refused.
    // No Iterator: a reader that refused stays as it was, and would refuse without end.
    pub fn next(&mut self) -> Result<Option<ObjectView<'a>>, NoObjects>
        ensures says { NextSays self.old self.new result }
        ensures first { GivesFirst self.old self.new result }
    {
        if self.rest.is_empty() {
            return Ok(None);
        }
        if self.left == 0 {
            return Err(NoObjects);
        }
        let (view, rest) = ObjectView::first(self.rest).ok_or(NoObjects)?;
        if !view.is_sound() {
            return Err(NoObjects);
        }
        self.rest = rest;
        self.left -= 1;
        Ok(Some(view))
    }
}

// A row says at most one list of objects.
pub fn one_list()
    ensures { OneList }
{}

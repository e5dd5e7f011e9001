// Units read from rows of words, each as a view of its row.
ghost use Rattle.std.specs.Prelude.{◌≡◌, true, false, length};
ghost use Rattle.rows.specs.UnitRows.{all_below, small_wants};
ghost use Rattle.rows.specs.ObjectViews.{wants_in};
ghost use Rattle.rows.specs.WantRows.{wants_said};
ghost use Rattle.rows.specs.Bodies.{outlined};
ghost use Rattle.rows.specs.UnitReading.{OneUnit, ReadSays};
ghost use Rattle.rows.specs.UnitParts.{CutSays, OpenSays, AritySays, BodiesRight, OrNoUnit};

use crate::bodies::{Scope, skip};
use crate::objects::Want;
use crate::signs::Procedure;
use crate::words::first_threes;
use std::error::Error;
use std::fmt;

// The most words that a unit's row has.
pub const MOST_ROWS: usize = 65_536;

// The most words that a unit has of its own.
pub const MOST_WORDS: u32 = 4096;

// The most wants and the most procedures that a unit has.
pub const MOST_WANTS: u32 = 256;

pub const MOST_PROCS: u32 = 256;

// The most arguments that a want or a procedure takes.
pub const MOST_ARGS: u32 = 8;

// A unit as it stands in its row: a want is three words, a procedure is its number of arguments and its body, an offer is a procedure's number.
#[derive(Clone, Copy, PartialEq, Eq, Debug)]
pub struct UnitView<'a> {
    pub name: u32,
    pub words: u32,
    pub wants: &'a [[u32; 3]],
    // how many procedures there are: each is of another length, so their words do not show it
    pub count: u32,
    pub procs: &'a [u32],
    pub offers: &'a [u32],
}

// Why a row is not read as a unit.
#[derive(Clone, Copy, PartialEq, Eq, Hash, Debug)]
pub enum Refusal {
    // The row says no unit.
    NoUnit,
    // Fewer words are lent than are needed.
    Short,
}

// By hand: a derived text has no contract.
impl fmt::Display for Refusal {
    ghost use Rattle.std.specs.Prelude.{Some};
    ghost use Rattle.rows.specs.Texts.{refusal_text};

    ghost output = { λ refusal. Some (refusal_text refusal) };

    fn fmt<W: fmt::Write>(&self, f: &mut fmt::Formatter<W>) -> fmt::Result {
        f.write_str(match self {
            Refusal::NoUnit => "no unit",
            Refusal::Short => "short",
        })
    }
}

impl Error for Refusal {}

// The wants that flat words say, for a view or a scope that is made of such; one or two words that are left over say nothing.
pub fn whole_wants(words: &[u32]) -> &[[u32; 3]]
    ensures { wants_in result.now ≡ wants_said words.now }
{
    words.as_chunks::<3>().0
}

// Whether each want takes few enough arguments.
fn wants_small(wants: &[[u32; 3]]) -> bool
    ensures { result ≡ small_wants (wants_in wants.now) }
{
    wants
        .iter()
        .all(|words| Want::from(*words).args <= MOST_ARGS)
}

// Whether each offer is of one of so many procedures.
fn offers_below(offers: &[u32], count: u32) -> bool
    ensures { result ≡ all_below count offers.now }
{
    offers.iter().all(|offer| Procedure(*offer).is_below(count))
}

// Writes how many arguments each procedure takes; refused where the row does not say so many procedures with few enough arguments.
fn read_arities(procs: &[u32], arities: &mut [u32]) -> Result<(), Refusal>
    ensures { OrNoUnit (AritySays (length arities.old) procs.now arities.new true) (AritySays (length arities.old) procs.now arities.new false) result }
{
    let mut left = procs;
    // No chain: each body is of another length, which only reading it tells.
    for arity in arities.iter_mut() {
        let (args, body) = left.split_first().ok_or(Refusal::NoUnit)?;
        if *args > MOST_ARGS {
            return Err(Refusal::NoUnit);
        }
        let size = skip(body).ok_or(Refusal::NoUnit)?;
        *arity = *args;
        left = &body[size..];
    }
    if !left.is_empty() {
        return Err(Refusal::NoUnit);
    }
    Ok(())
}

impl<'a> UnitView<'a> {
    // The view of a row that is cut by its counts alone; none where they do not fit the row or the limits.
    fn cut(row: &'a [u32]) -> Option<UnitView<'a>>
        ensures { CutSays row.now result }
    {
        let [name, words, wants, count, offers, rest @ ..] = row else {
            return None;
        };
        if row.len() > MOST_ROWS
            || *words > MOST_WORDS
            || *wants > MOST_WANTS
            || *count > MOST_PROCS
        {
            return None;
        }
        let (wants, rest) = first_threes(rest, *wants)?;
        let procs_size = rest.len().checked_sub(*offers as usize)?;
        let (procs, offers) = rest.split_at(procs_size);
        Some(UnitView {
            name: *name,
            words: *words,
            wants,
            count: *count,
            procs,
            offers,
        })
    }

    // The view of a unit's row, if its wants take few enough arguments and what it offers is there; its procedures are not looked at.
    pub fn open(row: &'a [u32]) -> Option<UnitView<'a>>
        ensures { OpenSays row.now result }
    {
        let view = UnitView::cut(row)?;
        (wants_small(view.wants) && offers_below(view.offers, view.count)).then_some(view)
    }

    // How many wants the unit has.
    pub fn want_count(&self) -> usize
        ensures { result ≡ length (wants_in self.now.wants.now) }
    {
        self.wants.len()
    }

    // Checks that each body is well formed and not too deep, where the procedures take so many arguments.
    fn check_bodies(self, arities: &'a [u32]) -> Result<(), Refusal>
        ensures { OrNoUnit (BodiesRight (outlined self.entry.words self.entry.wants.now arities.now) (length arities.now) self.entry.procs.now) (BodiesRight (outlined self.entry.words self.entry.wants.now arities.now) (length arities.now) self.entry.procs.now → ⊥) result }
    {
        let mut left = self.procs;
        // No chain: each body is of another length, which only reading it tells.
        for _ in arities {
            let (args, body) = left.split_first().ok_or(Refusal::NoUnit)?;
            let scope = Scope {
                args: *args,
                words: self.words,
                wants: self.wants,
                arities,
            };
            let size = scope.body(body).ok_or(Refusal::NoUnit)?;
            left = &body[size..];
        }
        if !left.is_empty() {
            return Err(Refusal::NoUnit);
        }
        Ok(())
    }

    // The unit that a row says. How many arguments its procedures take is written to the front of `arities`; a refusal may have changed words there.
    pub fn read(row: &'a [u32], arities: &mut [u32]) -> Result<UnitView<'a>, Refusal>
        ensures { ReadSays row.now arities.old arities.new result }
    {
        if arities.len() < MOST_PROCS as usize {
            return Err(Refusal::Short);
        }
        let view = UnitView::open(row).ok_or(Refusal::NoUnit)?;
        let arities = &mut arities[..view.count as usize];
        read_arities(view.procs, arities)?;
        view.check_bodies(arities)?;
        Ok(view)
    }
}

// A row says at most one unit.
pub fn one_unit()
    ensures { OneUnit }
{}

// The compiler: from a unit's row to the row of its object.
#![tactic(auto)]

ghost use Rattle.std.specs.Prelude.{◌≡◌, length, Decides};
ghost use Rattle.compiler.specs.Correct.{Compiles, FitsSpace};
ghost use Rattle.compiler.specs.Together.{CompiledRuns};
ghost use Rattle.compiler.specs.UnitWriting.{Compilable, UnitSays};
ghost use Rattle.compiler.specs.Says.{TooShort, CompiledPost};
ghost use Rattle.compiler.specs.Simulation.{SimulatesExpressions};
ghost use Rattle.compiler.specs.Worked.{WorkedObjects};

mod assembly;
mod filled;
mod instruction;
mod layout;
mod measure;
mod names;
mod object;
mod writer;
mod writing;

use filled::Filled;
use layout::Layout;
use measure::place_procedures;
use rows::units::{Refusal, UnitView};
use writer::Writer;

// Whether too few words are lent for a row of so many words.
fn too_short(row: usize, object: usize, work: usize) -> bool
    ensures { Decides result (TooShort row object work) }
{
    // in a wider type, in which the sums are as they are written: 32 words for each of so many might not fit
    let row = row as u128;
    (object as u128) < 256 + 32 * row || (work as u128) < 4096 + 16 * row
}

// Writes the object of a unit that is laid out, if its bodies are right; says how many words that were.
fn write_unit(layout: &Layout, work: &mut [u32], object: &mut [u32]) -> Option<usize>
    requires { Compilable layout.now (length work.old) (length object.old) }
    ensures { UnitSays layout.now object.old object.new result }
{
    // for each word of the row at most 7 of code, and what is left for fits
    let (code, fits) = work.split_at_mut(7 * layout.view.procs.len());
    let mut writer = Writer {
        row: layout.view.procs,
        code: Filled {
            words: code,
            len: 0,
        },
        fits: Filled {
            words: fits,
            len: 0,
        },
    };
    writer.procedures(layout)?;
    Some(layout.write_object(writer.code.written(), writer.fits.written(), object))
}

// Compiles the unit that a row says; says how many words its object has. The object stands first in its words, and the rest of them stays;
// what is refused leaves them all as they were. It is short where fewer words are lent for the object than 256 and 32 for each of the row's,
// or fewer to work with than 4,096 and 16 for each. The work words may hold anything afterwards.
pub fn compile(unit: &[u32], object: &mut [u32], work: &mut [u32]) -> Result<usize, Refusal>
    ensures { CompiledPost unit.now object.old object.new (length work.old) result }
{
    if too_short(unit.len(), object.len(), work.len()) {
        return Err(Refusal::Short);
    }
    let view = UnitView::open(unit).ok_or(Refusal::NoUnit)?;
    let count = view.count as usize;
    let (arities, rest) = work.split_at_mut(count);
    let (starts, rest) = rest.split_at_mut(count);
    place_procedures(view.procs, arities, starts).ok_or(Refusal::NoUnit)?;
    let layout = Layout {
        view,
        arities,
        starts,
    };
    write_unit(&layout, rest, object).ok_or(Refusal::NoUnit)
}

// The compiler's objects for the two worked units are those made by hand, word by word.
pub fn worked_objects()
    ensures { WorkedObjects }
{}

// Code for an expression does what the expression does, as long as its calls do what they should;
// so the object of a unit stands in the relation to it; its row is of words, in the space that it is given; and units that are compiled one by one
// and then linked are run as they do together.
pub fn objects_do_what_units_do()
    ensures expressions { SimulatesExpressions }
    ensures objects { Compiles }
    ensures space { FitsSpace }
    ensures together { CompiledRuns }
{}

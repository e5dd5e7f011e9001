// The linker and the compiler for callers in C or Rust, to time them beside plain ones. A slice is a pointer and then a length there.
// An answer is a number, and each has functions of its own, since C has neither `Result` nor generics.
#![tactic(auto)]

ghost use Rattle.std.specs.Prelude.{length};
ghost use Rattle.speed.specs.Says.{LinkLength, LinkAnswer, CompileLength, CompileAnswer};

use compiler::compile;
use linker::{NotLinked, link};
use rows::units::Refusal;

// Links the objects of a row, and says how many words the image has; 0 where the objects are refused.
#[unsafe(no_mangle)]
pub extern "C" fn speed_link(objects: &[u32], image: &mut [u32]) -> usize
    ensures { LinkLength objects.now image.old image.new result }
{
    link(objects, image).map_or(0, |image| image.size)
}

// Links the objects of a row, and says which answer it was: 0 an image, 1 no space, 2 no objects, 3 twice, 4 missing.
#[unsafe(no_mangle)]
pub extern "C" fn speed_link_answer(objects: &[u32], image: &mut [u32]) -> u32
    ensures { LinkAnswer objects.now image.old image.new result }
{
    match link(objects, image) {
        Ok(_) => 0,
        Err(NotLinked::NoSpace) => 1,
        Err(NotLinked::NoObjects) => 2,
        Err(NotLinked::Twice) => 3,
        Err(NotLinked::Missing) => 4,
    }
}

// Compiles the unit that a row says, and says how many words the object has; 0 where the row is refused.
#[unsafe(no_mangle)]
pub extern "C" fn speed_compile(unit: &[u32], object: &mut [u32], work: &mut [u32]) -> usize
    ensures { CompileLength unit.now object.old object.new (length work.old) result }
{
    compile(unit, object, work).unwrap_or(0)
}

// Compiles the unit that a row says, and says which answer it was: 0 an object, 1 short, 2 no unit.
#[unsafe(no_mangle)]
pub extern "C" fn speed_compile_answer(unit: &[u32], object: &mut [u32], work: &mut [u32]) -> u32
    ensures { CompileAnswer unit.now object.old object.new (length work.old) result }
{
    match compile(unit, object, work) {
        Ok(_) => 0,
        Err(Refusal::Short) => 1,
        Err(Refusal::NoUnit) => 2,
    }
}

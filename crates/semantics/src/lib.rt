// What units do together: the definitions stand in specs/, and a function for each theorem of them here; and objects linked and run as the units do.
#![tactic(auto)]

pub mod examples;
pub mod laws;
pub mod linked;
pub mod promise;

ghost use Rattle.semantics.specs.Cases.{WorkedCases, WorkedFrames};

pub use linked::{NotLinked, RunError, run_linked};

// The table of worked cases holds of the definitions.
pub fn worked_cases()
    ensures cases { WorkedCases }
    ensures frames { WorkedFrames }
{}

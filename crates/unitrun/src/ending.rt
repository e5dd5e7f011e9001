// How a run ended, as the last line of what is printed says it.
ghost use Rattle.std.specs.Prelude.{◌≡◌};
ghost use Rattle.unitrun.specs.Endings.{put_of};

use machine::{NotRun, Ran};
use semantics::linked::RunError;
use std::fmt;

// The machine's run stood so, or more was put out than is printed. No Result, though it is of that shape: out full is an ending for who runs the
// program, and a refusal only for who calls the machine.
#[derive(Clone, Copy, PartialEq, Eq, Debug)]
pub enum Ending {
    Ran(Ran),
    OutFull,
}

// What an answer ends with; without a run, nothing is printed but why.
impl TryFrom<Result<Ran, RunError>> for Ending {
    type Error = RunError;

    ghost use Rattle.unitrun.specs.Endings.{ending_of};

    ghost try_from_gives = { λ answer result. result ≡ ending_of answer };

    fn try_from(answer: Result<Ran, RunError>) -> Result<Ending, RunError> {
        match answer {
            Ok(ran) => Ok(Ending::Ran(ran)),
            Err(RunError::Run(NotRun::OutFull)) => Ok(Ending::OutFull),
            Err(error) => Err(error),
        }
    }
}

impl Ending {
    // How many of the words that were put out are printed.
    pub fn put(self) -> usize
        ensures { result ≡ put_of self }
    {
        match self {
            Ending::Ran(ran) => ran.put,
            Ending::OutFull => 0,
        }
    }
}

// By hand: a derived text has no contract.
impl fmt::Display for Ending {
    ghost use Rattle.std.specs.Prelude.{Some};
    ghost use Rattle.unitrun.specs.Endings.{ending_text};

    ghost output = { λ ending. Some (ending_text ending) };

    fn fmt<W: fmt::Write>(&self, f: &mut fmt::Formatter<W>) -> fmt::Result {
        match self {
            Ending::Ran(ran) => write!(f, "{}", ran.status),
            Ending::OutFull => write!(f, "{}", NotRun::OutFull),
        }
    }
}

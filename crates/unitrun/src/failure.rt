// Why a run could not be made, in a line for the user.
ghost use Rattle.std.specs.Prelude.{◌≡◌};
ghost use Rattle.unitrun.specs.declared.failure.Failure.{Failure};

use crate::options::Flag;
use decimal::input::InputError;
use linker::NotLinked;
use semantics::linked::RunError;
use std::alloc::AllocError;
use std::io;
use thiserror::Error;

#[derive(Debug, Drop, Error)]
pub enum Failure {
    #[error("no file is given; --help says how")]
    Nothing,
    #[error("'{0}' is not an option; --help lists them")]
    Unknown(String),
    #[error("{flag} takes a decimal number below 4294967296, not '{text}'")]
    NoNumber { flag: Flag, text: String },
    #[error("{0} stands last and has no value")]
    NoValue(Flag),
    #[error("{name}: {error}")]
    BadFile { name: String, error: InputError },
    #[error("the tape: {0}")]
    BadTape(InputError),
    #[error("--code takes one file, and neither objects nor --image")]
    CodeAndMore,
    #[error("the file holds no image")]
    NoImage,
    #[error(transparent)]
    NotRun(RunError),
    #[error(transparent)]
    NoOutput(#[from] io::Error),
    #[error("out of memory")]
    NoMemory(#[from(alloc)] AllocError),
}

// By hand, as in unitc, since the derived conversions say nothing of the answer.
impl From<RunError> for Failure {
    ghost from_gives = { λ error failure. failure ≡ Failure.NotRun error };

    fn from(error: RunError) -> Failure {
        Failure::NotRun(error)
    }
}

impl From<NotLinked> for Failure {
    ghost use Rattle.semantics.specs.declared.linked.RunError.{RunError};

    ghost from_gives = { λ refusal failure. failure ≡ Failure.NotRun (RunError.Link refusal) };

    fn from(refusal: NotLinked) -> Failure {
        Failure::NotRun(RunError::Link(refusal))
    }
}

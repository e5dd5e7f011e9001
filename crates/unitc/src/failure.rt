// Why a unit could not be compiled, in a line for the user.
ghost use Rattle.std.specs.Prelude.{◌≡◌};

use decimal::input::InputError;
use rows::units::Refusal;
use std::alloc::AllocError;
use std::io;
use thiserror::Error;

#[derive(Debug, Drop, Error)]
pub enum Failure {
    #[error("'{0}' is not an option, and the unit is read from standard input; --help says how")]
    Unknown(String),
    #[error(transparent)]
    BadUnit(#[from] InputError),
    // that too few words are lent does not come about: they are as many as the unit asks for
    #[error(transparent)]
    Refused(Refusal),
    #[error(transparent)]
    NoOutput(#[from] io::Error),
    #[error("out of memory")]
    NoMemory(#[from] AllocError),
}

// By hand, since the derived conversions say nothing of the answer.
impl From<Refusal> for Failure {
    ghost use Rattle.unitc.specs.declared.failure.Failure.{Failure};

    ghost from_gives = { λ refusal failure. failure ≡ Failure.Refused refusal };

    fn from(refusal: Refusal) -> Failure {
        Failure::Refused(refusal)
    }
}

// The operations on words that units have, by their numbers in rows and in code.
ghost use Rattle.std.specs.Prelude.{◌≡◌};
ghost use Rattle.rows.specs.Operations.{number, apply};
ghost use Rattle.rows.specs.Signs.{op_of, OperationSays};

use std::error::Error;
use std::fmt;

// An operation on two words.
#[derive(Clone, Copy, PartialEq, Eq, Hash, Debug)]
pub enum Operation {
    Add,
    Sub,
    Mul,
    Div,
    Less,
    Same,
}

// A number that no operation has.
#[derive(Clone, Copy, PartialEq, Eq, Hash, Debug)]
pub struct UnknownOperation(pub u32);

impl TryFrom<u32> for Operation {
    type Error = UnknownOperation;

    ghost try_from_gives = { OperationSays };

    fn try_from(number: u32) -> Result<Operation, UnknownOperation> {
        match number {
            0 => Ok(Operation::Add),
            1 => Ok(Operation::Sub),
            2 => Ok(Operation::Mul),
            3 => Ok(Operation::Div),
            4 => Ok(Operation::Less),
            5 => Ok(Operation::Same),
            6..=u32::MAX => Err(UnknownOperation(number)),
        }
    }
}

impl From<Operation> for u32 {
    ghost from_gives = { λ operation n. n ≡ number (op_of operation) };

    fn from(operation: Operation) -> u32 {
        match operation {
            Operation::Add => 0,
            Operation::Sub => 1,
            Operation::Mul => 2,
            Operation::Div => 3,
            Operation::Less => 4,
            Operation::Same => 5,
        }
    }
}

impl Operation {
    // What the operation makes of two words.
    pub fn apply(self, x: u32, y: u32) -> u32
        ensures { result ≡ apply (op_of self) x y }
    {
        match self {
            Operation::Add => x.wrapping_add(y),
            Operation::Sub => x.wrapping_sub(y),
            Operation::Mul => x.wrapping_mul(y),
            Operation::Div => x.checked_div(y).unwrap_or(0),
            Operation::Less => u32::from(x < y),
            Operation::Same => u32::from(x == y),
        }
    }
}

// By hand: a derived text has no contract.
impl fmt::Display for UnknownOperation {
    ghost use Rattle.std.specs.Prelude.{Some};
    ghost use Rattle.rows.specs.Texts.{unknown_operation_text};

    ghost output = { λ unknown. Some (unknown_operation_text unknown) };

    fn fmt<W: fmt::Write>(&self, f: &mut fmt::Formatter<W>) -> fmt::Result {
        write!(f, "no operation has number {}", self.0)
    }
}

impl Error for UnknownOperation {}

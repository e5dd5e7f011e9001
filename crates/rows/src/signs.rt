// The signs of expressions, read off a row one at a time, and what they name.
ghost use Rattle.std.specs.Prelude.{◌≡◌, nat_lt};
ghost use Rattle.rows.specs.Signs.{target_of, part_count, SignSays};

use crate::operations::Operation;

// A callee's number in its unit: first the wants are counted, then the unit's own procedures.
#[derive(Clone, Copy, PartialEq, Eq, Hash, Debug)]
pub struct Callee(pub u32);

// A procedure's number among its unit's own.
#[derive(Clone, Copy, PartialEq, Eq, Hash, Debug)]
pub struct Procedure(pub u32);

// What a callee is: the want with that number, or a procedure of the unit itself.
#[derive(Clone, Copy, PartialEq, Eq, Hash, Debug)]
pub enum Target {
    Want(u32),
    Own(Procedure),
}

impl Procedure {
    // Whether the procedure is one of so many.
    pub fn is_below(self, count: u32) -> bool
        ensures { result ≡ nat_lt self.0 count }
    {
        self.0 < count
    }
}

impl Callee {
    // What the callee is in a unit with so many wants.
    pub fn target(self, wants: usize) -> Target
        ensures { result ≡ target_of wants self }
    {
        if (self.0 as usize) < wants {
            Target::Want(self.0)
        } else {
            Target::Own(Procedure(self.0 - wants as u32))
        }
    }
}

// What an expression is, with what stands before its parts in its row; a call says how many arguments it has.
#[derive(Clone, Copy, PartialEq, Eq, Hash, Debug)]
pub enum Sign {
    Number(u32),
    Argument(u32),
    Word(u32),
    Operation(Operation),
    If,
    Keep(u32),
    Then,
    Out,
    Next,
    Call(Callee, u32),
}

impl Sign {
    // The sign at the front of a row and how many words it takes; none where no sign stands there.
    pub fn read(row: &[u32]) -> Option<(Sign, usize)>
        ensures { SignSays row.now result }
    {
        match row {
            [0, n, ..] => Some((Sign::Number(*n), 2)),
            [1, i, ..] => Some((Sign::Argument(*i), 2)),
            [2, i, ..] => Some((Sign::Word(*i), 2)),
            [3, o, ..] => {
                let operation = Operation::try_from(*o).ok()?;
                Some((Sign::Operation(operation), 2))
            },
            [4, ..] => Some((Sign::If, 1)),
            [5, i, ..] => Some((Sign::Keep(*i), 2)),
            [6, ..] => Some((Sign::Then, 1)),
            [7, ..] => Some((Sign::Out, 1)),
            [8, ..] => Some((Sign::Next, 1)),
            [9, c, n, ..] => Some((Sign::Call(Callee(*c), *n), 3)),
            _ => None,
        }
    }

    // How many parts an expression with this sign has.
    pub fn parts(self) -> u32
        ensures { result ≡ part_count self }
    {
        match self {
            Sign::Number(_) | Sign::Argument(_) | Sign::Word(_) | Sign::Next => 0,
            Sign::Keep(_) | Sign::Out => 1,
            Sign::Operation(_) | Sign::Then => 2,
            Sign::If => 3,
            Sign::Call(_, n) => n,
        }
    }
}

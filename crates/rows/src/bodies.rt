// Bodies of procedures in a row: skipped by their signs, and checked against what they may name.
ghost use Rattle.std.specs.Prelude.{◌≡◌};
ghost use Rattle.rows.specs.Units.{Expr, arity};
ghost use Rattle.rows.specs.UnitRows.{row_expr, row_exprs};
ghost use Rattle.rows.specs.RowFronts.{FrontSays};
ghost use Rattle.rows.specs.Bodies.{outline, allowed, Any, Right, RightParts};

use crate::objects::Want;
use crate::signs::{Callee, Procedure, Sign, Target};

// How deep expressions stand in one another at most.
pub const MOST_DEPTH: u32 = 256;

// What a body may name: arguments of its procedure, words of its unit, and callees by how many arguments they take.
#[derive(Clone, Copy, PartialEq, Eq, Debug)]
pub struct Scope<'a> {
    pub args: u32,
    pub words: u32,
    // the unit's wants
    pub wants: &'a [[u32; 3]],
    // how many arguments each of the unit's own procedures takes
    pub arities: &'a [u32],
}

impl Scope<'_> {
    // How many arguments a callee takes, where it is there.
    pub fn arity(&self, callee: Callee) -> Option<u32>
        ensures { result ≡ arity (outline self.now) callee.0 }
    {
        match callee.target(self.wants.len()) {
            Target::Want(n) => self
                .wants
                .get(n as usize)
                .map(|words| Want::from(*words).args),
            Target::Own(Procedure(p)) => self.arities.get(p as usize).copied(),
        }
    }

    // Whether what a sign names is there, and a call has as many arguments as its callee takes.
    pub fn allows(&self, sign: Sign) -> bool
        ensures { result ≡ allowed (outline self.now) self.now.args sign }
    {
        match sign {
            Sign::Argument(i) => i < self.args,
            Sign::Word(i) | Sign::Keep(i) => i < self.words,
            Sign::Call(callee, count) => self.arity(callee) == Some(count),
            _ => true,
        }
    }

    // How many words an expression at the front of a row takes that names only what is there and is at most so deep; none where no such expression stands there.
    #[cycle(expression_expressions)]
    pub fn expression(&self, row: &[u32], depth: u32) -> Option<usize>
        ensures { FrontSays row_expr (Right (outline self.now) self.now.args depth) row.now result }
    {
        let inner = depth.checked_sub(1)?;
        let (sign, size) = Sign::read(row)?;
        if !self.allows(sign) {
            return None;
        }
        let parts = self.expressions(&row[size..], sign.parts(), inner)?;
        Some(size + parts)
    }

    // The same of so many expressions, one behind the other.
    #[cycle(expression_expressions)]
    pub fn expressions(&self, row: &[u32], count: u32, depth: u32) -> Option<usize>
        ensures { FrontSays row_exprs (RightParts (outline self.now) self.now.args depth count) row.now result }
    {
        if count == 0 {
            return Some(0);
        }
        let first = self.expression(row, depth)?;
        let rest = self.expressions(&row[first..], count - 1, depth)?;
        Some(first + rest)
    }

    // How many words a body at the front of a row takes that names only what is there and is not too deep; none where no such body stands there.
    pub fn body(&self, row: &[u32]) -> Option<usize>
        ensures { FrontSays row_expr (Right (outline self.now) self.now.args 256) row.now result }
    {
        self.expression(row, MOST_DEPTH)
    }
}

// How many words the expression at the front of a row takes, whatever it names and however deep it is; none where no expression stands there.
// The compiler measures bodies in the same way, by a table of signs, to be quicker in its one pass; here `Sign::read` alone says what signs there are.
pub fn skip(row: &[u32]) -> Option<usize>
    ensures { FrontSays row_expr Any row.now result }
{
    let mut left = row;
    // how many expressions are still to come, of a word or more each: one number, where a tree would need memory
    let mut pending: usize = 1;
    while pending > 0 {
        if pending > left.len() {
            return None;
        }
        let (sign, size) = Sign::read(left)?;
        left = &left[size..];
        pending = pending - 1 + sign.parts() as usize;
    }
    Some(row.len() - left.len())
}

// Decimal numbers below 2^32 in text, separated by white space.
#![tactic(auto)]

ghost use Rattle.std.specs.Prelude.{◌≡◌, None};
ghost use Rattle.std.specs.Result.{result_ok};
ghost use Rattle.decimal.specs.Feeding.{fed, longer, number_from};

use std::error::Error;
use std::fmt;

pub mod input;
pub mod output;

// A byte that makes no number below 2^32 of what stands before it.
#[derive(Clone, Copy, PartialEq, Eq, Hash, Debug)]
pub struct NotDecimal;

// By hand: a derived text has no contract.
impl fmt::Display for NotDecimal {
    ghost use Rattle.std.specs.Prelude.{Some, codes};

    ghost output = { λ _. Some (codes "not a decimal number below 4294967296") };

    fn fmt<W: fmt::Write>(&self, f: &mut fmt::Formatter<W>) -> fmt::Result {
        f.write_str("not a decimal number below 4294967296")
    }
}

impl Error for NotDecimal {}

// A reader that is fed a text byte by byte: the number under way, if there is one.
#[derive(Clone, Copy, PartialEq, Eq, Debug)]
pub struct Decimals {
    so_far: Option<u32>,
}

impl Decimals {
    pub fn new() -> Decimals
        ensures { result.so_far ≡ None }
    {
        Decimals { so_far: None }
    }

    // The number that a byte ends, or nothing yet; after a byte that is refused no number is under way.
    pub fn feed(&mut self, b: u8) -> Result<Option<u32>, NotDecimal>
        ensures { (self.new.so_far, result_ok result) ≡ fed self.old.so_far b }
    {
        match b {
            b' ' | b'\t' | b'\n' | b'\r' => Ok(self.end()),
            _ => {
                self.so_far = grow(self.so_far, b);
                self.so_far.ok_or(NotDecimal)?;
                Ok(None)
            }
        }
    }

    // The text's end, or white space: the number under way is whole.
    pub fn end(&mut self) -> Option<u32>
        ensures so_far { self.new.so_far ≡ None }
        ensures value { result ≡ self.old.so_far }
    {
        self.so_far.take()
    }
}

// A number with one digit more.
fn grow(so_far: Option<u32>, b: u8) -> Option<u32>
    ensures { result ≡ longer so_far b }
{
    match b {
        b'0'..=b'9' => so_far
            .unwrap_or(0)
            .checked_mul(10)?
            .checked_add(u32::from(b - b'0')),
        _ => None,
    }
}

// The number that a text is, if it is nothing but one.
pub fn parse(text: &str) -> Option<u32>
    ensures { result ≡ number_from None text.now }
{
    let mut so_far = None;
    for b in text.as_bytes() {
        so_far = Some(grow(so_far, *b)?);
    }
    so_far
}

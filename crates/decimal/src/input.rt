// Words from a file or from standard input.
ghost use Rattle.std.specs.Prelude.{◌≡◌, ◌≤◌, vec_len};
ghost use Rattle.std.specs.Result.{result_ok};
ghost use Rattle.decimal.specs.Reading.{KeepSays, TakeSays, Grown};

use crate::{Decimals, NotDecimal};
use std::alloc::AllocFailed;
use std::io;
use std::io::Read;
use thiserror::Error;

// Why words could not be read. A bad number is named by its line and by how many were read before it.
#[derive(Debug, Drop, Error)]
pub enum InputError {
    #[error("line {line}: number {} is not a decimal number below 4294967296", .before.saturating_add(1))]
    NoNumber { line: u64, before: usize },
    #[error("more than the {limit} numbers that there is room for")]
    TooLong { limit: usize },
    #[error(transparent)]
    Unread(#[from] io::Error),
    #[error("out of memory")]
    NoMemory,
}

impl From<AllocFailed<u32>> for InputError {
    ghost use Rattle.std.specs.Prelude.{◌≡◌};
    ghost use Rattle.decimal.specs.declared.input.InputError.TheVariants.{NoMemory};

    ghost from_gives = { λ _ e. e ≡ NoMemory };

    fn from(_word: AllocFailed<u32>) -> InputError {
        InputError::NoMemory
    }
}

// How many bytes are read at a time.
const CHUNK: usize = 4096;

// Reads what is left of a source behind the words that are there, of which there may be `limit` in all.
pub fn read_words<R: Read>(
    source: &mut R,
    words: &mut Vec<u32>,
    limit: usize,
) -> Result<(), InputError>
    ensures grown { Grown limit words.old.items words.new.items }
    ensures limit { vec_len words.old ≤ limit → vec_len words.new ≤ limit }
{
    let mut reader = Reader {
        decimals: Decimals::new(),
        line: 1,
        limit,
    };
    let mut chunk = [0u8; CHUNK];
    // A count, since a loop that waits on input has to end.
    for _ in 0..u64::MAX {
        let n = source.read(&mut chunk)?;
        if n == 0 {
            break;
        }
        reader.take(&chunk[..n], words)?;
    }
    let last = reader.decimals.end();
    reader.keep(Ok(last), words)
}

// Where a text stands: its numbers, and the line; and how many words there may be.
#[derive(Clone, Copy)]
struct Reader {
    decimals: Decimals,
    line: u64,
    limit: usize,
}

impl Reader {
    // The next part of the text.
    fn take(&mut self, text: &[u8], words: &mut Vec<u32>) -> Result<(), InputError>
        ensures says { TakeSays self.old.limit self.old.decimals.so_far text.now words.old.items self.new.decimals.so_far words.new.items result }
        ensures grown { Grown self.old.limit words.old.items words.new.items }
        ensures limit { self.new.limit ≡ self.old.limit }
    {
        for b in text {
            let fed = self.decimals.feed(*b);
            self.keep(fed, words)?;
            if *b == b'\n' {
                self.line = self.line.saturating_add(1);
            }
        }
        Ok(())
    }

    // Keeps a number, if one came; of a byte that makes none it says where it stands.
    fn keep(
        &self,
        fed: Result<Option<u32>, NotDecimal>,
        words: &mut Vec<u32>,
    ) -> Result<(), InputError>
        ensures says { KeepSays self.now.line self.now.limit (result_ok fed) words.old.items words.new.items result }
        ensures grown { Grown self.now.limit words.old.items words.new.items }
    {
        let number = match fed {
            Ok(Some(number)) => number,
            Ok(None) => return Ok(()),
            Err(NotDecimal) => {
                return Err(InputError::NoNumber {
                    line: self.line,
                    before: words.len(),
                });
            }
        };
        if words.len() >= self.limit {
            return Err(InputError::TooLong { limit: self.limit });
        }
        Ok(words.push(number)?)
    }
}

// Where the code of each procedure begins, before any is written: the size of an expression's code follows from its signs.
ghost use Rattle.std.specs.Prelude.{◌≡◌, ◌^◌, ◌<◌, ◌≤◌, length};
ghost use Rattle.compiler.specs.Measuring.{ExtentSays, SizeSays, PlaceSays};

use rows::operations::Operation;
use rows::units::MOST_ARGS;
use rows::words::word_at;

// The words of code of a procedure besides those of its body: three instructions before it and two behind.
const AROUND_BODY: usize = 10;

// How many words a sign takes, how many parts stand behind it, and how many words of code it adds to those of its parts.
#[derive(Clone, Copy, PartialEq, Eq, Debug)]
struct SignExtent {
    words: usize,
    parts: usize,
    code: usize,
}

// The numbers of the two signs of which the table doesn't tell all: an operation has to be known, and a call says its parts.
const OPERATION: usize = 3;

const CALL: usize = 9;

// By a sign's number. A table and no match, since the signs of a row come in no order that a processor could guess: with a match the
// compiler took 1.6 times the time of a plain one in one pass, and with tables 1.35 to 1.4.
const SIGNS: [SignExtent; 10] = [
    SignExtent {
        words: 2,
        parts: 0,
        code: 2,
    },
    SignExtent {
        words: 2,
        parts: 0,
        code: 2,
    },
    SignExtent {
        words: 2,
        parts: 0,
        code: 2,
    },
    SignExtent {
        words: 2,
        parts: 2,
        code: 2,
    },
    SignExtent {
        words: 1,
        parts: 3,
        code: 4,
    },
    SignExtent {
        words: 2,
        parts: 1,
        code: 2,
    },
    SignExtent {
        words: 1,
        parts: 2,
        code: 2,
    },
    SignExtent {
        words: 1,
        parts: 1,
        code: 2,
    },
    SignExtent {
        words: 1,
        parts: 0,
        code: 2,
    },
    SignExtent {
        words: 3,
        parts: 0,
        code: 2,
    },
];

// How many words of a row an expression takes, and how many words of code it has.
#[derive(Clone, Copy, PartialEq, Eq, Debug)]
struct BodyExtent {
    words: usize,
    code: usize,
}

// The extent of the sign at the front of a row; none where no sign stands there.
fn sign_extent(row: &[u32]) -> Option<SignExtent>
    ensures { ExtentSays row.now result }
{
    let number = word_at(row, 0) as usize;
    let mut sign = *SIGNS.get(number)?;
    if row.len() < sign.words {
        return None;
    }
    if number == OPERATION && Operation::try_from(word_at(row, 1)).is_err() {
        return None;
    }
    if number == CALL {
        sign.parts = word_at(row, 2) as usize;
    }
    Some(sign)
}

// The extent of the expression at the front of a row; none where no expression stands there. A twin of rows' `skip`, which goes by
// `Sign::read`: that is a match, which is slower here (see SIGNS), and it tells no code.
fn body_extent(row: &[u32]) -> Option<BodyExtent>
    requires { length row.now < 2 ^ 32 }
    ensures { SizeSays row.now result }
{
    let mut left = row;
    // how many expressions are still to come, of a word or more each, and the code of what has come
    let mut pending: usize = 1;
    let mut size = 0;
    while pending > 0 {
        if pending > left.len() {
            return None;
        }
        let sign = sign_extent(left)?;
        left = &left[sign.words..];
        pending = pending - 1 + sign.parts;
        size += sign.code;
    }
    Some(BodyExtent {
        words: row.len() - left.len(),
        code: size,
    })
}

// Writes how many arguments each procedure of a row takes and where its code begins in their unit's; none where the row does not say
// so many procedures with few enough arguments. A twin of rows' `read_arities`, which measures no code: with one for both, a reader of
// units would have to lend words for places that it doesn't need. An Option of nothing for the reason that `Writer::procedure` has.
pub fn place_procedures(procs: &[u32], arities: &mut [u32], starts: &mut [u32]) -> Option<()>
    requires short { length procs.now ≤ 65536 }
    requires each { length starts.old ≡ length arities.old }
    ensures { PlaceSays (length arities.old) procs.now arities.new starts.new result }
{
    let mut left = procs;
    let mut at = 0;
    // not over both at once: `zip` was tried, and of what a loop over it has written there was no proof
    for (number, arity) in arities.iter_mut().enumerate() {
        let [args, body @ ..] = left else {
            return None;
        };
        if *args > MOST_ARGS {
            return None;
        }
        let extent = body_extent(body)?;
        *arity = *args;
        starts[number] = at as u32;
        at += extent.code + AROUND_BODY;
        left = &body[extent.words..];
    }
    left.is_empty().then_some(())
}

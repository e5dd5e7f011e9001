// Words as decimal text.
use std::io;
use std::io::Write;

// Writes the words on one line, with single spaces between them.
pub fn write_line<W: Write>(to: &mut W, words: &[u32]) -> io::Result<()> {
    let mut words = words.iter();
    if let Some(first) = words.next() {
        write!(to, "{first}")?;
    }
    for word in words {
        write!(to, " {word}")?;
    }
    writeln!(to)
}

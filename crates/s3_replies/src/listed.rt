//! Replies that are read as a list, one a line.
ghost use Rattle.std.specs.Prelude.{◌≡◌, ◌≤◌, ◌++◌, ◌∷◌, [], length, take, IfOk, OnOk};
ghost use Rattle.s3_replies.specs.Inner.Listed.{GivesNext, ReadsByte, last_of};

use crate::typed::{Typed, read_typed};
use std::alloc::{AllocError, Global};
use std::io::Read;

/// The most bytes of a line that are kept. A longer line says nothing that an operator can say.
const LONGEST: usize = 80;

/// The most bytes of a line that are read.
const MOST: u64 = 4_194_304;

/// What a list of replies gives next.
#[derive(Clone, Copy)]
pub enum Listed {
    /// A line, and what it says.
    Line(Typed),
    /// Nothing: the list has ended.
    Ended,
    /// A read failed. A line that was read in part says nothing.
    Failed,
    /// The line has more than 4,194,304 bytes, of which so many were read.
    TooLong,
}

/// What one byte of a reader is.
#[derive(Clone, Copy)]
enum OneByte {
    Byte(u8),
    /// There is none.
    NoByte,
    /// The read failed.
    NotRead,
}

/// What the next line of a reader says, by its first 80 bytes. The last line may have no end. A line with more than 4,194,304 bytes isn't
/// read to its end.
pub fn next_listed<R: Read>(alloc: Global, reader: &mut R) -> Result<Listed, AllocError>
    ensures { IfOk result (λ next. GivesNext (R.remaining reader.old) (R.remaining reader.new) next) }
{
    let mut line = Vec::new(alloc);
    let mut is_begun = false;
    for _byte in 0..MOST + 1 {
        match one_byte(reader) {
            OneByte::Byte(b'\n') => return Ok(Listed::Line(read_typed(&line))),
            OneByte::Byte(byte) => {
                push_kept(&mut line, byte)?;
                is_begun = true;
            }
            OneByte::NoByte => return Ok(last_line(&line, is_begun)),
            OneByte::NotRead => return Ok(Listed::Failed),
        }
    }
    Ok(Listed::TooLong)
}

/// What is read at the end of the list, if a line was begun.
fn last_line(line: &[u8], is_begun: bool) -> Listed
    ensures { result ≡ last_of is_begun line.now }
{
    if is_begun {
        Listed::Line(read_typed(line))
    } else {
        Listed::Ended
    }
}

/// Appends a byte to a line, unless it has all that are kept.
fn push_kept(line: &mut Vec<u8>, byte: u8) -> Result<(), AllocError>
    ensures { OnOk result (length line.old.items ≤ 80 → line.new.items ≡ take 80 (line.old.items ++ byte ∷ [])) }
{
    if line.len() < LONGEST {
        line.push(byte)?;
    }
    Ok(())
}

/// The next byte of a reader.
fn one_byte<R: Read>(reader: &mut R) -> OneByte
    ensures { ReadsByte (R.remaining reader.old) (R.remaining reader.new) result }
{
    let mut byte = [0u8; 1];
    match reader.read(&mut byte) {
        Ok(0) => OneByte::NoByte,
        Ok(_) => OneByte::Byte(byte[0]),
        Err(_) => OneByte::NotRead,
    }
}

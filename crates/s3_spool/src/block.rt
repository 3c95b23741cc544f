//! A printed line in a spool block.
ghost use Rattle.std.specs.Prelude.{◌≡◌, ◌<◌, ◌≤◌, ◌+◌, ◌-◌, ◌++◌, [], ◌∷◌, length, take, drop, replicate};
ghost use Rattle.byteorder.specs.Endian.{big_bytes};
ghost use Rattle.s3_store.specs.Bytes.{part};
ghost use Rattle.s3_spool.specs.Inner.Queues.{block_bytes as block_bytes_spec, text_length as text_length_spec, line_of_block as line_of_block_spec};

use crate::composed_line::ComposedLine;
use byteorder::{BigEndian, ByteOrder};
use s3_cards::ebcdic::BLANK;
use s3_cards::{PRINT_POSITIONS, PrintLine};

/// Where the text of a line begins in its block.
const TEXT: usize = 4;

/// How many bytes the first of two parts has, in which a line of all positions is laid.
const FRONT: usize = 128;

/// Puts these bytes into a block, from a place on.
#[inline(always)]
fn put(bytes: &mut [u8; 256], place: usize, part: &[u8])
    requires { place + length part.now ≤ 256 }
    ensures { bytes.new ≡ (take place bytes.old ++ part.now) ++ drop (place + length part.now) bytes.old }
{
    bytes[place..place + part.len()].copy_from_slice(part);
}

/// Puts the text of a line into its block.
#[inline(always)]
fn put_text(block: &mut [u8; 256], text: &[u8])
    requires { length text.now ≤ 132 }
    ensures { block.new ≡ (take 4 block.old ++ text.now) ++ drop (4 + length text.now) block.old }
{
    if text.len() == PRINT_POSITIONS {
        let (front, rest) = text.split_at(FRONT);
        put(block, TEXT, front);
        put(block, TEXT + FRONT, rest);
    } else {
        put(block, TEXT, text);
    }
}

/// The bytes before the text of a line.
fn head_of(page: u16, line: u8, length: u8) -> [u8; 4]
    ensures { result ≡ big_bytes 2 page ++ line ∷ «length» ∷ [] }
{
    let mut bytes = [0, 0, line, length];
    BigEndian::write_u16(&mut bytes, page);
    bytes
}

/// Lays a line into a block of zeros.
#[tactic(auto, using(crate::proofs::BlockLemmas::block_put_together, crate::proofs::BlockLemmas::block_reads_back, crate::proofs::BlockLemmas::block_is_whole))]
#[inline(always)]
pub fn lay_line(block: &mut [u8; 256], line: &ComposedLine<'_>)
    requires { block.old ≡ replicate 256 0 }
    ensures value { block.new ≡ block_bytes_spec line.now }
    ensures reads { line_of_block_spec (block_bytes_spec line.now) ≡ line.now }
    ensures whole { length (block_bytes_spec line.now) ≡ 256 }
{
    let text = line.text();
    put(
        block,
        0,
        &head_of(line.page(), line.line(), text.len() as u8),
    );
    put_text(block, text);
}

/// A length that a block says; one that no line has counts as 132.
fn text_length(length: u8) -> usize
    ensures value { result ≡ text_length_spec length }
    ensures low { 1 ≤ result }
    ensures high { result ≤ 132 }
{
    match length {
        1..=132 => length as usize,
        _ => PRINT_POSITIONS,
    }
}

/// Makes the positions after a text blank.
fn blank_behind(width: usize, positions: &mut [u8])
    requires { width ≤ length positions.old }
    ensures { positions.new ≡ take width positions.old ++ replicate (length positions.old - width) BLANK }
{
    positions[width..].fill(BLANK);
}

/// The positions of a line whose text has this width, with blanks after it.
#[inline(always)]
fn positions_of(block: &[u8; 256], width: usize) -> [u8; PRINT_POSITIONS]
    requires { width ≤ 132 }
    ensures { result ≡ part block.now 4 width ++ replicate (132 - width) BLANK }
{
    let mut positions = [BLANK; PRINT_POSITIONS];
    positions.copy_from_slice(&block[TEXT..TEXT + PRINT_POSITIONS]);
    if width < PRINT_POSITIONS {
        blank_behind(width, &mut positions);
    }
    positions
}

/// The line that the bytes of a block say.
#[tactic(auto, using(crate::proofs::BlockLemmas::take_padded, crate::proofs::BlockLemmas::drop_padded))]
#[inline(always)]
pub fn line_of_block(bytes: &[u8; 256]) -> PrintLine
    ensures { result ≡ line_of_block_spec bytes.now }
{
    let width = text_length(bytes[3]);
    PrintLine::new(
        BigEndian::read_u16(&bytes[..2]),
        bytes[2],
        width as u8,
        positions_of(bytes, width),
    )
}

//! Texts are laid over others, short ones by their two ends.
ghost use Rattle.std.specs.Prelude.{◌≡◌, ◌≤◌, ◌+◌, ◌-◌, ◌*◌, List, ℕ, take, drop, length};
ghost use Rattle.std.specs.List.{copy_within};
ghost use Rattle.s3_operations.specs.Inner.Texts.{IsSize};

/// How long a text is, by the way in which it is laid over another one: by its two ends of so many characters, or whole.
#[derive(Clone, Copy)]
pub enum Size {
    /// It has one character.
    One,
    /// By ends of two.
    Two,
    /// By ends of four.
    Four,
    /// By ends of eight.
    Eight,
    /// By ends of sixteen.
    Sixteen,
    /// Whole.
    Any,
}

impl Size {
    /// The size of a text of so many characters.
    pub fn of(count: usize) -> Size
        ensures { IsSize result count }
    {
        match count {
            1 => Size::One,
            2..=3 => Size::Two,
            4..=7 => Size::Four,
            8..=16 => Size::Eight,
            17..=32 => Size::Sixteen,
            _ => Size::Any,
        }
    }
}

/// So many characters of a text, from a place on.
pub(crate) fn part<const N: usize>(text: &[u8], at: usize) -> [u8; N]
    requires { at + N ≤ length text.now }
    ensures { result ≡ take N (drop at text.now) }
{
    match <[u8; N]>::try_from(&text[at..at + N]) {
        Ok(part) => part,
        Err(_) => unreachable!(),
    }
}

/// Lays the first and the last characters of a text over another one as long, some of them maybe twice.
fn lay_ends<const N: usize>(target: &mut [u8], first: &[u8; N], last: &[u8; N])
    requires reaches { N ≤ length target.old }
    requires covers { length target.old ≤ 2 * N }
    ensures { (text : List ℕ) → length text ≡ length target.old → first.now ≡ take N text → last.now ≡ drop (length text - N) text → target.new ≡ text }
{
    match target.first_chunk_mut::<N>() {
        Some(start) => *start = *first,
        None => unreachable!(),
    }
    match target.last_chunk_mut::<N>() {
        Some(end) => *end = *last,
        None => unreachable!(),
    }
}

fn lay_by_ends<const N: usize>(target: &mut [u8], text: &[u8])
    requires same { length target.old ≡ length text.now }
    requires reaches { N ≤ length text.now }
    requires covers { length text.now ≤ 2 * N }
    ensures { target.new ≡ text.now }
{
    let first = part::<N>(text, 0);
    let last = part::<N>(text, text.len() - N);
    lay_ends(target, &first, &last);
}

/// Lays a text of any length over another one as long.
#[inline(never)]
fn lay_whole(target: &mut [u8], text: &[u8])
    requires { length target.old ≡ length text.now }
    ensures { target.new ≡ text.now }
{
    target.copy_from_slice(text);
}

/// Lays a text over another one as long: one of up to 32 bytes by its two ends, which may lie over each other.
pub fn lay(target: &mut [u8], text: &[u8])
    requires { length target.old ≡ length text.now }
    ensures { target.new ≡ text.now }
{
    let count = text.len();
    if count > 7 {
        if count <= 16 {
            lay_by_ends::<8>(target, text);
        } else if count <= 32 {
            lay_by_ends::<16>(target, text);
        } else {
            lay_whole(target, text);
        }
    } else if count == 1 {
        lay_by_ends::<1>(target, text);
    } else if count > 3 {
        lay_by_ends::<4>(target, text);
    } else if count > 1 {
        lay_by_ends::<2>(target, text);
    } else {
        lay_by_ends::<0>(target, text);
    }
}

fn lay_within_by_ends<const N: usize>(
    bytes: &mut [u8],
    from: usize,
    end: usize,
    to: usize,
    till: usize,
)
    requires source { from ≤ end }
    requires source_within { end ≤ length bytes.old }
    requires target { till ≡ to + (end - from) }
    requires target_within { till ≤ length bytes.old }
    requires reaches { N ≤ end - from }
    requires covers { end - from ≤ 2 * N }
    ensures { bytes.new ≡ copy_within bytes.old from end to }
{
    let first = part::<N>(bytes, from);
    let last = part::<N>(bytes, end - N);
    lay_ends(&mut bytes[to..till], &first, &last);
}

/// Lays bytes over others of the same text, which may have some of theirs.
pub fn lay_within(bytes: &mut [u8], from: usize, end: usize, to: usize, till: usize, size: Size)
    requires source { from ≤ end }
    requires source_within { end ≤ length bytes.old }
    requires target { till ≡ to + (end - from) }
    requires target_within { till ≤ length bytes.old }
    requires size { IsSize size (end - from) }
    ensures { bytes.new ≡ copy_within bytes.old from end to }
{
    match size {
        Size::One => lay_within_by_ends::<1>(bytes, from, end, to, till),
        Size::Two => lay_within_by_ends::<2>(bytes, from, end, to, till),
        Size::Four => lay_within_by_ends::<4>(bytes, from, end, to, till),
        Size::Eight => lay_within_by_ends::<8>(bytes, from, end, to, till),
        Size::Sixteen => lay_within_by_ends::<16>(bytes, from, end, to, till),
        Size::Any => bytes.copy_within(from..end, to),
    }
}

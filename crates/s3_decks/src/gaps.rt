//! The cards that a deck is left without, looked at from the first card to the last.
ghost use Rattle.std.specs.Prelude.{◌≡◌, ◌≤◌, ◌+◌, ℕ, true};
ghost use Rattle.s3_decks.specs.Inner.Decks.{is_left_out as is_left_out_spec};
ghost use Rattle.s3_decks.specs.Inner.Gaps.{AreAhead, begin_in_order as begin_in_order_spec};

use crate::deck_text::CardRange;

/// The ranges of cards that are left out, as far as they are still ahead. If they begin in ascending order, each card looks at one of
/// them.
#[derive(Clone, Copy)]
pub(crate) struct Gaps<'a> {
    /// All ranges but those that have ended.
    ranges: &'a [CardRange],
    /// Whether they begin in ascending order.
    is_ordered: bool,
}

impl<'a> Gaps<'a> {
    ghost use Rattle.std.specs.Prelude.{◌≡◌, ◌+◌, List};
    ghost use Rattle.s3_decks.specs.declared.deck_text.CardRange.{CardRange};
    ghost use Rattle.s3_decks.specs.Inner.Gaps.{AreAhead};

    /// Ranges, before the first card.
    #[tactic(auto, using(crate::proofs::Ahead::all_ahead))]
    pub(crate) fn of(ranges: &'a [CardRange]) -> Gaps<'a>
        ensures { AreAhead ranges.now 0 result }
    {
        Gaps {
            ranges,
            is_ordered: begin_in_order(ranges),
        }
    }

    /// Whether the card at a place is left out. The places are asked for in ascending order.
    #[tactic(auto, using(crate::proofs::Ahead::taken))]
    pub(crate) fn take(&mut self, place: usize) -> bool
        ensures { (all : List CardRange) → AreAhead all place self.old → (result ≡ is_left_out_spec all place) × AreAhead all (place + 1) self.new }
    {
        self.ranges = not_ended(self.ranges, place);
        is_left_out(self.ranges, self.is_ordered, place)
    }
}

/// Whether ranges begin in ascending order.
#[tactic(auto, using(crate::proofs::Ahead::order_more, crate::proofs::Ahead::order_broken, crate::proofs::Ahead::order_whole))]
fn begin_in_order(ranges: &[CardRange]) -> bool
    ensures { result ≡ begin_in_order_spec 0 ranges.now }
{
    let mut from = 0;
    for (_place, range) in ranges.iter().enumerate() {
        if range.from < from {
            return false;
        }
        from = range.from;
    }
    true
}

/// Ranges without those at their front that end at a place or before it.
#[tactic(auto, using(crate::proofs::Ahead::one_ended, crate::proofs::Ahead::order_after))]
fn not_ended(ranges: &[CardRange], place: usize) -> &[CardRange]
    ensures same { (p : ℕ) → place ≤ p → is_left_out_spec result.now p ≡ is_left_out_spec ranges.now p }
    ensures order { begin_in_order_spec 0 ranges.now ≡ true → begin_in_order_spec 0 result.now ≡ true }
{
    let mut rest = ranges;
    while let Some((first, more)) = rest.split_first() {
        if place < first.to {
            break;
        }
        rest = more;
    }
    rest
}

/// Whether a place is in one of these ranges. If they begin in ascending order, a place before the first one is in none.
#[tactic(auto, using(crate::proofs::Ahead::none_yet))]
fn is_left_out(ranges: &[CardRange], is_ordered: bool, place: usize) -> bool
    ensures { (is_ordered ≡ true → begin_in_order_spec 0 ranges.now ≡ true) → result ≡ is_left_out_spec ranges.now place }
{
    match ranges.split_first() {
        Some((first, _more)) if is_ordered && place < first.from => false,
        _ => has_place(ranges, place),
    }
}

/// Whether a place is in one of these ranges.
fn has_place(ranges: &[CardRange], place: usize) -> bool
    ensures { result ≡ is_left_out_spec ranges.now place }
{
    ranges
        .iter()
        .any(|range| range.from <= place && place < range.to)
}

//! The deck that a text becomes.
ghost use Rattle.std.specs.Prelude.{false, ◌≡◌, ◌==◌, ◌+◌, ◌≤◌, ◌∷◌, ◌++◌, [], IfOk, OnOk, length, map};
ghost use Rattle.std.specs.List.{fold};
ghost use Rattle.std.specs.Str.Lines.{lines};
ghost use Rattle.s3_punch.specs.Inner.Parts.{part_behind};
ghost use Rattle.s3_punch.specs.Inner.Decks.{IsDeck, IsPunched, cards_of, deck_text, faults_of, is_open as is_open_spec, part_from, without_end as without_end_spec};
ghost use Rattle.s3_punch.specs.Inner.Faults.{card_faults, fault_if};
ghost use Rattle.s3_punch.specs.Inner.Steps.{AddsCard, AddsLine, HasCards, KeepsCards};

use crate::change::{Changes, LineChange, changes_of};
use crate::fault::{PunchFault, PunchReason};
use crate::finding::{note_faults, note_surplus};
use crate::form::{LineForm, form_of};
use crate::line::{card_of, characters_of};
use crate::part::Part;
use s3_cards::first_line;
use std::alloc::{AllocError, Global};

/// The most cards of a deck.
const MAX_CARDS: usize = 9_999;

/// How the punching of a text begins.
#[derive(Clone, Copy)]
pub struct Begun {
    /// The part of the deck that its first line is in.
    pub part: Part,
    /// How many cards are before it, at most 9,999.
    pub cards: usize,
    /// Whether the remarks of C cards are blanked.
    pub blanks_remarks: bool,
}

impl Begun {
    /// At the beginning of a deck, with the remarks of C cards blanked or not.
    pub fn new(blanks_remarks: bool) -> Begun
        ensures { result ≡ record { part = Part.Statements; cards = 0; blanks_remarks = blanks_remarks } }
    {
        Begun {
            part: Part::Statements,
            cards: 0,
            blanks_remarks,
        }
    }

    /// How a text begins after a deck's text that isn't punched.
    pub fn behind_deck(self, text: &[u8]) -> Begun
        requires { self.cards ≤ 9999 }
        ensures few { result.cards ≤ 9999 }
        ensures part { result.part ≡ fold part_behind self.part (lines text.now) }
        ensures same { result.blanks_remarks ≡ self.blanks_remarks }
    {
        let mut part = self.part;
        let mut cards = self.cards;
        let mut rest = text;
        while let Some((line, after)) = first_line(rest) {
            part = part.behind(line);
            cards = (cards + 1).min(MAX_CARDS);
            rest = after;
        }
        Begun {
            part,
            cards,
            blanks_remarks: self.blanks_remarks,
        }
    }
}

/// A text that is punched.
#[derive(Drop)]
pub struct Punched {
    /// The deck's text, a line for each card.
    pub text: Vec<u8>,
    /// The number of the line that each card is of, from 1.
    pub origins: Vec<usize>,
    /// What was done to each line that was changed or left out.
    pub changes: Vec<LineChange>,
    /// All faults of the text, by lines. If there are any, the deck must not be used.
    pub faults: Vec<PunchFault>,
    /// The part of the deck after the text.
    pub part: Part,
}

impl Punched {
    /// Nothing yet.
    fn new(alloc: Global, part: Part) -> Punched
        ensures text { result.text.items ≡ [] }
        ensures origins { result.origins.items ≡ [] }
        ensures faults { result.faults.items ≡ [] }
        ensures part { result.part ≡ part }
    {
        Punched {
            text: Vec::new(alloc),
            origins: Vec::new(alloc),
            changes: Vec::new(alloc),
            faults: Vec::new(alloc),
            part,
        }
    }

    /// How a text begins that continues this one.
    pub fn behind(&self, begun: Begun) -> Begun
        ensures { result.cards ≤ 9999 }
    {
        Begun {
            part: self.part,
            cards: begun
                .cards
                .saturating_add(self.origins.len())
                .min(MAX_CARDS),
            blanks_remarks: begun.blanks_remarks,
        }
    }

    /// Appends a card.
    fn add_card(&mut self, line: usize, card: &[u8]) -> Result<(), AllocError>
        ensures { OnOk result (AddsCard line card.now self.old self.new) }
    {
        self.text.extend_from_slice(card)?;
        self.text.push(b'\n')?;
        self.origins.push(line)?;
        self.part = self.part.behind(card);
        Ok(())
    }

    /// Notes what is done to a line.
    fn note_changes(&mut self, line: usize, changes: Changes) -> Result<(), AllocError>
        ensures { OnOk result (KeepsCards self.old self.new) }
    {
        if changes.are_any() {
            self.changes.push(LineChange { line, changes })?;
        }
        Ok(())
    }

    /// How many cards there are.
    fn card_count(&self) -> usize
        ensures { result ≡ length self.now.origins.items }
    {
        self.origins.len()
    }

    /// Appends the card of a line, and reports what is wrong with it; so many cards are before the text.
    fn add_written(
        &mut self,
        alloc: Global,
        cards_in_front: usize,
        line: usize,
        characters: &[char],
        form: LineForm,
        card: &[u8],
    ) -> Result<(), AllocError>
        requires { cards_in_front ≤ 9999 }
        ensures text { OnOk result (self.new.text.items ≡ self.old.text.items ++ card.now ++ 10 ∷ []) }
        ensures origins { OnOk result (self.new.origins.items ≡ self.old.origins.items ++ line ∷ []) }
        ensures faults { OnOk result (self.new.faults.items ≡ (self.old.faults.items ++ card_faults line characters.now card.now form) ++ fault_if (cards_in_front + length self.old.origins.items == 9999) line 1 PunchReason.TooManyCards) }
        ensures part { OnOk result (self.new.part ≡ part_behind self.old.part card.now) }
    {
        note_faults(alloc, &mut self.faults, line, characters, card, form)?;
        let cards = cards_in_front + self.card_count();
        note_surplus(&mut self.faults, cards, line)?;
        self.add_card(line, card)?;
        Ok(())
    }

    /// Appends the card of a line, if it has one, and reports what is wrong with it.
    #[tactic(auto, unfolding(crate::specs::Inner::Cards::card_of_line, crate::specs::Inner::Faults::faults_of_line))]
    fn add_line(
        &mut self,
        alloc: Global,
        begun: &Begun,
        line: usize,
        bytes: &[u8],
        has_return: bool,
    ) -> Result<(), AllocError>
        requires { begun.now.cards ≤ 9999 }
        ensures { OnOk result (AddsLine begun.now line bytes.now self.old self.new) }
    {
        let characters = characters_of(alloc, bytes)?;
        let Some(form) = form_of(self.part.is_data(), &characters) else {
            return self.note_changes(line, Changes::left_out(has_return));
        };
        let is_source = self.part.is_source();
        let card = card_of(alloc, begun.blanks_remarks, is_source, form, &characters)?;
        self.note_changes(
            line,
            changes_of(form, &characters, card.has_remark, has_return),
        )?;
        self.add_written(alloc, begun.cards, line, &characters, form, &card.bytes)?;
        Ok(())
    }
}

/// Whether the last line of a text has no end.
fn is_open(text: &[u8]) -> bool
    ensures { result ≡ is_open_spec text.now }
{
    !text.is_empty() && text[text.len() - 1] != b'\n'
}

/// Takes the end of a text's last line away, unless that line is empty.
fn drop_end(text: &mut Vec<u8>)
    ensures { text.new.items ≡ without_end_spec text.old.items }
{
    let length = text.len();
    if length > 1 && text[length - 2] != b'\n' {
        text.truncate(length - 1);
    }
}

/// Whether a line before others ended with a carriage return and a line feed.
fn had_return(rest: &[u8], line: &[u8], after: &[u8]) -> bool {
    rest.len().saturating_sub(after.len()) > line.len().saturating_add(1)
}

/// Punches the lines of a text, each with its end.
#[tactic(auto, using(crate::proofs::StepLemmas::nothing_read, crate::proofs::StepLemmas::one_line_at, crate::proofs::StepLemmas::all_read))]
fn punch_lines(alloc: Global, text: &[u8], begun: &Begun) -> Result<(Punched, usize), AllocError>
    requires { begun.now.cards ≤ 9999 }
    ensures { IfOk result (λ read. HasCards begun.now text.now read.0 read.1) }
{
    let mut punched = Punched::new(alloc, begun.part);
    let mut rest = text;
    let mut line = 0;
    while let Some((bytes, after)) = first_line(rest) {
        let has_return = had_return(rest, bytes, after);
        punched.add_line(alloc, begun, line + 1, bytes, has_return)?;
        line += 1;
        rest = after;
    }
    Ok((punched, line))
}

/// Punches a text into the deck that its definition says.
fn punch_text(alloc: Global, text: &[u8], begun: &Begun) -> Result<Punched, AllocError>
    requires { begun.now.cards ≤ 9999 }
    ensures text { IfOk result (λ punched. punched.text.items ≡ deck_text begun.now text.now) }
    ensures origins { IfOk result (λ punched. punched.origins.items ≡ map (λ card. card.0) (cards_of begun.now text.now)) }
    ensures faults { IfOk result (λ punched. punched.faults.items ≡ faults_of begun.now text.now) }
    ensures part { IfOk result (λ punched. punched.part ≡ part_from begun.now.blanks_remarks begun.now.part (lines text.now)) }
{
    let (mut punched, line_count) = punch_lines(alloc, text, begun)?;
    if is_open(text) && punched.origins.contains(&line_count) {
        drop_end(&mut punched.text);
    }
    Ok(punched)
}

/// Punches a text. Lines end with a line feed, and one carriage return before it is dropped.
///
/// Nothing is refused: all faults are listed, and if there are none, the resulting text is a deck. A text that is a
/// deck already, without carriage returns, without blank lines outside of data, and without lines there that begin with `#` or
/// `%`, comes out as it was.
pub fn punch(alloc: Global, text: &[u8], begun: &Begun) -> Result<Punched, AllocError>
    requires { begun.now.cards ≤ 9999 }
    ensures text { IfOk result (λ punched. punched.text.items ≡ deck_text begun.now text.now) }
    ensures origins { IfOk result (λ punched. punched.origins.items ≡ map (λ card. card.0) (cards_of begun.now text.now)) }
    ensures faults { IfOk result (λ punched. punched.faults.items ≡ faults_of begun.now text.now) }
    ensures part { IfOk result (λ punched. punched.part ≡ part_from begun.now.blanks_remarks begun.now.part (lines text.now)) }
    ensures sound { IfOk result (λ punched. punched.faults.items ≡ [] → IsDeck punched.text.items) }
    ensures same { IfOk result (λ punched. begun.now.blanks_remarks ≡ false → IsPunched begun.now.part text.now → punched.text.items ≡ text.now) }
{
    let punched = punch_text(alloc, text, begun)?;
    Ok(punched)
}

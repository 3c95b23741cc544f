//! Why the statements of a job are faulty.

use crate::parameters::{
    DateFault, Keyword, PlaceFault, date_fault, file_parameter, is_right, place_fault,
};
use crate::statement_text::{CardText, Part};
use s3_cards::Deck;
use s3_ocl::{FaultyJob, JobFault};
use std::alloc::{AllocError, Global};

/// Where a fault is.
#[derive(Drop)]
struct Place {
    /// The number of the job's first card.
    first: usize,
    /// The number of the card in error.
    number: usize,
    /// What that card has.
    card: CardText,
    /// Its part in its statement.
    part: Part,
    /// What the statement does, if its keyword is known.
    keyword: Option<Keyword>,
    /// How many parameters the statement has on the cards before.
    before: usize,
}

/// The parameters of a whole statement, with its commas.
#[derive(Drop)]
struct Parameters {
    text: String,
    /// The number of the statement's last card.
    last: usize,
}

/// Why the statements of a job are faulty, on the card that the fault names; empty if there is no more to say than the fault. The
/// job's first card has this number, from 1. Refused only if memory runs out.
pub fn statement_reason(
    alloc: Global,
    deck: &Deck,
    first: usize,
    faulty: &FaultyJob,
) -> Result<String, AllocError> {
    let mut text = String::new(alloc);
    if let Some(place) = place_of(alloc, deck, first, usize::from(faulty.card))? {
        place.push(&mut text, alloc, deck, faulty)?;
    }
    Ok(text)
}

/// The text of the card of a number, from 1.
fn card_text(alloc: Global, deck: &Deck, number: usize) -> Result<Option<CardText>, AllocError> {
    match deck.card(number.saturating_sub(1)) {
        Some(card) => Ok(Some(CardText::of(alloc, card)?)),
        None => Ok(None),
    }
}

/// The place of a fault on a card of the job that begins at another; none if the deck has no such card.
fn place_of(
    alloc: Global,
    deck: &Deck,
    first: usize,
    number: usize,
) -> Result<Option<Place>, AllocError> {
    let Some(card) = card_text(alloc, deck, first)? else {
        return Ok(None);
    };
    let mut place = Place {
        first,
        number: first,
        keyword: Keyword::of(card.word(0)),
        card,
        part: Part::Beginning,
        before: 0,
    };
    for next in first.saturating_add(1)..number.saturating_add(1) {
        let Some(card) = card_text(alloc, deck, next)? else {
            return Ok(None);
        };
        place = place.behind(next, card);
    }
    Ok(Some(place))
}

impl Place {
    /// The place one card further.
    fn behind(self, number: usize, card: CardText) -> Place {
        let part = self.part.next(&self.card, &card);
        let (keyword, before) = match part {
            Part::Beginning => (Keyword::of(card.word(0)), 0),
            Part::Continuation => (self.keyword, self.parameters_behind()),
        };
        Place {
            first: self.first,
            number,
            card,
            part,
            keyword,
            before,
        }
    }

    /// How many parameters the statement has up to this card and on it.
    fn parameters_behind(&self) -> usize {
        self.before
            .saturating_add(commas_closed(self.parameters()).split(',').count())
    }

    /// The parameters of the card.
    fn parameters(&self) -> &str {
        self.card.word(self.part.place())
    }

    fn push(
        &self,
        text: &mut String,
        alloc: Global,
        deck: &Deck,
        faulty: &FaultyJob,
    ) -> Result<(), AllocError> {
        match faulty.fault {
            JobFault::NotOcl => self.push_no_statement(text),
            JobFault::Keyword => self.push_unknown(text),
            JobFault::Value => self.push_value(text, alloc, deck),
            JobFault::NoRun => self.push_no_run(text),
            JobFault::Twice => self.push_twice(text),
        }
    }

    /// Appends why a card is no statement.
    fn push_no_statement(&self, text: &mut String) -> Result<(), AllocError> {
        if self.card.begins("//") {
            return text.push_str("// needs a blank after it");
        }
        if self.card.is_blank() {
            text.push_str("a blank card; ")?;
        }
        if self.number == self.first {
            text.push_str("a job begins with // LOAD")
        } else {
            text.push_str("no // RUN was found before this card")
        }
    }

    /// Appends which statement or parameter isn't known.
    fn push_unknown(&self, text: &mut String) -> Result<(), AllocError> {
        let word = self.card.word(0);
        match (self.part, self.keyword) {
            (Part::Continuation, _) if Keyword::of(word).is_some() => self.push_open(text, word),
            (_, Some(keyword)) => self.push_unknown_parameter(text, keyword),
            (_, None) if word.is_empty() => text.push_str(
                "a statement is one of // LOAD, // FILE, // DATE, // SWITCH and // RUN",
            ),
            (_, None) => write!(text, "{word} isn't LOAD, FILE, DATE, SWITCH or RUN"),
        }
    }

    /// Appends that a card of its own is read as a parameter.
    fn push_open(&self, text: &mut String, word: &str) -> Result<(), AllocError> {
        let before = self.number.saturating_sub(1);
        write!(
            text,
            "a parameter is missing after the comma of card {before}, so {word} is read in its place"
        )
    }

    /// Appends the first parameter that the statement doesn't know.
    fn push_unknown_parameter(
        &self,
        text: &mut String,
        keyword: Keyword,
    ) -> Result<(), AllocError> {
        for piece in self.parameters().split(',') {
            if !piece.is_empty() && value_of(piece).is_none() {
                let word = keyword.word();
                return write!(
                    text,
                    "{piece} isn't a parameter of {word}: NAME-, UNIT-, PACK-, LABEL-, RECORDS-, TRACKS- or RETAIN-"
                );
            }
        }
        Ok(())
    }

    /// Appends which value is wrong, missing or surplus.
    fn push_value(&self, text: &mut String, alloc: Global, deck: &Deck) -> Result<(), AllocError> {
        let word = self.card.word(0);
        if self.part == Part::Continuation && Keyword::of(word).is_some() {
            return self.push_open(text, word);
        }
        let Some(keyword) = self.keyword else {
            return Ok(());
        };
        self.push_wrong(text, keyword)?;
        if text.is_empty() && self.part == Part::Beginning {
            return self.whole(alloc, deck)?.push_missing(text, keyword);
        }
        Ok(())
    }

    /// Appends what is wrong with the first parameter of the card that is wrong or surplus; nothing if none is.
    fn push_wrong(&self, text: &mut String, keyword: Keyword) -> Result<(), AllocError> {
        if keyword == Keyword::File {
            return push_wrong_in_file(text, self.parameters());
        }
        let pieces = commas_closed(self.parameters()).split(',');
        for (place, piece) in pieces.enumerate() {
            let place = place.saturating_add(self.before);
            if !piece.is_empty()
                && let Some(fault) = place_fault(keyword, place, piece)
            {
                return push_place_fault(text, keyword, piece, fault);
            }
        }
        Ok(())
    }

    /// The parameters of the statement that begins on this card.
    fn whole(&self, alloc: Global, deck: &Deck) -> Result<Parameters, AllocError> {
        let mut whole = Parameters {
            text: String::from_str(alloc, self.parameters())?,
            last: self.number,
        };
        for number in self.number.saturating_add(1)..deck.len().saturating_add(1) {
            match card_text(alloc, deck, number)? {
                Some(card) if whole.is_open() && !card.word(0).is_empty() => {
                    whole.text.push_str(card.word(0))?;
                    whole.last = number;
                }
                _ => break,
            }
        }
        Ok(whole)
    }

    /// Appends what is missing before the card.
    fn push_no_run(&self, text: &mut String) -> Result<(), AllocError> {
        if self.keyword == Some(Keyword::Run) {
            text.push_str("no // LOAD was found before this card")
        } else if self.card.begins("/*") || self.card.begins("/&") {
            text.push_str("no // RUN was found before this card")
        } else {
            text.push_str("the deck ends here, and no // RUN was found")
        }
    }

    /// Appends what is given twice.
    fn push_twice(&self, text: &mut String) -> Result<(), AllocError> {
        match self.keyword {
            Some(Keyword::File) | None => text.push_str(
                "a parameter twice in this statement, or the NAME of another FILE statement",
            ),
            Some(keyword) => {
                let word = keyword.word();
                write!(
                    text,
                    "the job has a // {word} before this card; the /& of the job before may be missing"
                )
            }
        }
    }
}

/// A card's parameters without the comma at their end, if they have one.
fn commas_closed(parameters: &str) -> &str {
    parameters.strip_suffix(",").unwrap_or(parameters)
}

impl Parameters {
    /// Whether nothing is after the last comma.
    fn is_open(&self) -> bool {
        self.text.as_str().ends_with(",")
    }

    /// Appends what the statement lacks.
    fn push_missing(&self, text: &mut String, keyword: Keyword) -> Result<(), AllocError> {
        let parameters = self.text.as_str();
        let (word, takes, last) = (keyword.word(), keyword.takes(), self.last);
        let has_gap = commas_closed(parameters)
            .split(',')
            .any(|piece| piece.is_empty());
        if !parameters.is_empty() && has_gap {
            return write!(
                text,
                "a parameter is missing before one of the commas; {word} takes {takes}"
            );
        }
        if self.is_open() {
            return write!(
                text,
                "a parameter is missing after the comma of card {last}"
            );
        }
        match keyword {
            Keyword::File => push_missing_in_file(text, parameters),
            Keyword::Load if !parameters.is_empty() => {
                write!(
                    text,
                    "the unit is missing after {parameters}; LOAD takes {takes}"
                )
            }
            _ => write!(text, "{word} takes {takes}"),
        }
    }
}

/// Appends what is wrong with a parameter that is known by its place.
fn push_place_fault(
    text: &mut String,
    keyword: Keyword,
    piece: &str,
    fault: PlaceFault,
) -> Result<(), AllocError> {
    let (word, takes) = (keyword.word(), keyword.takes());
    match fault {
        PlaceFault::Program => write!(
            text,
            "{piece} is no program's name, which has 1 to 6 letters, digits, $, # and @, and begins with no digit"
        ),
        PlaceFault::Unit => write!(text, "{piece} is no unit; the unit is R1, R2, F1 or F2"),
        PlaceFault::Date => push_date(text, piece),
        PlaceFault::Switches => write!(text, "{word} takes {takes}"),
        PlaceFault::Surplus if keyword == Keyword::Run => write!(text, "{word} takes {takes}"),
        PlaceFault::Surplus => write!(
            text,
            "{piece} is one parameter too many; {word} takes {takes}"
        ),
    }
}

/// What a parameter of FILE takes, given the parameter with its value; nothing for one that FILE doesn't have.
fn value_of(piece: &str) -> Option<&'static str> {
    match piece.split_once('-') {
        Some((name, _value)) => file_parameter(name),
        None => None,
    }
}

/// Appends why a date is none.
fn push_date(text: &mut String, parameters: &str) -> Result<(), AllocError> {
    match date_fault(parameters.as_bytes()) {
        DateFault::Month(month) => write!(
            text,
            "month {month:02}; a date is MMDDYY or MM/DD/YY, the month first"
        ),
        DateFault::Day(day) => write!(text, "day {day:02}; a date is MMDDYY or MM/DD/YY"),
        DateFault::EightDigits => text.push_str(
            "eight digits; MMDDYY has six, two of them for the year",
        ),
        DateFault::Form => {
            let takes = Keyword::Date.takes();
            write!(text, "DATE takes {takes}")
        }
    }
}

/// Appends what the first wrong parameter of FILE on a card takes; nothing if none is wrong.
fn push_wrong_in_file(text: &mut String, parameters: &str) -> Result<(), AllocError> {
    for piece in parameters.split(',') {
        if let Some((name, value)) = piece.split_once('-')
            && let Some(takes) = file_parameter(name)
            && !value.is_empty()
            && !is_right(name, value)
        {
            return write!(text, "{piece}; {name}- takes {takes}");
        }
    }
    Ok(())
}

/// Appends which parameter of a FILE statement has no value, or what else its parameters lack.
fn push_missing_in_file(text: &mut String, parameters: &str) -> Result<(), AllocError> {
    for piece in parameters.split(',') {
        if let Some((name, value)) = piece.split_once('-')
            && let Some(takes) = file_parameter(name)
            && value.is_empty()
        {
            return write!(text, "{piece} has no value; {name}- takes {takes}");
        }
    }
    if has_parameter(parameters, "RECORDS") && has_parameter(parameters, "TRACKS") {
        text.push_str("RECORDS- and TRACKS- don't go together; give one of them")
    } else {
        text.push_str("FILE needs NAME-, as in // FILE NAME-STOCK")
    }
}

/// Whether one of the parameters of a statement has a name.
fn has_parameter(parameters: &str, name: &str) -> bool {
    parameters.split(',').any(|piece| match piece.split_once('-') {
        Some((given, _value)) => given == name,
        None => false,
    })
}

//! Which halt a reply of a log answers when its day is done again.
ghost use Rattle.std.specs.Prelude.{◌≡◌, Some};
ghost use Rattle.s3_day_log.specs.Inner.Answering.{answer_in, answers as answers_spec, fits as fits_spec, is_same_card as is_same_card_spec, is_where as is_where_spec};

use crate::event::{AnsweredHalt, LoggedHalt, LoggedReply};
use s3_operator::{allowed, letters};

/// The digit with which a reply of a log answers a halt; none if the reply isn't to this halt.
pub(crate) fn answer_to(answered: &AnsweredHalt, halt: &LoggedHalt) -> Option<u8>
    ensures { result ≡ answer_in (Some answered.now) halt.now }
{
    if answers(answered, halt) {
        Some(answered.reply.digit)
    } else {
        None
    }
}

/// Whether a reply of a log is one to a halt.
fn answers(answered: &AnsweredHalt, halt: &LoggedHalt) -> bool
    ensures { result ≡ answers_spec answered.now halt.now }
{
    fits(&answered.reply, halt) && is_where(answered.halt, halt)
}

/// Whether a reply is one to the letters of a halt, and the halt allows it.
fn fits(reply: &LoggedReply, halt: &LoggedHalt) -> bool
    ensures { result ≡ fits_spec reply.now halt.now }
{
    letters(reply.code) == letters(halt.code) && allowed(halt.code, reply.digit)
}

/// Whether a halt is of the job and the card that a log has.
fn is_where(logged: Option<LoggedHalt>, halt: &LoggedHalt) -> bool
    ensures { result ≡ is_where_spec logged halt.now }
{
    match logged {
        Some(logged) => logged.job == halt.job && is_same_card(logged.card, halt.card),
        None => true,
    }
}

/// Whether two halts are about the same card, or both about none.
fn is_same_card(one: Option<u16>, other: Option<u16>) -> bool
    ensures { result ≡ is_same_card_spec one other }
{
    match (one, other) {
        (Some(one), Some(other)) => one == other,
        (None, None) => true,
        _ => false,
    }
}

//! Which answers fit a request.
ghost use Rattle.std.specs.Prelude.{◌≡◌, ℕ, List, Option};
ghost use Rattle.s3_meaning.specs.Inner.Requests.{fits as fits_spec, fits_done, fits_record, fits_reply, refuses_add, refuses_append, refuses_never, refuses_update};
ghost use Rattle.s3_cards.specs.declared.name.Name.{Name};
ghost use Rattle.s3_program.specs.declared.program.Program.{Program};
ghost use Rattle.s3_cycle.specs.Inner.Requests.{answer_of, request_of, request_to};

use crate::request::{Answer, FileCall, Request};
use s3_operator::{HaltCode, allowed};

/// The columns of a card.
const CARD_LENGTH: usize = 96;

/// Whether an answer is a record of so many bytes, or says that there is none.
#[tactic(auto, unfolding(crate::specs::Inner::Requests::answer_of))]
fn is_record_or_none(length: usize, answer: &Answer<'_>) -> bool
    ensures { result ≡ fits_record length (answer_of answer.now) }
{
    match answer {
        Answer::Found(bytes) => bytes.len() == length,
        Answer::Nothing => true,
        Answer::Done | Answer::Refused(_) | Answer::Reply(_) => false,
    }
}

/// Whether an answer says that it is done, if nothing can refuse it.
#[tactic(auto, unfolding(crate::specs::Inner::Requests::answer_of))]
fn is_done(answer: &Answer<'_>) -> bool
    ensures { result ≡ fits_done refuses_never (answer_of answer.now) }
{
    matches!(answer, Answer::Done)
}

/// Whether an answer says that it is done, or is a refusal of a record after the last one.
#[tactic(auto, unfolding(crate::specs::Inner::Requests::answer_of))]
fn is_appended_or_refused(answer: &Answer<'_>) -> bool
    ensures { result ≡ fits_done refuses_append (answer_of answer.now) }
{
    match answer {
        Answer::Done => true,
        Answer::Refused(code) => matches!(code, HaltCode::FileFull | HaltCode::KeyNotAscending),
        Answer::Found(_) | Answer::Nothing | Answer::Reply(_) => false,
    }
}

/// Whether an answer says that it is done, or is a refusal of a record under a new key.
#[tactic(auto, unfolding(crate::specs::Inner::Requests::answer_of))]
fn is_added_or_refused(answer: &Answer<'_>) -> bool
    ensures { result ≡ fits_done refuses_add (answer_of answer.now) }
{
    match answer {
        Answer::Done => true,
        Answer::Refused(code) => matches!(code, HaltCode::DuplicateKey | HaltCode::FileFull),
        Answer::Found(_) | Answer::Nothing | Answer::Reply(_) => false,
    }
}

/// Whether an answer says that it is done, or is a refusal of a change.
#[tactic(auto, unfolding(crate::specs::Inner::Requests::answer_of))]
fn is_updated_or_refused(answer: &Answer<'_>) -> bool
    ensures { result ≡ fits_done refuses_update (answer_of answer.now) }
{
    match answer {
        Answer::Done => true,
        Answer::Refused(code) => matches!(code, HaltCode::NothingToUpdate | HaltCode::KeyChanged),
        Answer::Found(_) | Answer::Nothing | Answer::Reply(_) => false,
    }
}

/// Whether an answer is the digit of a reply that the halt allows.
#[tactic(auto, unfolding(crate::specs::Inner::Requests::answer_of))]
fn is_allowed_reply(code: HaltCode, answer: &Answer<'_>) -> bool
    ensures { result ≡ fits_reply code (answer_of answer.now) }
{
    match answer {
        Answer::Reply(digit) => allowed(code, *digit),
        Answer::Found(_) | Answer::Nothing | Answer::Done | Answer::Refused(_) => false,
    }
}

/// Whether an answer fits what is asked of a file.
fn fits_call(call: &FileCall, answer: &Answer<'_>) -> bool
    ensures { (name : Name) (positions : List (Option ℕ)) → result ≡ fits_spec (request_to name positions call.now) (answer_of answer.now) }
{
    match call {
        FileCall::Read { length } => is_record_or_none(usize::from(*length), answer),
        FileCall::Chain { length, .. } => is_record_or_none(usize::from(*length), answer),
        FileCall::Append => is_appended_or_refused(answer),
        FileCall::Add => is_added_or_refused(answer),
        FileCall::Update { .. } => is_updated_or_refused(answer),
    }
}

/// Whether an answer fits a request, as `Cycle::resume` demands of an answer to the pending one: a record of its file's length, a
/// card's 96 bytes, or none, if one is asked for; for a record that is written, that it is done or for which halt it isn't; a
/// digit that is allowed, for a halt; and for a line or a jump that it is done. No answer fits the end.
#[tactic(auto, unfolding(crate::specs::Inner::Requests::request_of))]
pub fn fits(request: &Request, answer: &Answer<'_>) -> bool
    ensures { (program : Program) (positions : List (Option ℕ)) → result ≡ fits_spec (request_of program positions request.now) (answer_of answer.now) }
{
    match request {
        Request::Card => is_record_or_none(CARD_LENGTH, answer),
        Request::File { call, .. } => fits_call(call, answer),
        Request::Print { .. } | Request::Jump => is_done(answer),
        Request::Ask(code) => is_allowed_reply(*code, answer),
        Request::End { .. } => false,
    }
}

//! A level's halt text: its halts, with what was wrong at each.
ghost use Rattle.std.specs.Prelude.{◌≡◌, ◌++◌, map, OnOk, IfOk};
ghost use Rattle.s3_operator.specs.Inner.Halts.{halt_of};
ghost use Rattle.s3_bureau.specs.Texts.{reply_text, detail_line, halt_line, halt_lines, refusal_line, halt_text_of};

use s3_cards::push_number;
use s3_operator::{Halt, letters};
use std::alloc::{AllocError, Global};

/// The text of a level's halts (docs/RUNNING.md, "The output"). If its deck was refused, the number of the card in error and
/// of its fault go first, as of job 000. It is refused only if memory runs out.
pub fn halt_text(
    alloc: Global,
    refusal: Option<(u16, u8)>,
    halts: &[Halt],
) -> Result<Vec<u8>, AllocError>
    ensures { IfOk result (λ text. text.items ≡ halt_text_of refusal (map halt_of halts.now)) }
{
    let mut text = Vec::new(alloc);
    push_refusal(&mut text, refusal)?;
    for halt in halts {
        push_halt(&mut text, halt)?;
    }
    Ok(text)
}

fn push_refusal(text: &mut Vec<u8>, refusal: Option<(u16, u8)>) -> Result<(), AllocError>
    ensures { OnOk result (text.new.items ≡ text.old.items ++ refusal_line refusal) }
{
    match refusal {
        Some((card, number)) => push_detail(text, 0, card, number),
        None => Ok(()),
    }
}

/// Appends a halt, and a line for each of its details.
#[tactic(auto, unfolding(crate::specs::Texts::halt_lines))]
fn push_halt(text: &mut Vec<u8>, halt: &Halt) -> Result<(), AllocError>
    ensures { OnOk result (text.new.items ≡ text.old.items ++ halt_lines (halt_of halt.now)) }
{
    push_halt_line(text, halt)?;
    for (card, number) in &halt.details {
        push_detail(text, halt.job, *card, *number)?;
    }
    Ok(())
}

#[tactic(auto, unfolding(crate::specs::Texts::halt_line))]
fn push_halt_line(text: &mut Vec<u8>, halt: &Halt) -> Result<(), AllocError>
    ensures { OnOk result (text.new.items ≡ text.old.items ++ halt_line (halt_of halt.now)) }
{
    push_number(text, u64::from(halt.job), 3)?;
    text.push(b' ')?;
    text.extend_from_slice(&letters(halt.code))?;
    text.push(b' ')?;
    push_reply(text, halt.reply)?;
    text.push(b'\n')?;
    Ok(())
}

#[tactic(auto, unfolding(crate::specs::Texts::detail_line))]
fn push_detail(text: &mut Vec<u8>, job: u16, card: u16, number: u8) -> Result<(), AllocError>
    ensures { OnOk result (text.new.items ≡ text.old.items ++ detail_line job (card, number)) }
{
    push_number(text, u64::from(job), 3)?;
    text.push(b' ')?;
    push_number(text, u64::from(card), 4)?;
    text.push(b' ')?;
    push_number(text, u64::from(number), 2)?;
    text.push(b'\n')?;
    Ok(())
}

fn push_reply(text: &mut Vec<u8>, reply: Option<u8>) -> Result<(), AllocError>
    ensures { OnOk result (text.new.items ≡ text.old.items ++ reply_text reply) }
{
    match reply {
        Some(digit) => push_number(text, u64::from(digit), 1),
        None => text.extend_from_slice(b"-"),
    }
}

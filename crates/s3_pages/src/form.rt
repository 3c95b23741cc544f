//! The form on which all pages of a document are printed.
ghost use Rattle.std.specs.Prelude.{◌≡◌, ◌++◌, OnOk};
ghost use Rattle.std.specs.List.{flat_map, range_with_len};
ghost use Rattle.s3_pages.specs.Inner.Forms.{bars, form_body, form_content, form_head as form_head_spec, full_look, hole, line_number, line_numbers, margins, strips};

use crate::drawing::push_stream;
use crate::numbers::push_number;
use std::alloc::{AllocError, Global};

/// The look of a form.
#[derive(Clone, Copy)]
pub enum FormLook {
    /// White.
    Plain,
    /// With light bars.
    Bars,
    /// With light bars, holes at both edges, and the numbers of the lines in both margins.
    Full,
}

/// What is said of each form, 14 7/8 by 11 inches.
const FORM: &[u8] = b"/Type /XObject /Subtype /Form /BBox [0 0 1071 792] ";

/// What is said of a form that has a text.
const FORM_WITH_TEXT: &[u8] =
    b"/Type /XObject /Subtype /Form /BBox [0 0 1071 792] /Resources << /Font << /F 1 0 R >> >> ";

/// The holes at an edge.
const HOLES: u32 = 22;

/// The lines of a form.
const LINES: u32 = 66;

/// Appends the form on which all pages are printed.
#[tactic(auto, unfolding(crate::specs::Inner::Forms::form_body))]
pub fn push_form(alloc: Global, text: &mut Vec<u8>, look: FormLook) -> Result<(), AllocError>
    ensures { OnOk result (text.new.items ≡ text.old.items ++ form_body look) }
{
    let mut content = Vec::new(alloc);
    push_content(&mut content, look)?;
    push_stream(text, form_head(look), content.as_slice())
}

/// What is said of a form.
fn form_head(look: FormLook) -> &'static [u8]
    ensures { result.now ≡ form_head_spec look }
{
    match look {
        FormLook::Plain | FormLook::Bars => FORM,
        FormLook::Full => FORM_WITH_TEXT,
    }
}

/// Appends what is on a form before it is printed.
fn push_content(text: &mut Vec<u8>, look: FormLook) -> Result<(), AllocError>
    ensures { OnOk result (text.new.items ≡ text.old.items ++ form_content look) }
{
    match look {
        FormLook::Plain => Ok(()),
        FormLook::Bars => text.extend_from_slice(drawn_bars()),
        FormLook::Full => push_full(text),
    }
}

/// Appends bars, strips with holes, and the numbers of the lines.
#[tactic(auto, unfolding(crate::specs::Inner::Forms::full_look))]
fn push_full(text: &mut Vec<u8>) -> Result<(), AllocError>
    ensures { OnOk result (text.new.items ≡ text.old.items ++ full_look) }
{
    text.extend_from_slice(drawn_bars())?;
    text.extend_from_slice(drawn_strips())?;
    push_holes(text)?;
    push_margins(text)
}

/// Eleven bars of three lines, with three lines between two.
#[tactic(auto, unfolding(crate::specs::Inner::Forms::bars))]
fn drawn_bars() -> &'static [u8]
    ensures { result.now ≡ bars }
{
    b"0.9 0.96 0.9 rg\n36 756 999 36 re\n36 684 999 36 re\n36 612 999 36 re\n36 540 999 36 re\n36 468 999 36 re\n36 396 999 36 re\n36 324 999 36 re\n36 252 999 36 re\n36 180 999 36 re\n36 108 999 36 re\n36 36 999 36 re\nf"
}

/// The lines at which the strips at both edges are torn off.
#[tactic(auto, unfolding(crate::specs::Inner::Forms::strips))]
fn drawn_strips() -> &'static [u8]
    ensures { result.now ≡ strips }
{
    b"\n0.7 G\n36 0 m 36 792 l 1035 0 m 1035 792 l S\nq\n1 J\n11.25 w\n"
}

fn push_holes(text: &mut Vec<u8>) -> Result<(), AllocError>
    ensures { OnOk result (text.new.items ≡ text.old.items ++ flat_map (λ _. hole) (range_with_len 0 22)) }
{
    for _hole in 0..HOLES {
        text.extend_from_slice(drawn_hole())?;
    }
    Ok(())
}

/// A hole at each edge, and the way up to the next one.
#[tactic(auto, unfolding(crate::specs::Inner::Forms::hole))]
fn drawn_hole() -> &'static [u8]
    ensures { result.now ≡ hole }
{
    b"18 18 m 18 18 l 1053 18 m 1053 18 l S\n1 0 0 1 0 36 cm\n"
}

/// Appends the numbers of the lines in both margins.
#[tactic(auto, unfolding(crate::specs::Inner::Forms::margins))]
fn push_margins(text: &mut Vec<u8>) -> Result<(), AllocError>
    ensures { OnOk result (text.new.items ≡ text.old.items ++ margins) }
{
    text.extend_from_slice(
        b"Q\n/Span << /ActualText () >> BDC\n0.4 0.5 0.4 rg\nBT\n/F 7 Tf\n12 TL\n1 0 0 1 44 795 Tm\n",
    )?;
    push_line_numbers(text)?;
    text.extend_from_slice(b"1 0 0 1 1018.6 795 Tm\n")?;
    push_line_numbers(text)?;
    text.extend_from_slice(b"ET\nEMC")
}

fn push_line_numbers(text: &mut Vec<u8>) -> Result<(), AllocError>
    ensures { OnOk result (text.new.items ≡ text.old.items ++ line_numbers) }
{
    for place in 0..LINES {
        push_line_number(text, place)?;
    }
    Ok(())
}

/// Appends the number of a line, at the line below the last one.
#[tactic(auto, unfolding(crate::specs::Inner::Forms::line_number))]
fn push_line_number(text: &mut Vec<u8>, place: u32) -> Result<(), AllocError>
    ensures { OnOk result (text.new.items ≡ text.old.items ++ line_number place) }
{
    text.push(b'(')?;
    push_number(text, u64::from(place) + 1)?;
    text.extend_from_slice(b") '\n")
}

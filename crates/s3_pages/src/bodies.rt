//! The objects of a document of forms.
ghost use Rattle.std.specs.Prelude.{◌≡◌, ◌++◌, OnOk};
ghost use Rattle.std.specs.List.{flat_map, range_with_len};
ghost use Rattle.s3_pages.specs.Inner.Bodies.{info_body, kid, label_turn, page_body, root_body, tree_body};

use crate::drawing::push_text;
use crate::numbers::push_number;
use crate::size::{PaperSize, tree_head};
use std::alloc::AllocError;

/// Ten columns to the inch.
pub const FONT: &[u8] =
    b"<< /Type /Font /Subtype /Type1 /BaseFont /Courier /Encoding /WinAnsiEncoding >>";

/// What all pages are drawn with.
pub const RESOURCES: &[u8] = b"<< /Font << /F 1 0 R >> /XObject << /B 2 0 R >> >>";

/// Page 0 comes after so many pages, from page 1 on.
const PAGES_TO_ZERO: u64 = 9_999;

/// Appends a page, whose contents are another object.
#[tactic(auto, unfolding(crate::specs::Inner::Bodies::page_body))]
pub fn push_page_body(text: &mut Vec<u8>, tree: u64, contents: u64) -> Result<(), AllocError>
    ensures { OnOk result (text.new.items ≡ text.old.items ++ page_body tree contents) }
{
    text.extend_from_slice(b"<< /Type /Page /Parent ")?;
    push_number(text, tree)?;
    text.extend_from_slice(b" 0 R /Contents ")?;
    push_number(text, contents)?;
    text.extend_from_slice(b" 0 R >>")?;
    Ok(())
}

/// Appends what has all pages, by the size of their paper and how many they are.
#[tactic(auto, unfolding(crate::specs::Inner::Bodies::tree_body))]
pub fn push_tree(text: &mut Vec<u8>, size: PaperSize, count: u32) -> Result<(), AllocError>
    ensures { OnOk result (text.new.items ≡ text.old.items ++ tree_body size count) }
{
    text.extend_from_slice(tree_head(size))?;
    push_number(text, u64::from(count))?;
    text.extend_from_slice(b" /Kids [")?;
    push_kids(text, count)?;
    text.extend_from_slice(b"] >>")?;
    Ok(())
}

fn push_kids(text: &mut Vec<u8>, count: u32) -> Result<(), AllocError>
    ensures { OnOk result (text.new.items ≡ text.old.items ++ flat_map kid (range_with_len 0 count)) }
{
    for place in 0..count {
        push_kid(text, place)?;
    }
    Ok(())
}

/// Appends a page among all pages, by its place.
#[tactic(auto, unfolding(crate::specs::Inner::Bodies::kid))]
fn push_kid(text: &mut Vec<u8>, place: u32) -> Result<(), AllocError>
    ensures { OnOk result (text.new.items ≡ text.old.items ++ kid place) }
{
    push_number(text, 4 + 2 * u64::from(place))?;
    text.extend_from_slice(b" 0 R ")
}

/// Appends the root: the pages, and their numbers as they were printed.
#[tactic(auto, unfolding(crate::specs::Inner::Bodies::root_body))]
pub fn push_root(text: &mut Vec<u8>, tree: u64, count: u32) -> Result<(), AllocError>
    ensures { OnOk result (text.new.items ≡ text.old.items ++ root_body tree count) }
{
    text.extend_from_slice(b"<< /Type /Catalog /Pages ")?;
    push_number(text, tree)?;
    text.extend_from_slice(
        b" 0 R /ViewerPreferences << /DisplayDocTitle true >> /PageLabels << /Nums [0 << /S /D >>",
    )?;
    push_turns(text, count / 10_000)?;
    text.extend_from_slice(b"] >> >>")?;
    Ok(())
}

fn push_turns(text: &mut Vec<u8>, count: u32) -> Result<(), AllocError>
    ensures { OnOk result (text.new.items ≡ text.old.items ++ flat_map label_turn (range_with_len 0 count)) }
{
    for turn in 0..count {
        push_turn(text, turn)?;
    }
    Ok(())
}

/// Appends the labels of a page 0 and of the pages after it.
#[tactic(auto, unfolding(crate::specs::Inner::Bodies::label_turn))]
fn push_turn(text: &mut Vec<u8>, turn: u32) -> Result<(), AllocError>
    ensures { OnOk result (text.new.items ≡ text.old.items ++ label_turn turn) }
{
    let before = 10_000 * u64::from(turn);
    text.push(b' ')?;
    push_number(text, before + PAGES_TO_ZERO)?;
    text.extend_from_slice(b" << /P (0) >> ")?;
    push_number(text, before + 10_000)?;
    text.extend_from_slice(b" << /S /D >>")?;
    Ok(())
}

/// Appends what is reported of a document.
#[tactic(auto, unfolding(crate::specs::Inner::Bodies::info_body))]
pub fn push_info(text: &mut Vec<u8>, title: &[u8]) -> Result<(), AllocError>
    ensures { OnOk result (text.new.items ≡ text.old.items ++ info_body title.now) }
{
    text.extend_from_slice(b"<< /Title ")?;
    push_text(text, title)?;
    text.extend_from_slice(b" /Producer (bureau) >>")
}

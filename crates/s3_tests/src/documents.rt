//! Documents that no command asks for: without lines, and with more pages than one may have. A whole one is in a worked row,
//! `operate-paper-pdf`; `tools/check/test-pdf` has others read by programs for PDF.

use s3_cards::ebcdic::BLANK;
use s3_cards::{PRINT_POSITIONS, PrintLine};
use s3_pages::{FormLook, PaperFault, PaperSize, write_pdf};
use std::alloc::{AllocError, Global};
use std::test::Fail;

/// A document without lines begins and ends as any other.
#[test]
fn a_document_without_lines_is_an_empty_form(rt: HostRuntime) {
    let mut bytes = Vec::new(rt.alloc());
    let written = write_pdf(
        rt.alloc(),
        b"LIST (1)",
        &[],
        FormLook::Plain,
        PaperSize::Form,
        &mut bytes,
    );
    assert!(rt; written.is_ok());
    assert!(rt; bytes.starts_with(b"%PDF-1.4\n1 0 obj\n".as_slice()));
    assert!(rt; bytes.ends_with(b"\n%%EOF\n".as_slice()));
}

/// Page 9,998 comes 9,999 pages after page 9,999, so 401 such pairs have over 4,000,000 pages.
fn many_pages(alloc: Global) -> Result<Vec<PrintLine>, AllocError> {
    let blank = [BLANK; PRINT_POSITIONS];
    let mut lines = Vec::new(alloc);
    for _pair in 0..401 {
        lines.push(PrintLine::new(9_999, 1, 132, blank))?;
        lines.push(PrintLine::new(9_998, 1, 132, blank))?;
    }
    Ok(lines)
}

/// Nothing is written of a document with too many pages.
#[test]
fn a_document_of_too_many_pages_is_refused(rt: HostRuntime) -> Result<(), Fail> {
    let lines = many_pages(rt.alloc())?;
    let mut bytes = Vec::new(rt.alloc());
    let refused = write_pdf(
        rt.alloc(),
        b"A",
        &lines,
        FormLook::Full,
        PaperSize::A4,
        &mut bytes,
    );
    assert!(rt; matches!(refused, Err(PaperFault::TooLong)));
    assert!(rt; bytes.is_empty());
    Ok(())
}

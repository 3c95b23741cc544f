//! The paper on which the pages of a document are drawn.
ghost use Rattle.std.specs.Prelude.{◌≡◌};
ghost use Rattle.s3_pages.specs.Inner.Sizes.{page_head as page_head_spec, tree_head as tree_head_spec};

/// The size of the pages of a document. A form is 14 7/8 by 11 inches.
#[derive(Clone, Copy)]
pub enum PaperSize {
    /// The form itself.
    Form,
    /// A4, on its side: the form is scaled by 0.7058, and centred.
    A4,
    /// US Letter, on its side: the form is scaled by 0.7058, and centred.
    Letter,
}

/// What all pages begin with, up to their number.
pub fn tree_head(size: PaperSize) -> &'static [u8]
    ensures { result.now ≡ tree_head_spec size }
{
    match size {
        PaperSize::Form => {
            b"<< /Type /Pages /MediaBox [0 0 1071 792] /Resources 3 0 R /Count ".as_slice()
        }
        PaperSize::A4 => {
            b"<< /Type /Pages /MediaBox [0 0 842 595] /Resources 3 0 R /Count ".as_slice()
        }
        PaperSize::Letter => {
            b"<< /Type /Pages /MediaBox [0 0 792 612] /Resources 3 0 R /Count ".as_slice()
        }
    }
}

/// What each page begins with: where the form is on the paper, and the form.
pub fn page_head(size: PaperSize) -> &'static [u8]
    ensures { result.now ≡ page_head_spec size }
{
    match size {
        PaperSize::Form => b"/B Do\nBT\n/F 12 Tf\n".as_slice(),
        PaperSize::A4 => {
            b"0.7058 0 0 0.7058 43.0441 18.0032 cm\n/B Do\nBT\n/F 12 Tf\n".as_slice()
        }
        PaperSize::Letter => {
            b"0.7058 0 0 0.7058 18.0441 26.5032 cm\n/B Do\nBT\n/F 12 Tf\n".as_slice()
        }
    }
}

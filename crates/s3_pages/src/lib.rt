//! Printed lines as the pages of a job: which page has which lines, which lines belong to which job, and the pages as a text and
//! as a PDF document of forms with 132 columns and 66 lines, also scaled to A4 or Letter. docs/OPERATING.md has the rules, under "Paper".
//!
//! Each line is proved to be on its page, and a page has no other lines (`Pages`, `pages_have_all_lines`). `parts` is proved to
//! give each job as many lines as it printed, and the rest to the last job. `write_text` is proved to write exactly the text of
//! the pages, with a form feed between two pages, and `write_pdf` exactly the specified bytes: numbered objects, and a table with
//! the place of each (`file_of`, `places`). `write_pdf` refuses a document as too long only if it has too many pages or bytes
//! (`too_long`). Not specified: what a writer that fails has written, and when `NoMemory` comes. That PDF readers show the
//! document as forms is tested by `tools/check/test-pdf`.
#![tactic(auto)]

mod bodies;
mod document;
mod drawing;
mod fault;
mod form;
mod laws;
mod numbers;
mod object_table;
mod page_by_page;
mod page_text;
mod partition;
mod shown;
mod size;
mod written;

pub use document::{MOST_PAGES, write_pdf};
pub use fault::PaperFault;
pub use form::FormLook;
pub use laws::pages_have_all_lines;
pub use page_by_page::Pages;
pub use page_text::{push_page, row_of};
pub use partition::parts;
pub use shown::push_shown;
pub use size::PaperSize;
pub use written::write_text;

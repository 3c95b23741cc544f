//! A day as a book of HTML pages: one for each job's report, and one for the day. docs/OPERATING.md has the rules, under "Pages".
//!
//! What is proved, for all values:
//!
//! - A page is a list of parts, and its bytes are those of the parts, one after another (`put`). A value is written with an entity for
//!   each character that has a meaning in HTML (`push_escaped`), so that no value begins a tag (`values_have_no_tags`).
//! - `report_page` gives exactly the page of a report: what each page begins with, its title, its text, each byte marked up, and what each
//!   page ends with. From the text as it is marked up, the text can be read back (`reports_read_back`).
//! - `day_page` gives exactly the page of a day that is defined for its values.
//!
//! Not proved: that browsers show what is written, and that each tag is closed.
#![tactic(auto)]

mod day;
mod index;
mod laws;
mod part;
mod report;
mod scale;

pub use day::{ChangedFile, Day, Extent, Halt, Job, Region};
pub use index::day_page;
pub use laws::{reports_read_back, values_have_no_tags};
pub use part::{Part, push_escaped, put};
pub use report::report_page;

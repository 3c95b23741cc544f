//! What the definition of pages says of itself.
ghost use Rattle.std.specs.Prelude.{◌≡◌, List};
ghost use Rattle.std.specs.List.{flat_map};
ghost use Rattle.s3_cards.specs.Printed.{Printed};
ghost use Rattle.s3_pages.specs.Inner.Pages.{pages_of};

/// Each line of a job is on one of its pages, and the pages have no other lines: the lines of all pages, one page after the
/// other, are the lines in the order in which they were printed.
pub fn pages_have_all_lines()
    ensures { (lines : List Printed) → flat_map (λ page. page) (pages_of lines) ≡ lines }
{}

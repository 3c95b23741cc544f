//! The pages of a job, one after another.
ghost use Rattle.std.specs.Prelude.{◌≡◌, ◌≤◌, ◌==◌, length};
ghost use Rattle.std.specs.List.{prefix_len};
ghost use Rattle.s3_pages.specs.Inner.Pages.{pages_on as pages_on_spec};

use s3_cards::PrintLine;

/// The last number that a page has; page 0 comes after it.
const LAST_PAGE: u32 = 9_999;

/// The pages of a job's printed lines, from page 1 on. Each is the list of the lines that were printed on it, in the order in which
/// they were printed; an empty page is an empty list. There is at least one page.
#[derive(Clone, Copy, Drop)]
pub struct Pages<'a> {
    /// How many empty pages come before the next one that has lines.
    empty: u32,
    /// The number of that page.
    number: u16,
    /// The lines that are on it and after it.
    rest: &'a [PrintLine],
    /// Whether no page is left.
    is_over: bool,
}

impl<'a> Pages<'a> {
    ghost use Rattle.s3_pages.specs.Inner.Pages.{pages_behind, pages_of};
    ghost use Rattle.s3_pages.specs.Inner.PagesLeft.{pages_left};

    /// The pages of a job's lines, given in the order in which they were printed.
    pub fn of(lines: &'a [PrintLine]) -> Pages<'a>
        ensures pages { pages_left result ≡ pages_of lines.now }
    {
        Pages {
            empty: 0,
            number: 1,
            rest: lines,
            is_over: false,
        }
    }

    /// The pages after the page of a number, given the lines that are printed after it.
    fn behind(number: u16, lines: &'a [PrintLine]) -> Pages<'a>
        ensures { pages_left result ≡ pages_behind number lines.now }
    {
        match lines.first() {
            Some(line) => Pages {
                empty: pages_on(number, line.page()).saturating_sub(1),
                number: line.page(),
                rest: lines,
                is_over: false,
            },
            None => Pages {
                empty: 0,
                number,
                rest: lines,
                is_over: true,
            },
        }
    }
}

impl<'a> Iterator for Pages<'a> {
    ghost use Rattle.std.specs.Iterator.{YieldsFirstRef, item_count};
    ghost use Rattle.s3_pages.specs.Inner.PagesLeft.{pages_left};

    type Item = &'a [PrintLine];

    ghost next_gives = { YieldsFirstRef pages_left };

    ghost remaining = { item_count pages_left };

    #[tactic(auto, using(crate::proofs::PageRuns::page_of_run))]
    fn next(&mut self) -> Option<&'a [PrintLine]> {
        if self.is_over {
            return None;
        }
        if self.empty > 0 {
            self.empty -= 1;
            return Some(&self.rest[..0]);
        }
        let (page, behind) = self.rest.split_at(run_len(self.rest, self.number));
        *self = Pages::behind(self.number, behind);
        Some(page)
    }
}

/// How many of the first lines are on a page.
fn run_len(lines: &[PrintLine], number: u16) -> usize
    ensures within { result ≤ length lines.now }
    ensures value { result ≡ prefix_len (λ line. line.page == number) lines.now }
{
    lines
        .iter()
        .take_while(|line| line.page() == number)
        .count()
}

/// How many pages on the page of a number is.
fn pages_on(from: u16, to: u16) -> u32
    ensures { result ≡ pages_on_spec from to }
{
    if from <= to {
        u32::from(to) - u32::from(from)
    } else {
        LAST_PAGE.saturating_sub(u32::from(from)) + (u32::from(to) + 1)
    }
}

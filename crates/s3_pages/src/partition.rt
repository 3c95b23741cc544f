//! Which lines are of which job.
ghost use Rattle.std.specs.Prelude.{◌≡◌, IfOk, length, map, min};
ghost use Rattle.std.specs.List.{flat_map};
ghost use Rattle.s3_pages.specs.Inner.Parts.{parts_of};

use s3_cards::PrintLine;
use std::alloc::{AllocError, Global};

/// The lines of each job, given all lines of a level in order and how many each job printed but the last one, which has the rest.
/// There is one part more than there are counts.

pub fn parts<'a>(
    alloc: Global,
    lines: &'a [PrintLine],
    counts: &[u64],
) -> Result<Vec<&'a [PrintLine]>, AllocError>
    // Each job has the lines that it printed.
    ensures parts { IfOk result (λ all. map (λ part. part.now) all.items ≡ parts_of counts.now lines.now) }

    // Together they are all lines in order.
    ensures whole { IfOk result (λ all. flat_map (λ part. part.now) all.items ≡ lines.now) }
{
    let mut all = Vec::new(alloc);
    let mut rest = lines;
    for count in counts {
        let (part, behind) = rest.split_at(part_len(rest, *count));
        all.push(part)?;
        rest = behind;
    }
    all.push(rest)?;
    Ok(all)
}

/// How many of the lines that are left are of a job which printed so many.
fn part_len(rest: &[PrintLine], count: u64) -> usize
    ensures { result ≡ min count (length rest.now) }
{
    usize::try_from(count).unwrap_or(usize::MAX).min(rest.len())
}

//! Runs of sectors.
ghost use Rattle.std.specs.Prelude.{◌≡◌, ◌+◌, ◌*◌, ◌≤◌, length};
ghost use Rattle.std.specs.List.{sum_by};
ghost use Rattle.s3_store.specs.Stretches.{end_of as end_spec};
ghost use Rattle.s3_slots.specs.Stretches.{is_apart as is_apart_spec, is_apart_from_all as is_apart_from_all_spec, are_apart as are_apart_spec, is_inside as is_inside_spec};

use s3_store::Stretch;

/// The number of the first sector after a run.
pub fn end_of(stretch: Stretch) -> u32
    ensures { result ≡ end_spec stretch }
{
    u32::from(stretch.start) + u32::from(stretch.sectors)
}

/// Whether two runs have no sector in common.
pub fn is_apart(a: Stretch, b: Stretch) -> bool
    ensures { result ≡ is_apart_spec a b }
{
    a.sectors == 0
        || b.sectors == 0
        || end_of(a) <= u32::from(b.start)
        || end_of(b) <= u32::from(a.start)
}

/// Whether a run has no sector in common with any of the others.
pub fn is_apart_from_all(stretch: Stretch, others: &[Stretch]) -> bool
    ensures { result ≡ is_apart_from_all_spec stretch others.now }
{
    others.iter().all(|other| is_apart(stretch, *other))
}

/// Whether no two of these runs have a sector in common.
pub fn are_apart(stretches: &[Stretch]) -> bool
    ensures { result ≡ are_apart_spec stretches.now }
{
    match stretches.split_first() {
        None => true,
        Some((first, rest)) => is_apart_from_all(*first, rest) && are_apart(rest),
    }
}

/// Whether all sectors of a run are of the outer one.
pub fn is_inside(outer: Stretch, stretch: Stretch) -> bool
    ensures { result ≡ is_inside_spec outer stretch }
{
    outer.start <= stretch.start && end_of(stretch) <= end_of(outer)
}

/// How many sectors up to four runs have together.
pub fn sectors_of(stretches: &[Stretch]) -> u64
    requires { length stretches.now ≤ 4 }
    ensures value { result ≡ sum_by (λ stretch. stretch.sectors) stretches.now }
    ensures within { result ≤ 65535 * length stretches.now }
{
    match stretches.split_first() {
        None => 0,
        Some((first, rest)) => u64::from(first.sectors) + sectors_of(rest),
    }
}

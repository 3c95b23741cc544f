//! Where a made file goes.
ghost use Rattle.std.specs.Prelude.{◌≡◌, ◌≤◌, ◌<◌, ◌+◌, ◌*◌, ◌++◌, length, take, MatchBool, IfSome};
ghost use Rattle.std.specs.List.{position_from};
ghost use Rattle.s3_slots.specs.Placement.{is_free as is_free_spec, tracks_at as tracks_at_spec, lowest_place as lowest_place_spec, free_stretches as free_stretches_spec, ended as ended_spec, cut as cut_spec, lowest_stretches as lowest_stretches_spec, placed as placed_spec};

use crate::header::Format;
use crate::slot::{Slot, is_clear};
use crate::stretch::sectors_of;
use s3_store::{Extents, Stretch};

/// Whether a slot is free.
fn is_free(slot: &Slot) -> bool
    ensures { result ≡ is_free_spec slot.now }
{
    match slot {
        Slot::Free => true,
        Slot::Damaged(_) | Slot::Sound(_) => false,
    }
}

/// The lowest free slot.
pub fn free_slot(slots: &[Slot]) -> Option<usize>
    ensures place { result ≡ position_from is_free_spec 0 slots.now }
    ensures within { IfSome result (λ i. i < length slots.now) }
{
    slots.iter().position(|slot| is_free(slot))
}

/// So many tracks of the region from a track on.
fn tracks_at(region: Stretch, tracks: u64, track: u64) -> Stretch
    requires within { 24 * track + 24 * tracks ≤ region.sectors }
    requires fits { region.start + region.sectors ≤ 65535 }
    ensures { result ≡ tracks_at_spec region tracks track }
{
    Stretch {
        start: region.start + 24 * track as u16,
        sectors: 24 * tracks as u16,
    }
}

/// The lowest place in the region for so many tracks.
pub fn lowest_place(region: Stretch, slots: &[Slot], tracks: u64) -> Option<Stretch>
    requires fits { region.start + region.sectors ≤ 65535 }
    ensures { result ≡ lowest_place_spec region slots.now tracks }
{
    let count = (u64::from(region.sectors) / 24 + 1).saturating_sub(tracks);
    for track in 0..count {
        let place = tracks_at(region, tracks, track);
        if is_clear(slots, place) {
            return Some(place);
        }
    }
    None
}

/// Puts a run that has sectors after the others.
#[tactic(auto, using(std::proofs::Common::append_assoc))]
fn end_run(runs: &mut Extents, run: Stretch)
    requires { length runs.old < 4 }
    ensures { runs.new ≡ runs.old ++ ended_spec run }
{
    if run.sectors != 0 {
        runs.push(run);
    }
}

/// The lowest four free stretches of the region.
pub fn lowest_four(region: Stretch, slots: &[Slot]) -> Extents
    requires fits { region.start + region.sectors ≤ 65535 }
    ensures value { result ≡ take 4 (free_stretches_spec region slots.now) }
    ensures few { length result ≤ 4 }
{
    let mut runs = Extents::new();
    let mut run = Stretch {
        start: region.start,
        sectors: 0,
    };
    for track in 0..u64::from(region.sectors) / 24 {
        if is_full(&runs) {
            return runs;
        }
        let place = tracks_at(region, 1, track);
        if is_clear(slots, place) {
            run.sectors += 24;
        } else {
            end_run(&mut runs, run);
            run = Stretch {
                start: place.start + 24,
                sectors: 0,
            };
        }
    }
    if is_full(&runs) {
        return runs;
    }
    end_run(&mut runs, run);
    runs
}

/// Whether there are four runs.
fn is_full(runs: &Extents) -> bool
    ensures { MatchBool result (length runs.now ≡ 4) (length runs.now < 4) }
{
    runs.as_slice().len() >= 4
}

/// Puts so many sectors of these stretches after the others, the last one as far as needed.
#[tactic(auto, using(std::proofs::Common::append_assoc))]
fn cut(sectors: u64, stretches: &[Stretch], extents: &mut Extents)
    requires few { length extents.old + length stretches.now ≤ 4 }
    ensures { extents.new ≡ extents.old ++ cut_spec sectors stretches.now }
{
    match stretches.split_first() {
        None => {}
        Some((first, rest)) => {
            if sectors <= u64::from(first.sectors) {
                extents.push(Stretch {
                    start: first.start,
                    sectors: sectors as u16,
                });
            } else {
                extents.push(*first);
                cut(sectors - u64::from(first.sectors), rest, extents);
            }
        }
    }
}

/// So many sectors of the lowest four free stretches, if these have them.
#[tactic(auto, unfolding(crate::specs::Placement::lowest_stretches))]
fn lowest_stretches(region: Stretch, slots: &[Slot], sectors: u64) -> Option<Extents>
    requires fits { region.start + region.sectors ≤ 65535 }
    ensures { result ≡ lowest_stretches_spec region slots.now sectors }
{
    let lowest = lowest_four(region, slots);
    let stretches = lowest.as_slice();
    if sectors > sectors_of(stretches) {
        return None;
    }
    let mut extents = Extents::new();
    cut(sectors, stretches, &mut extents);
    Some(extents)
}

/// The extents of a file of so many tracks.
#[tactic(auto, unfolding(crate::specs::Placement::placed))]
pub fn placed(format: Format, region: Stretch, slots: &[Slot], tracks: u64) -> Option<Extents>
    requires fits { region.start + region.sectors ≤ 65535 }
    requires few { tracks ≤ 2199023255552 }
    ensures { result ≡ placed_spec format region slots.now tracks }
{
    match lowest_place(region, slots, tracks) {
        Some(extent) => Some(Extents::of(&[extent])),
        None => match format {
            Format::First => None,
            Format::Second => lowest_stretches(region, slots, 24 * tracks),
        },
    }
}

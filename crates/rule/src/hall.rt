// MOUNTS by Hall's condition: every member of a set can have a mount of its own where each part of it fits, all together, at least as many
// mounts as it has members.
use super::picked;
use std::array;
use team::Team;

// The mounts that each instrument fits, bit k for mount k, and none where no command names the instrument.
fn masks(team: &Team) -> [u32; 64] {
    array::from_fn(|g| match team.named[g] {
        255 => 0,
        _ => u32::from_le_bytes([team.first[g], team.second[g], team.third[g], team.fourth[g]]),
    })
}

// The mounts that a set fits, all together.
fn fitted(masks: &[u32; 64], set: u64) -> u32 {
    sets::members(set).fold(0, |mounts, g| mounts | masks[g])
}

// Whether a set has more members than the mounts that it fits, all together.
fn crowded(masks: &[u32; 64], set: u64) -> bool {
    fitted(masks, set).count_ones() < set.count_ones()
}

// Independence for a MOUNTS team, channels aside: no part of a set is crowded. A set of k members has 2 to the power of k parts, picked by the
// binary digits of as many numbers, and the whole set is tried first.
pub fn allow(team: &Team, set: u64) -> bool {
    let masks = masks(team);
    let members = sets::size(set);
    members <= 32
        && (1..=sets::all_below(members))
            .rev()
            .all(|digits| !crowded(&masks, picked(set, digits)))
}

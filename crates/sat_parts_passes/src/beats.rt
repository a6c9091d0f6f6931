//! Whether a hub's last beat for another site is the one that it would make.
ghost use Rattle.std.specs.Prelude.{◌≡◌, ◌<◌, ◌≤◌, length, IfOk, IfSome, option_copied};
ghost use Rattle.sat_hub.specs.Changes.{beat_for, made_for};
ghost use Rattle.sat_passes.specs.Sendings.{is_told, last_made};

use sat_beat::Beat;
use sat_hub::Hub;
use sat_passes::is_one;
use std::alloc::AllocError;

// A place to ask between two: as far behind the first as that is, and never behind the middle. So the first places are
// asked where few are taken, each twice as far as the one before, and once one is not taken, the middle is.
fn between(low: u64, high: u64) -> u64
    requires { low < high }
    ensures from { low ≤ result }
    ensures below { result < high }
{
    let half = (high - low) / 2;
    if low < half { low + low } else { low + half }
}

// How many beats the hub made for another site, by doubling and halving. No memory holds 2^64 - 1 beats: `None` where
// there are so many.
fn beats_made(hub: &Hub, to: u16) -> Option<u64>
    requires { to < hub.now.shape.sites }
    ensures { IfSome result (λ n. n ≡ length (made_for hub.now to)) }
{
    let mut low: u64 = 0;
    let mut high: u64 = u64::MAX;
    'halving: while low < high {
        let middle = between(low, high);
        if hub.made_beat(to, middle).is_some() {
            low = middle + 1;
        } else {
            high = middle;
        }
    }
    if low == u64::MAX { None } else { Some(low) }
}

// The last of these beats.
fn last_beat(hub: &Hub, to: u16) -> Result<Option<&Beat>, AllocError>
    requires { to < hub.now.shape.sites }
    ensures { IfOk result (λ last. option_copied last ≡ last_made (made_for hub.now to)) }
{
    let Some(made) = beats_made(hub, to) else {
        return Err(AllocError);
    };
    Ok(hub.made_beat(to, made.saturating_sub(1)))
}

/// Whether the last beat that a hub made for another site is the one that it would make.
pub fn is_told(hub: &Hub, to: u16) -> Result<bool, AllocError>
    requires { to < hub.now.shape.sites }
    ensures { IfOk result (λ told. told ≡ is_told (last_made (made_for hub.now to)) (beat_for hub.now to)) }
{
    let beat = hub.beat(to)?;
    let last = last_beat(hub, to)?;
    Ok(is_one(last, &beat))
}

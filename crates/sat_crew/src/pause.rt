//! How long a worker waits between two tries, and between two passes.
use std::thread;
use std::time::{Clock, Duration};

// So many times in a row others only come to run. Then the wait begins at a microsecond, and doubles up to about a
// millisecond.
const YIELDS: u64 = 64;

const MOST_DOUBLINGS: u64 = 10;

// How long the wait behind a pass that did something is, in microseconds. What was written meanwhile goes into one
// gather.
const REST_MICROS: u64 = 128;

// So often it doubles behind passes that did nothing, up to about a millisecond.
const REST_DOUBLINGS: u64 = 3;

/// Lets others come to run, behind so many such pauses in a row: the first ones yield, and the later ones sleep, up to
/// 1.024 ms.
pub(crate) fn pause<R: Clock>(rt: &R, count: u64) {
    let Some(slept) = count.checked_sub(YIELDS) else {
        thread::yield_now();
        return;
    };
    let micros = 1u64 << slept.min(MOST_DOUBLINGS);
    thread::sleep(rt, Duration::from_micros(micros));
}

/// Waits behind a pass, of which so many in a row did nothing: 128 microseconds where none did so, twice as long for
/// each one more, up to 1.024 ms. A gather costs an entry of the hub and of each gear, so it is better one of many
/// writes than many of one.
pub(crate) fn rest<R: Clock>(rt: &R, quiet: u64) {
    let micros = REST_MICROS << quiet.min(REST_DOUBLINGS);
    thread::sleep(rt, Duration::from_micros(micros));
}

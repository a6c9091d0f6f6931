//! Whether a site's last beat for another one is the one that it would make.
ghost use Rattle.std.specs.Prelude.{◌≡◌, option_copied};
ghost use Rattle.sat_passes.specs.Sendings.{beat_eq, is_told, numbers_eq, points_eq};

use sat_beat::Beat;
use sat_label::Point;

fn same_points(a: &[Point], b: &[Point]) -> bool
    ensures { result ≡ points_eq a.now b.now }
{
    match (a.split_first(), b.split_first()) {
        (None, None) => true,
        (None, Some(_)) => false,
        (Some(_), None) => false,
        (Some((p, ps)), Some((q, qs))) => p.is_same(q) && same_points(ps, qs),
    }
}

fn same_numbers(a: &[u64], b: &[u64]) -> bool
    ensures { result ≡ numbers_eq a.now b.now }
{
    match (a.split_first(), b.split_first()) {
        (None, None) => true,
        (None, Some(_)) => false,
        (Some(_), None) => false,
        (Some((m, ms)), Some((n, ns))) => *m == *n && same_numbers(ms, ns),
    }
}

// Whether two beats are one.
fn same_beats(a: &Beat, b: &Beat) -> bool
    ensures { result ≡ beat_eq a.now b.now }
{
    a.cut.is_same(&b.cut)
        && (same_points(a.closes.as_slice(), b.closes.as_slice())
            && same_numbers(a.counts.as_slice(), b.counts.as_slice()))
}

/// Whether a beat is there and is this one.
pub fn is_one(last: Option<&Beat>, beat: &Beat) -> bool
    ensures { result ≡ is_told (option_copied last.entry) beat.now }
{
    match last {
        None => false,
        Some(last) => same_beats(last, beat),
    }
}

//! What a site asks of the best beats of the others, and of the points up to which it knows them.
ghost use Rattle.std.specs.Prelude.{◌≡◌, ◌<◌, ◌==◌, ◌||◌, length, map, option_copied, get_or};
ghost use Rattle.sat_label.specs.Least.{least_label, lesser};
ghost use Rattle.sat_label.specs.Order.{mark, point_le};
ghost use Rattle.sat_pool.specs.Pool.{labelled, labels_waiting, row_of, IsPool};
ghost use Rattle.sat_act.specs.Parts.{best_passes, closed_below, passed_label, passed_ts, reaches};
ghost use Rattle.sat_act.specs.Answers.{is_drained};
ghost use Rattle.sat_proxy.specs.Asks.{others};
ghost use Rattle.sat_proxy.specs.Helps.{in_view, known_to, told_by};

use crate::tells::{closes_below, has_passed, has_passed_ts, is_drained, is_up_to, reaches};
use sat_beat::Beats;
use sat_label::{Label, Point};
use sat_pool::Pool;

// ---- each other site is known up to a mark

// Whether it is the own site, or is known up to the mark of a timestamp.
fn is_known(last: &[Point], own: u16, ts: u64, site: u16) -> bool
    requires { site < length last.now }
    ensures { result ≡ ((site == own) || point_le (mark ts site) (known_to last.now site)) }
{
    site == own || is_up_to(&Point::mark(ts, site), &last[site as usize])
}

/// Whether each other site is known up to the mark of a timestamp.
#[tactic(auto, using(crate::proofs::Others::all_start, crate::proofs::Others::all_more, crate::proofs::Others::all_stops))]
pub fn are_known(last: &[Point], sites: u16, own: u16, ts: u64) -> bool
    requires { sites ≡ length last.now }
    ensures { result ≡ others sites own (λ i. point_le (mark ts i) (known_to last.now i)) }
{
    for site in 0..sites {
        if !is_known(last, own, ts, site) {
            return false;
        }
    }
    true
}

// ---- the best beat of each other site passes

// Whether it is the own site, or its best beat reaches a timestamp.
fn is_reached(beats: &Beats, own: u16, view: u16, ts: u64, site: u16) -> bool
    requires { site < length beats.now.rows }
    ensures { result ≡ ((site == own) || best_passes (told_by beats.now site) (reaches view ts site)) }
{
    if site == own {
        return true;
    }
    match beats.best(site) {
        None => false,
        Some(beat) => reaches(beat, view, ts, site),
    }
}

/// Whether the best beat of each other site reaches a timestamp.
#[tactic(auto, using(crate::proofs::Others::all_start, crate::proofs::Others::all_more, crate::proofs::Others::all_stops))]
pub fn are_reached(beats: &Beats, sites: u16, own: u16, view: u16, ts: u64) -> bool
    requires { sites ≡ length beats.now.rows }
    ensures { result ≡ others sites own (λ i. best_passes (told_by beats.now i) (reaches view ts i)) }
{
    for site in 0..sites {
        if !is_reached(beats, own, view, ts, site) {
            return false;
        }
    }
    true
}

// Whether it is the own site, or its best beat has passed a timestamp.
fn is_passed(beats: &Beats, own: u16, view: u16, ts: u64, site: u16) -> bool
    requires { site < length beats.now.rows }
    ensures { result ≡ ((site == own) || best_passes (told_by beats.now site) (passed_ts view ts site)) }
{
    if site == own {
        return true;
    }
    match beats.best(site) {
        None => false,
        Some(beat) => has_passed_ts(beat, view, ts, site),
    }
}

/// Whether the best beat of each other site has passed a timestamp.
#[tactic(auto, using(crate::proofs::Others::all_start, crate::proofs::Others::all_more, crate::proofs::Others::all_stops))]
pub fn are_passed(beats: &Beats, sites: u16, own: u16, view: u16, ts: u64) -> bool
    requires { sites ≡ length beats.now.rows }
    ensures { result ≡ others sites own (λ i. best_passes (told_by beats.now i) (passed_ts view ts i)) }
{
    for site in 0..sites {
        if !is_passed(beats, own, view, ts, site) {
            return false;
        }
    }
    true
}

// Whether it is the own site, or closed the view by its best beat, and of that nothing waits.
fn is_left(beats: &Beats, pool: &Pool, own: u16, view: u16, site: u16) -> bool
    requires { site < length beats.now.rows }
    ensures { result
        ≡ ((site == own) || best_passes (told_by beats.now site) (is_drained view (labels_waiting pool.now) site)) }
{
    if site == own {
        return true;
    }
    match beats.best(site) {
        None => false,
        Some(beat) => is_drained(beat, view, pool, site),
    }
}

/// Whether each other site closed the view by its best beat, and nothing up to its close cut waits.
#[tactic(auto, using(crate::proofs::Others::all_start, crate::proofs::Others::all_more, crate::proofs::Others::all_stops))]
pub fn are_drained(beats: &Beats, pool: &Pool, sites: u16, own: u16, view: u16) -> bool
    requires { sites ≡ length beats.now.rows }
    ensures { result
        ≡ others sites own (λ i. best_passes (told_by beats.now i) (is_drained view (labels_waiting pool.now) i)) }
{
    for site in 0..sites {
        if !is_left(beats, pool, own, view, site) {
            return false;
        }
    }
    true
}

// ---- the next in timestamp order

/// Whether the best beat of a label's own site has passed it.
pub fn own_passed(beats: &Beats, view: u16, label: &Label) -> bool
    requires { label.now.point.site < length beats.now.rows }
    ensures { result ≡ best_passes (told_by beats.now label.now.point.site) (passed_label view label.now) }
{
    match beats.best(label.point.site) {
        None => false,
        Some(beat) => has_passed(beat, view, label),
    }
}

// Whether a label is not past the view, by the best beat of its site.
fn is_in_view(beats: &Beats, view: u16, label: &Label) -> bool
    requires { label.now.point.site < length beats.now.rows }
    ensures { result ≡ in_view beats.now view label.now }
{
    match beats.best(label.point.site) {
        None => true,
        Some(beat) => !closes_below(beat, view, label),
    }
}

// The lesser of two labels, of which each may be missing.
fn lesser(left: Option<Label>, right: Option<Label>) -> Option<Label>
    ensures { result ≡ lesser left right }
{
    let Some(label) = left else {
        return right;
    };
    let Some(other) = right else {
        return left;
    };
    if label.is_below(&other) { left } else { right }
}

// The least waiting label of a site that is not past the view: the first, if any.
#[tactic(auto, using(crate::proofs::Candidates::no_candidate, crate::proofs::Candidates::first_candidate, crate::proofs::Candidates::past_candidate))]
fn candidate_of(beats: &Beats, pool: &Pool, view: u16, site: u16) -> Option<Label>
    requires { site < length beats.now.rows }
    ensures { result ≡ least_label (in_view beats.now view) (map labelled (row_of pool.now site)) }
{
    let first = pool.first(site)?;
    if is_in_view(beats, view, &first) {
        Some(first)
    } else {
        None
    }
}

/// The least waiting label that is not past the view. It looks at the first of each site alone.
#[tactic(auto, using(crate::proofs::Candidates::candidate_start, crate::proofs::Candidates::candidate_more, crate::proofs::Candidates::candidate_all))]
pub fn candidate(beats: &Beats, pool: &Pool, sites: u16, view: u16) -> Option<Label>
    requires beats { sites ≡ length beats.now.rows }
    requires pool { sites ≡ length pool.now.rows }
    ensures { result ≡ least_label (in_view beats.now view) (labels_waiting pool.now) }
{
    let mut least = None;
    for site in 0..sites {
        least = lesser(least, candidate_of(beats, pool, view, site));
    }
    least
}

//! The points up to which sites are known.
ghost use Rattle.std.specs.Prelude.{◌≡◌, ◌<◌, length, map, set, IfOk};
ghost use Rattle.sat_label.specs.Order.{greater_point};
ghost use Rattle.sat_label.specs.Words.{below};
ghost use Rattle.sat_act.specs.Parts.{known_by};
ghost use Rattle.sat_model.specs.Next.{raised};
ghost use Rattle.sat_proxy.specs.Proxy.{first_point};
ghost use Rattle.sat_proxy.specs.Helps.{cut_of, known_to, raised_to};

use crate::tells::close_in;
use sat_beat::Beats;
use sat_label::{Kind, Label, Point};
use std::alloc::{AllocError, Global};

/// So many sites of which nothing is known.
#[tactic(auto, using(crate::proofs::Raised::below_more))]
pub fn fresh_last(alloc: Global, sites: u16) -> Result<Vec<Point>, AllocError>
    ensures { IfOk result (λ last. last.items ≡ map first_point (below sites)) }
{
    let mut last = Vec::with_capacity(alloc, sites as usize)?;
    for site in 0..sites {
        last.push(Point {
            ts: 0,
            site,
            gear: 0,
        })?;
    }
    Ok(last)
}

// The point up to which a label tells of its site.
fn known_by(label: &Label) -> Point
    ensures { result ≡ known_by label.now }
{
    match label.kind {
        Kind::Pulse => Point::mark(label.point.ts, label.point.site),
        _ => label.point,
    }
}

/// A label's site is known up to it.
pub fn know(last: &mut [Point], label: &Label)
    requires { label.now.point.site < length last.old }
    ensures { last.new ≡ set last.old label.now.point.site
        (greater_point (known_by label.now) (known_to last.old label.now.point.site)) }
{
    let place = label.point.site as usize;
    let before = last[place];
    last[place] = known_by(label).greater(before);
}

// The close cut of an epoch: a site's own, or that in the best beat of another.
fn cut_of(beats: &Beats, own: u16, close: Option<Point>, epoch: u16, site: u16) -> Option<Point>
    requires { site < length beats.now.rows }
    ensures { result ≡ cut_of beats.now own close epoch site }
{
    if site == own {
        return close;
    }
    let beat = beats.best(site)?;
    close_in(beat, epoch)
}

// The greater of a point and another, if there is one.
fn raised(point: Point, other: Option<Point>) -> Point
    ensures { result ≡ raised point other }
{
    match other {
        None => point,
        Some(other) => other.greater(point),
    }
}

// A site is known up to a cut, if there is one.
fn raise(last: &mut [Point], site: u16, cut: Option<Point>)
    requires { site < length last.old }
    ensures { last.new ≡ set last.old site (raised (known_to last.old site) cut) }
{
    let before = last[site as usize];
    last[site as usize] = raised(before, cut);
}

/// Each site is known up to its close cut of an epoch.
#[tactic(auto, using(crate::proofs::Raised::raised_start, crate::proofs::Raised::raised_next, crate::proofs::Raised::raised_all))]
pub fn raise_all(
    last: &mut [Point],
    beats: &Beats,
    sites: u16,
    own: u16,
    close: Option<Point>,
    epoch: u16,
)
    requires last { sites ≡ length last.old }
    requires beats { sites ≡ length beats.now.rows }
    ensures { last.new ≡ map (raised_to last.old (cut_of beats.now own close epoch)) (below sites) }
{
    for site in 0..sites {
        raise(last, site, cut_of(beats, own, close, epoch, site));
    }
}

//! What a beat tells of a point, a label or a view.
ghost use Rattle.std.specs.Prelude.{◌≡◌};
ghost use Rattle.sat_label.specs.Order.{point_le};
ghost use Rattle.sat_pool.specs.Pool.{labels_waiting};
ghost use Rattle.sat_act.specs.Parts.{closed_below, passed_label, passed_ts, reaches};
ghost use Rattle.sat_act.specs.Answers.{is_drained};
ghost use Rattle.sat_proxy.specs.Proxy.{close_in, note_of};

use sat_beat::Beat;
use sat_label::{Label, Point};
use sat_pool::Pool;

/// Whether a point is another one or below it.
pub fn is_up_to(point: &Point, other: &Point) -> bool
    ensures { result ≡ point_le point.now other.now }
{
    point.is_below(other) || point.is_same(other)
}

/// The close cut of an epoch, if the beat has one.
pub fn close_in(beat: &Beat, epoch: u16) -> Option<Point>
    ensures { result ≡ close_in beat.now epoch }
{
    if epoch == 0 {
        return None;
    }
    let closes = beat.closes.as_slice();
    let close = closes.get(epoch as usize - 1)?;
    Some(*close)
}

/// Whether all of a site up to a timestamp is sent, and within the view if the site closed that.
pub fn reaches(beat: &Beat, view: u16, ts: u64, site: u16) -> bool
    ensures { result ≡ reaches view ts site (note_of beat.now) }
{
    let mark = Point::mark(ts, site);
    if !is_up_to(&mark, &beat.cut) {
        return false;
    }
    match close_in(beat, view) {
        None => true,
        Some(close) => is_up_to(&mark, &close),
    }
}

/// Whether all of a site up to a timestamp is sent, or the site closed the view.
pub fn has_passed_ts(beat: &Beat, view: u16, ts: u64, site: u16) -> bool
    ensures { result ≡ passed_ts view ts site (note_of beat.now) }
{
    is_up_to(&Point::mark(ts, site), &beat.cut) || close_in(beat, view).is_some()
}

/// Whether a label of the beat's site is sent, and within the view if the site closed that.
pub fn has_passed(beat: &Beat, view: u16, label: &Label) -> bool
    ensures { result ≡ passed_label view label.now (note_of beat.now) }
{
    match close_in(beat, view) {
        None => is_up_to(&label.point, &beat.cut),
        Some(close) => is_up_to(&label.point, &close),
    }
}

/// Whether the beat's site closed the view below a label.
pub fn closes_below(beat: &Beat, view: u16, label: &Label) -> bool
    ensures { result ≡ closed_below view label.now (note_of beat.now) }
{
    match close_in(beat, view) {
        None => false,
        Some(close) => close.is_below(&label.point),
    }
}

/// Whether the beat's site closed the view, and nothing that it made up to the close cut waits.
pub fn is_drained(beat: &Beat, view: u16, pool: &Pool, site: u16) -> bool
    ensures { result ≡ is_drained view (labels_waiting pool.now) site (note_of beat.now) }
{
    match close_in(beat, view) {
        None => false,
        Some(close) => !pool.has_up_to(site, &close),
    }
}

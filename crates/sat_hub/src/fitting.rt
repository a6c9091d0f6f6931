//! What the shape of a site says of what the site is handed.
ghost use Rattle.std.specs.Prelude.{◌≡◌, ◌<◌, ◌==◌, ◌&&◌, ◌||◌, not, get_or, is_some, length, true, slice_get, None};
ghost use Rattle.std.specs.List.{list_all};
ghost use Rattle.sat_label.specs.Grouped.{list_of};
ghost use Rattle.sat_label.specs.Words.{below};
ghost use Rattle.sat_sites.specs.Interested.{keeps, keeps_one, AreBelow, IsLabelOf};
ghost use Rattle.sat_gear.specs.Gear.{IsShape};
ghost use Rattle.sat_act.specs.Parts.{items_of};
ghost use Rattle.sat_model.specs.Fits.{is_time};
ghost use Rattle.sat_hub.specs.Seen.{has_parts_here};
ghost use Rattle.sat_hub.specs.Inputs.{is_beat_here, is_carried_here, is_cut_here, is_front_here, is_gear_here};
ghost use Rattle.sat_hub.specs.Inputs.{is_given_here, is_goal_here, is_group_here, is_guest_here, is_item_here};
ghost use Rattle.sat_hub.specs.Inputs.{is_kept_here, is_kind_here, is_other_here, is_own_here, is_own_kind_here};
ghost use Rattle.sat_hub.specs.Inputs.{is_point_here, is_site_here};
ghost use Rattle.sat_hub.specs.HubSteps.{has_target};

use sat_beat::Beat;
use sat_bulk::{Drained, Payload};
use sat_label::{Carried, Items, Kind, Label, Point, TS_END, Values};
use sat_sites::Shape;

/// Whether the site keeps an item.
pub fn is_here(shape: &Shape, item: u16) -> bool
    requires { item < length shape.now.interest.replicas }
    ensures { result ≡ keeps shape.now.interest item shape.now.site }
{
    shape.interest.replicas(item).has(shape.site)
}

/// Whether the site keeps each of some items.
pub fn keeps_all(shape: &Shape, items: &Items) -> bool
    requires { AreBelow (length shape.now.interest.replicas) (list_of items.now) }
    ensures { result ≡ list_all (λ n. keeps shape.now.interest n shape.now.site) (list_of items.now) }
{
    match *items {
        Items::One(a) => is_here(shape, a),
        Items::Two(a, b) => is_here(shape, a) && is_here(shape, b),
        Items::Three(a, b, c) => is_here(shape, a) && is_here(shape, b) && is_here(shape, c),
        Items::Four(a, b, c, d) => {
            is_here(shape, a) && is_here(shape, b) && is_here(shape, c) && is_here(shape, d)
        }
    }
}

// Whether the site keeps one of some items.
fn keeps_some(shape: &Shape, items: &Items) -> bool
    requires { AreBelow (length shape.now.interest.replicas) (list_of items.now) }
    ensures { result ≡ keeps_one shape.now.interest (list_of items.now) shape.now.site }
{
    match *items {
        Items::One(a) => is_here(shape, a),
        Items::Two(a, b) => is_here(shape, a) || is_here(shape, b),
        Items::Three(a, b, c) => is_here(shape, a) || is_here(shape, b) || is_here(shape, c),
        Items::Four(a, b, c, d) => {
            is_here(shape, a) || is_here(shape, b) || is_here(shape, c) || is_here(shape, d)
        }
    }
}

/// Whether a number is that of another site.
pub fn is_other(shape: &Shape, site: u16) -> bool
    ensures { result ≡ is_other_here shape.now site }
{
    site < shape.sites && site != shape.site
}

/// Whether a number is that of a gear.
pub fn is_gear(shape: &Shape, gear: u16) -> bool
    ensures { result ≡ is_gear_here shape.now gear }
{
    gear < shape.gears
}

/// Whether a number is that of an item.
pub fn is_item(shape: &Shape, item: u16) -> bool
    ensures { result ≡ is_item_here shape.now item }
{
    (item as usize) < shape.interest.items()
}

/// Whether a gear may be told to promise a timestamp.
pub fn is_tick(shape: &Shape, gear: u16, ts: u64) -> bool
    ensures { result ≡ (is_gear_here shape.now gear && is_time ts) }
{
    is_gear(shape, gear) && ts <= TS_END
}

fn is_point(shape: &Shape, point: &Point) -> bool
    ensures { result ≡ is_point_here shape.now point.now }
{
    point.ts <= TS_END && point.site < shape.sites
}

fn is_goal(shape: &Shape, goal: Option<u16>) -> bool
    ensures { result ≡ is_goal_here shape.now goal }
{
    match goal {
        None => true,
        Some(site) => site < shape.sites,
    }
}

/// Whether a client may carry this.
pub fn is_carried(shape: &Shape, carried: &Carried) -> bool
    ensures { result ≡ is_carried_here shape.now carried.now }
{
    carried.point.ts <= TS_END && carried.point.site < shape.sites && is_goal(shape, carried.moving)
}

/// Whether items are those of one update of the deployment.
pub fn is_group(shape: &Shape, items: &Items) -> bool
    ensures { result ≡ is_group_here shape.now items.now }
{
    items.ascend() && shape.interest.knows(items)
}

/// Whether a client may write this.
pub fn is_write(shape: &Shape, carried: &Carried, items: &Items, values: &Values) -> bool
    ensures { result ≡ (is_carried_here shape.now carried.now
        && (is_group_here shape.now items.now && (length values.now == length (list_of items.now)))) }
{
    is_carried(shape, carried) && is_group(shape, items) && values.as_slice().len() == items.len()
}

/// Whether a client may read this.
pub fn is_read(shape: &Shape, carried: &Carried, item: u16) -> bool
    ensures { result ≡ (is_carried_here shape.now carried.now && is_item_here shape.now item) }
{
    is_carried(shape, carried) && is_item(shape, item)
}

/// Whether a client may move to a site.
pub fn is_move(shape: &Shape, carried: &Carried, to: u16) -> bool
    ensures { result ≡ (is_carried_here shape.now carried.now && is_site_here shape.now to) }
{
    is_carried(shape, carried) && to < shape.sites
}

fn is_kind(shape: &Shape, view: u16, kind: Kind) -> bool
    ensures { result ≡ is_kind_here shape.now view kind }
{
    match kind {
        Kind::Update(items) => is_group(shape, &items),
        Kind::Move(site) => site < shape.sites,
        Kind::Pulse => true,
        Kind::Close(epoch) => epoch == view,
    }
}

/// Whether a label is one that another site sent, in this view.
pub fn is_front(shape: &Shape, view: u16, label: &Label) -> bool
    ensures { result ≡ is_front_here shape.now view label.now }
{
    label.point.ts <= TS_END
        && is_other(shape, label.point.site)
        && is_kind(shape, view, label.kind)
}

// The items of one update of the deployment, of which the site keeps one.
#[tactic(auto, using(sat_sites::proofs::Below::below_is))]
fn is_group_kept(shape: &Shape, items: &Items) -> bool
    ensures { result ≡ (is_group_here shape.now items.now
        && keeps_one shape.now.interest (list_of items.now) shape.now.site) }
{
    is_group(shape, items) && keeps_some(shape, items)
}

// An update of items of the deployment, of which the site keeps one.
fn is_kept(shape: &Shape, kind: Kind) -> bool
    ensures { result ≡ is_kept_here shape.now kind }
{
    match kind {
        Kind::Update(items) => is_group_kept(shape, &items),
        _ => false,
    }
}

fn is_guest(shape: &Shape, from: u16, label: &Label) -> bool
    ensures { result ≡ is_guest_here shape.now from label.now }
{
    label.point.ts <= TS_END && label.point.site == from && is_kept(shape, label.kind)
}

// Whether a payload has a part of this place, where the site keeps the item.
fn has_part(shape: &Shape, item: u16, payload: &Payload, place: usize) -> bool
    requires item { item < length shape.now.interest.replicas }
    requires place { place < length payload.now.values }
    ensures { result
        ≡ (not (keeps shape.now.interest item shape.now.site) || is_some (get_or payload.now.values place None)) }
{
    !is_here(shape, item) || payload.has(place)
}

// Whether a payload has as many parts as there are items, and a value for each item that the site keeps.
fn has_parts(shape: &Shape, items: &Items, payload: &Payload) -> bool
    requires { AreBelow (length shape.now.interest.replicas) (list_of items.now) }
    ensures { result ≡ has_parts_here shape.now (list_of items.now) payload.now.values }
{
    if payload.len() != items.len() {
        return false;
    }
    match *items {
        Items::One(a) => has_part(shape, a, payload, 0),
        Items::Two(a, b) => has_part(shape, a, payload, 0) && has_part(shape, b, payload, 1),
        Items::Three(a, b, c) => {
            has_part(shape, a, payload, 0)
                && has_part(shape, b, payload, 1)
                && has_part(shape, c, payload, 2)
        }
        Items::Four(a, b, c, d) => {
            has_part(shape, a, payload, 0)
                && has_part(shape, b, payload, 1)
                && has_part(shape, c, payload, 2)
                && has_part(shape, d, payload, 3)
        }
    }
}

// Whether a payload has as many parts as its label has items, and a value for each item that the site keeps.
fn is_whole(shape: &Shape, payload: &Payload) -> bool
    requires { is_kept_here shape.now payload.now.label.kind ≡ true }
    ensures { result ≡ has_parts_here shape.now (items_of payload.now.label.kind) payload.now.values }
{
    let Kind::Update(items) = payload.label().kind else {
        unreachable!()
    };
    has_parts(shape, &items, payload)
}

/// Whether a payload of a lane is an update that this other site made, of which the site keeps an item, with a value
/// for each item that it keeps.
pub fn is_bulk_guest(shape: &Shape, from: u16, payload: &Payload) -> bool
    ensures { result
        ≡ (is_guest_here shape.now from payload.now.label
        && has_parts_here shape.now (items_of payload.now.label.kind) payload.now.values) }
{
    let label = payload.label();
    is_guest(shape, from, &label) && is_whole(shape, payload)
}

// A close cut, if there is one.
fn is_cut(shape: &Shape, closes: &[Point], place: usize) -> bool
    ensures { result ≡ is_cut_here shape.now (slice_get closes.now place) }
{
    match closes.get(place) {
        None => true,
        Some(point) => is_point(shape, point),
    }
}

// Whether the close cut of each epoch is a point, if there is one.
#[tactic(auto, using(sat_epoch::proofs::AllBelow::all_start, sat_epoch::proofs::AllBelow::all_more, sat_epoch::proofs::AllBelow::all_stops))]
fn are_cuts(shape: &Shape, epochs: u16, closes: &[Point]) -> bool
    ensures { result ≡ list_all (λ n. is_cut_here shape.now (slice_get closes.now n)) (below epochs) }
{
    for place in 0..epochs as usize {
        if !is_cut(shape, closes, place) {
            return false;
        }
    }
    true
}

/// Whether a beat has points alone, for so many epochs.
pub fn is_beat(shape: &Shape, epochs: u16, beat: &Beat) -> bool
    ensures { result ≡ is_beat_here shape.now epochs beat.now }
{
    is_point(shape, &beat.cut) && are_cuts(shape, epochs, beat.closes.as_slice())
}

// Whether a kind is that of an update or of a move, which is not for the site itself.
fn is_own_kind(shape: &Shape, kind: Kind) -> bool
    ensures { result ≡ is_own_kind_here shape.now kind }
{
    match kind {
        Kind::Update(items) => shape.interest.knows(&items),
        Kind::Move(site) => is_other(shape, site),
        _ => false,
    }
}

/// Whether a label is one that the site made: an update or a move, which is not for itself.
pub fn is_own(shape: &Shape, label: &Label) -> bool
    ensures { result ≡ is_own_here shape.now label.now }
{
    label.point.site == shape.site && is_own_kind(shape, label.kind)
}

// Whether labels are ones that the site made.
fn are_own(shape: &Shape, labels: &[Label]) -> bool
    ensures { result ≡ list_all (is_own_here shape.now) labels.now }
{
    labels.iter().all(|label| is_own(shape, label))
}

/// Whether a gear of the site may give this: labels that the site made, and one count for each site.
pub fn is_given(shape: &Shape, given: &Drained) -> bool
    ensures { result ≡ is_given_here shape.now given.now }
{
    are_own(shape, given.labels.as_slice()) && given.counts.as_slice().len() == shape.sites as usize
}

/// Whether gears of the site may give these.
pub fn are_given(shape: &Shape, drained: &[Drained]) -> bool
    ensures { result ≡ list_all (is_given_here shape.now) drained.now }
{
    drained.iter().all(|given| is_given(shape, given))
}

/// Whether a label is for some site.
pub fn is_for_some(shape: &Shape, label: &Label) -> bool
    requires shape { IsShape shape.now }
    requires label { IsLabelOf shape.now.interest label.now }
    ensures { result ≡ has_target shape.now label.now }
{
    let targets = shape.interest.targets(label);
    targets.meets(&targets)
}

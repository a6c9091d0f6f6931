//! Whether a sink may be handed what gears gave.
ghost use Rattle.std.specs.Prelude.{◌≡◌, get_or};
ghost use Rattle.std.specs.Bool.{Decides};
ghost use Rattle.sat_label.specs.Members.{is_made};
ghost use Rattle.sat_sink.specs.Sink.{are_new, is_new, IsDrainOf, Sink};

use sat_bulk::Drained;
use sat_label::{Kind, Label};

// Whether gears make labels of a kind.
fn is_made_kind(kind: &Kind) -> bool
    ensures { result ≡ is_made kind.now }
{
    match kind {
        Kind::Update(_) => true,
        Kind::Move(_) => true,
        Kind::Pulse => false,
        Kind::Close(_) => false,
    }
}

// Whether a label is a made one of a site and a gear, above one timestamp and up to another.
fn is_new_label(label: &Label, site: u16, gear: u16, low: u64, high: u64) -> bool
    ensures { result ≡ is_new site gear low high label.now }
{
    let point = label.point;
    point.site == site
        && point.gear == gear
        && is_made_kind(&label.kind)
        && low < point.ts
        && point.ts <= high
}

// Whether labels are made ones of a site and a gear, each above the one before, the first above one timestamp and all
// up to another.
fn rise_from(labels: &[Label], site: u16, gear: u16, low: u64, high: u64) -> bool
    ensures { result ≡ are_new site gear high labels.now low }
{
    let mut last = low;
    for label in labels {
        if !is_new_label(label, site, gear, last, high) {
            return false;
        }
        last = label.point.ts;
    }
    true
}

/// Whether a gear of a site gave this, where this promise of it was gathered.
pub fn goes_on(given: &Drained, site: u16, gear: u16, promise: u64) -> bool
    ensures { (s : Sink) → s.site ≡ site → get_or s.promises gear 0 ≡ promise
        → Decides result (IsDrainOf s gear given.now) }
{
    promise <= given.promise
        && rise_from(given.labels.as_slice(), site, gear, promise, given.promise)
}

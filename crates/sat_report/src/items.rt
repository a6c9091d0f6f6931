//! The names of those of an update's items that the site of an act keeps.
ghost use Rattle.std.specs.Prelude.{◌≡◌, ◌+◌, ◌++◌, ◌≤◌, IfSome, Some, length, drop};
ghost use Rattle.sat_label.specs.Grouped.{list_of};
ghost use Rattle.sat_label.specs.declared.items.Items.TheVariants.{One};
ghost use Rattle.sat_label.specs.declared.label.Kind.TheVariants.{Update};
ghost use Rattle.sat_act.specs.Done.{at_site};
ghost use Rattle.sat_act.specs.Parts.{replicates};
ghost use Rattle.sat_report.specs.Texts.{kept_names, names_at, names_of_items};
ghost use Rattle.sat_report.specs.Frames.{next_name, next_names};

use crate::line::{LONG_LINE_BYTES, write_byte, write_slice};
use crate::text::{item_name, short_name};
use sat_act::{Act, Deployment};
use sat_label::{Items, Kind};

/// The site that an act of a site is at: of a payload, and of a beat that comes in, the one that takes it.
pub fn at_site(act: &Act) -> Option<u16>
    ensures { result ≡ at_site act.now }
{
    match act {
        Act::Gather { site } => Some(*site),
        Act::Emit { site } => Some(*site),
        Act::Pulse { site } => Some(*site),
        Act::Turn { site } => Some(*site),
        Act::Stamp { site } => Some(*site),
        Act::Close { site } => Some(*site),
        Act::Fall { site } => Some(*site),
        Act::Advance { site } => Some(*site),
        Act::Bulk { to, .. } => Some(*to),
        Act::BeatIn { to, .. } => Some(*to),
        _ => None,
    }
}

/// The site that a payload comes to. Of other acts it says nothing.
#[inline(always)]
pub(crate) fn brought_at(act: &Act) -> Option<u16>
    ensures { IfSome result (λ site. at_site act.now ≡ Some site) }
{
    match act {
        Act::Bulk { to, .. } => Some(*to),
        _ => None,
    }
}

/// The site of an act by which an update is shown. Of other acts it says nothing.
#[inline(always)]
pub(crate) fn shown_at(act: &Act) -> Option<u16>
    ensures { IfSome result (λ site. at_site act.now ≡ Some site) }
{
    match act {
        Act::Turn { site } => Some(*site),
        Act::Stamp { site } => Some(*site),
        _ => None,
    }
}

/// Whether a site keeps an item.
#[tactic(auto, unfolding(sat_act::specs::Parts::replicates))]
pub(crate) fn replicates(d: &Deployment, item: u16, site: u16) -> bool
    ensures { result ≡ replicates d.now item site }
{
    match d.items().get(item as usize) {
        Some(item) => item.replicas.has(site),
        None => false,
    }
}

/// The name of the item of an update of one, if a site keeps it, else nothing.
#[tactic(auto, unfolding(crate::specs::Texts::item_name, crate::specs::Texts::names_of_items, sat_act::specs::Parts::replicates))]
#[inline(always)]
pub(crate) fn kept_name(d: &Deployment, site: u16, item: u16) -> &[u8]
    ensures name { result.now ≡ names_of_items d.now site (Update (One item)) }
    ensures short { length result.now ≤ 32 }
{
    match d.items().get(item as usize) {
        Some(item) => {
            if item.replicas.has(site) {
                short_name(&item.name)
            } else {
                &[]
            }
        }
        None => &[],
    }
}

// A comma and an item's name, if a site keeps it.
fn write_next_name(
    d: &Deployment,
    site: u16,
    item: u16,
    text: &mut [u8; LONG_LINE_BYTES],
    end: usize,
) -> usize
    requires { (33 ≤ end) × (end ≤ 224) }
    ensures near { end ≤ result + 33 }
    ensures start { result ≤ end }
    ensures written { drop result text.new ≡ next_name d.now site item ++ drop end text.old }
{
    if !replicates(d, item, site) {
        return end;
    }
    let at = write_slice(item_name(d, item), text, end);
    write_byte(b',', text, at)
}

// The same of each item.
fn write_next_names(
    d: &Deployment,
    site: u16,
    items: Items,
    text: &mut [u8; LONG_LINE_BYTES],
    end: usize,
) -> usize
    requires { (132 ≤ end) × (end ≤ 224) }
    ensures near { end ≤ result + 132 }
    ensures start { result ≤ end }
    ensures written { drop result text.new ≡ next_names d.now site (list_of items) (drop end text.old) }
{
    match items {
        Items::One(a) => write_next_name(d, site, a, text, end),
        Items::Two(a, b) => {
            let at = write_next_name(d, site, b, text, end);
            write_next_name(d, site, a, text, at)
        }
        Items::Three(a, b, c) => {
            let at = write_next_name(d, site, c, text, end);
            let at = write_next_name(d, site, b, text, at);
            write_next_name(d, site, a, text, at)
        }
        Items::Four(a, b, c, e) => {
            let at = write_next_name(d, site, e, text, end);
            let at = write_next_name(d, site, c, text, at);
            let at = write_next_name(d, site, b, text, at);
            write_next_name(d, site, a, text, at)
        }
    }
}

// The names of those items that a site keeps, separated by commas: the first one loses its comma.
fn write_kept_names(
    d: &Deployment,
    site: u16,
    items: Items,
    text: &mut [u8; LONG_LINE_BYTES],
    end: usize,
) -> usize
    requires { (132 ≤ end) × (end ≤ 224) }
    ensures near { end ≤ result + 132 }
    ensures start { result ≤ end }
    ensures written { drop result text.new ≡ kept_names d.now site (list_of items) ++ drop end text.old }
{
    let at = write_next_names(d, site, items, text, end);
    if at < end { at + 1 } else { at }
}

#[tactic(auto, unfolding(crate::specs::Texts::names_of_items))]
fn write_names_of_items(
    d: &Deployment,
    site: u16,
    kind: Kind,
    text: &mut [u8; LONG_LINE_BYTES],
    end: usize,
) -> usize
    requires { (132 ≤ end) × (end ≤ 224) }
    ensures near { end ≤ result + 132 }
    ensures start { result ≤ end }
    ensures written { drop result text.new ≡ names_of_items d.now site kind ++ drop end text.old }
{
    match kind {
        Kind::Update(items) => write_kept_names(d, site, items, text, end),
        _ => end,
    }
}

/// The names of those of an update's items that a site keeps, where there is one.
pub(crate) fn write_names(
    d: &Deployment,
    site: Option<u16>,
    kind: Kind,
    text: &mut [u8; LONG_LINE_BYTES],
    end: usize,
) -> usize
    requires { (132 ≤ end) × (end ≤ 224) }
    ensures near { end ≤ result + 132 }
    ensures start { result ≤ end }
    ensures written { drop result text.new ≡ names_at d.now site kind ++ drop end text.old }
{
    match site {
        Some(site) => write_names_of_items(d, site, kind, text, end),
        None => end,
    }
}

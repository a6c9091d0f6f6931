//! The verdicts on causes and on showing once: one pass over the entries.
ghost use Rattle.std.specs.Prelude.{◌≡◌, ◌≢◌, ◌≤◌, ◌<◌, ◌-◌, ◌&&◌, ◌==◌, not, true, ℕ, Some, None, [], get_or, length};
ghost use Rattle.std.specs.Prelude.{map, reverse, IfOk, IsTrue};
ghost use Rattle.sat_label.specs.Words.{bit};
ghost use Rattle.sat_label.specs.Grouped.{list_of};
ghost use Rattle.sat_verdict.specs.declared.limits.TheConstants.{MOST_ENTRIES};
ghost use Rattle.sat_verdict.specs.Goals.{no_sites, replicates};
ghost use Rattle.sat_verdict.specs.Verdicts.{IsCausalVerdict, IsOnceVerdict};
ghost use Rattle.sat_verdict.specs.Found.{any_kept, first, first_lack, first_again};
ghost use Rattle.sat_verdict.specs.Tables.{number_in, AreRows, AreUnshown, HasClients, IsUnique};
ghost use Rattle.sat_verdict.specs.Walks.{IsClear, Linked};
ghost use Rattle.sat_verdict.specs.Passes.{AreKeptTo, HasSites, kept_of, site_of, table_causal, table_once};

use crate::Tale;
use crate::links::Links;
use crate::row::Row;
use crate::scans::{least_lack, set_at};
use crate::walks::is_clear;
use sat_label::{Items, SiteSet};
use std::alloc::{AllocError, Global};

/// The sites that keep an item.
fn kept_at(sets: &[SiteSet], item: u16) -> SiteSet
    ensures { (k : ℕ) → bit result.bits k ≡ replicates sets.now item k }
{
    set_at(sets, item as usize)
}

/// The sites that keep one of some items.
fn kept_items(sets: &[SiteSet], items: &Items) -> SiteSet
    ensures { (k : ℕ) → bit result.bits k ≡ any_kept sets.now k (list_of items.now) }
{
    match *items {
        Items::One(a) => kept_at(sets, a),
        Items::Two(a, b) => kept_at(sets, a).plus(&kept_at(sets, b)),
        Items::Three(a, b, c) => {
            kept_at(sets, a).plus(&kept_at(sets, b).plus(&kept_at(sets, c)))
        }
        Items::Four(a, b, c, d) => kept_at(sets, a).plus(&kept_at(sets, b).plus(&kept_at(
            sets, c,
        ).plus(&kept_at(sets, d)))),
    }
}

/// The sites that keep an item of what an entry wrote.
fn kept_of(sets: &[SiteSet], entry: &Tale) -> SiteSet
    ensures { (k : ℕ) → bit result.bits k ≡ kept_of sets.now k entry.now }
{
    match entry {
        Tale::Wrote { items, .. } => kept_items(sets, items),
        _ => SiteSet::none(),
    }
}

/// For each entry the sites that keep what it wrote.
fn kept_sites(alloc: Global, sets: &[SiteSet], tales: &[Tale]) -> Result<Vec<SiteSet>, AllocError>
    ensures size { IfOk result (λ kept. length kept.items ≡ length tales.now) }
    ensures kept { IfOk result (λ kept. AreKeptTo sets.now tales.now kept.items (length tales.now)) }
{
    let mut kept = Vec::new(alloc);
    for entry in tales {
        kept.push(kept_of(sets, entry))?;
    }
    Ok(kept)
}

/// What was found first, or the first cause that this entry's site lacks.
fn next_causal(
    causal: Option<(u64, u64, u16)>,
    clear: bool,
    tales: &[Tale],
    numbers: &[u16],
    rows: &[Row],
    unshown: &[SiteSet],
    site: Option<u16>,
    place: u16,
    number: u16,
) -> Option<(u64, u64, u16)>
    requires few { length tales.now ≤ MOST_ENTRIES }
    requires numbers { length numbers.now ≡ length tales.now }
    requires clear { IsTrue clear → IsClear tales.now numbers.now rows.now unshown.now site number }
    ensures { result ≡ first causal (table_causal tales.now numbers.now rows.now unshown.now place number site) }
{
    if causal.is_some() {
        return causal;
    }
    if clear {
        return None;
    }
    match site {
        Some(site) => {
            if number == 0 {
                None
            } else {
                match least_lack(tales, numbers, rows, unshown, number as usize - 1, site) {
                    Some(maker) => Some((place as u64 + 1, maker as u64, site)),
                    None => None,
                }
            }
        }
        None => None,
    }
}

/// What was found first, or this entry if it shows again or what its site does not keep.
fn next_once(
    once: Option<u64>,
    unshown: &[SiteSet],
    site: Option<u16>,
    place: u16,
    number: u16,
) -> Option<u64>
    ensures { result ≡ first once (table_once unshown.now place number site) }
{
    if once.is_some() {
        return once;
    }
    match site {
        Some(site) => {
            if number == 0 {
                Some(place as u64 + 1)
            } else if set_at(unshown, number as usize - 1).has(site) {
                None
            } else {
                Some(place as u64 + 1)
            }
        }
        None => None,
    }
}

/// Takes a site from those that did not show what an entry made.
fn show(unshown: &mut Vec<SiteSet>, site: Option<u16>, number: u16)
    ensures falls { (i j : ℕ) → bit (get_or unshown.new.items i no_sites).bits j ≡ true
        → bit (get_or unshown.old.items i no_sites).bits j ≡ true }
    ensures size { length unshown.new.items ≡ length unshown.old.items }
    ensures unmade { number ≡ 0 → unshown.new.items ≡ unshown.old.items }
    ensures still { site ≡ None → unshown.new.items ≡ unshown.old.items }
    ensures apart { (i : ℕ) → i ≢ number - 1 → get_or unshown.new.items i no_sites
        ≡ get_or unshown.old.items i no_sites }
    ensures here { (k j : ℕ) → site ≡ Some k → k < 64 → 0 < number → number ≤ length unshown.old.items
        → bit (get_or unshown.new.items (number - 1) no_sites).bits j
        ≡ (bit (get_or unshown.old.items (number - 1) no_sites).bits j && not (j == k)) }
{
    if let Some(site) = site {
        if site < 64 && number > 0 && number as usize <= unshown.len() {
            let place = number as usize - 1;
            let sites = set_at(unshown.as_slice(), place);
            unshown[place] = sites.minus(&SiteSet::one(site));
        }
    }
}

/// For each of 64 sites the place of each client's first entry.
fn done_of(alloc: Global, heads: &[u16]) -> Result<Vec<Row>, AllocError>
    ensures { IfOk result (λ done. (k : ℕ) → k < length done.items → get_or done.items k [] ≡ heads.now) }
{
    let mut done = Vec::new(alloc);
    for _ in 0..64usize {
        done.push(Row::of(alloc, heads)?)?;
    }
    Ok(done)
}

/// What a pass over the entries found.
#[derive(Clone, Copy)]
pub struct Judged {
    /// The first entry that lacks a cause, the one that made it, and the site.
    pub causal: Option<(u64, u64, u16)>,
    /// The first entry that shows again, or what its site does not keep.
    pub once: Option<u64>,
}

/// Whether each site showed causes first, and each update once.
pub fn judge_shows(
    alloc: Global,
    sets: &[SiteSet],
    tales: &[Tale],
    numbers: &[u16],
    rows: &[Row],
    links: &Links,
    clients: u16,
) -> Result<Judged, AllocError>
    requires few { length tales.now ≤ MOST_ENTRIES }
    requires numbers { numbers.now ≡ map (number_in (reverse tales.now)) tales.now }
    requires rows { AreRows tales.now clients rows.now }
    requires links { Linked tales.now clients links.now.heads.items links.now.next.items 0 }
    requires clients { HasClients clients tales.now }
    requires sites { HasSites tales.now }
    requires unique { IsUnique (reverse tales.now) }
    ensures causal { IfOk result (λ found. IsCausalVerdict sets.now (reverse tales.now) found.causal) }
    ensures once { IfOk result (λ found. IsOnceVerdict sets.now (reverse tales.now) found.once) }
{
    let mut unshown = kept_sites(alloc, sets, tales)?;
    let mut done = done_of(alloc, links.heads.as_slice())?;
    let next = links.next.as_slice();
    let mut causal = None;
    let mut once = None;
    for (place, entry) in tales.iter().enumerate() {
        let site = entry.site();
        let number = numbers[place];
        let clear = is_clear(
            &mut done,
            tales,
            numbers,
            next,
            rows,
            unshown.as_slice(),
            site,
            number,
        );
        causal = next_causal(
            causal,
            clear,
            tales,
            numbers,
            rows,
            unshown.as_slice(),
            site,
            place as u16,
            number,
        );
        once = next_once(once, unshown.as_slice(), site, place as u16, number);
        show(&mut unshown, site, number);
    }
    Ok(Judged { causal, once })
}

//! What each site holds in the end.
ghost use Rattle.std.specs.Prelude.{◌≡◌, ◌++◌, [], ◌∷◌, ◌<◌, ℕ, List, OnOk, OnErr, length, codes, None, Some};
ghost use Rattle.std.specs.Prelude.{MatchOption};
ghost use Rattle.std.specs.Fmt.{decimal};
ghost use Rattle.sat_act.specs.declared.entry.Entry.{Entry};
ghost use Rattle.sat_act.specs.Parts.{version};
ghost use Rattle.sat_act.specs.Runs.{IsRun};
ghost use Rattle.sat_world.specs.Stands.{StandsFor};
ghost use Rattle.sat_world.specs.Shows.{IsVersion};
ghost use Rattle.sat_report.specs.Fronts.{Keeps};
ghost use Rattle.sat_report.specs.Texts.{item_name, label_text};
ghost use Rattle.sat_report.specs.Holdings.{mode_word, site_text, site_line, held_text, item_line, item_lines};
ghost use Rattle.sat_report.specs.Holdings.{site_lines, holdings};

use crate::items::replicates;
use crate::text::{append_point, append_with_number, item_name};
use sat_act::Deployment;
use sat_world::{SiteView, Version, World};
use std::alloc::AllocError;

fn mode_word(stamp: bool) -> &'static str
    ensures { result.now ≡ mode_word stamp }
{
    if stamp { "stamp" } else { "tree" }
}

// `site I view V emission E`
fn append_epochs(site: u16, view: u16, emission: u16, out: &mut Vec<u8>) -> Result<(), AllocError>
    ensures ok { OnOk result (out.new.items ≡ out.old.items
        ++ (codes "site "
        ++ (decimal site ++ (codes " view " ++ (decimal view ++ (codes " emission " ++ decimal emission)))))) }
    ensures err { OnErr result (Keeps out.old.items out.new.items) }
{
    append_with_number(b"site ", u64::from(site), out)?;
    append_with_number(b" view ", u64::from(view), out)?;
    append_with_number(b" emission ", u64::from(emission), out)
}

// ` MODE waiting W` and the line's end
fn append_mode(stamp: bool, waiting: u64, out: &mut Vec<u8>) -> Result<(), AllocError>
    ensures ok { OnOk result (out.new.items ≡ out.old.items ++ 32
        ∷ (mode_word stamp ++ (codes " waiting " ++ (decimal waiting ++ 10 ∷ [])))) }
    ensures err { OnErr result (Keeps out.old.items out.new.items) }
{
    out.push(b' ')?;
    out.extend_from_slice(mode_word(stamp).as_bytes())?;
    append_with_number(b" waiting ", waiting, out)?;
    out.push(b'\n')?;
    Ok(())
}

fn append_view(site: u16, seen: SiteView, out: &mut Vec<u8>) -> Result<(), AllocError>
    ensures ok { OnOk result (out.new.items ≡ out.old.items
        ++ site_text site seen.view seen.emission seen.stamp seen.waiting) }
    ensures err { OnErr result (Keeps out.old.items out.new.items) }
{
    append_epochs(site, seen.view, seen.emission, out)?;
    append_mode(seen.stamp, seen.waiting, out)
}

#[tactic(auto, using(crate::proofs::Fronts::keeps_on), unfolding(crate::specs::Holdings::site_line))]
fn append_site(world: &World, site: u16, out: &mut Vec<u8>) -> Result<(), AllocError>
    requires { site < world.now.deployment.sites }
    ensures ok { OnOk result ((h : List Entry) → IsRun world.now.deployment h → StandsFor world.now h
        → out.new.items ≡ out.old.items ++ site_line world.now.deployment h site) }
    ensures keeps { Keeps out.old.items out.new.items }
{
    append_view(site, world.site(site), out)
}

fn append_version(version: &Version, out: &mut Vec<u8>) -> Result<(), AllocError>
    ensures ok { OnOk result (out.new.items ≡ out.old.items
        ++ (label_text version.now.label ++ 32 ∷ version.now.value)) }
    ensures err { OnErr result (Keeps out.old.items out.new.items) }
{
    append_point(&version.label().point, out)?;
    out.push(b' ')?;
    out.extend_from_slice(version.value().bytes())
}

// A version and its value, or `none`.
#[tactic(auto, unfolding(crate::specs::Holdings::held_text))]
fn append_held(
    site: u16,
    item: u16,
    found: Option<&Version>,
    out: &mut Vec<u8>,
) -> Result<(), AllocError>
    ensures ok { OnOk result ((h : List Entry)
        → MatchOption found.entry (version h site item ≡ None) (λ v. IsVersion h site item v.now)
        → out.new.items ≡ out.old.items ++ held_text h site item) }
    ensures keeps { Keeps out.old.items out.new.items }
{
    match found {
        None => out.extend_from_slice(b"none"),
        Some(version) => append_version(version, out),
    }
}

// `item NAME `
fn append_name(d: &Deployment, item: u16, out: &mut Vec<u8>) -> Result<(), AllocError>
    ensures ok { OnOk result (out.new.items ≡ out.old.items ++ (codes "item " ++ (item_name d.now item ++ 32 ∷ []))) }
    ensures err { OnErr result (Keeps out.old.items out.new.items) }
{
    out.extend_from_slice(b"item ")?;
    out.extend_from_slice(item_name(d, item))?;
    out.push(b' ')?;
    Ok(())
}

// The line of an item at a site that keeps it.
#[tactic(auto, using(crate::proofs::Fronts::keeps_on), unfolding(crate::specs::Holdings::item_line))]
fn append_item(world: &World, site: u16, item: u16, out: &mut Vec<u8>) -> Result<(), AllocError>
    requires site { site < world.now.deployment.sites }
    requires item { item < length world.now.deployment.items }
    ensures ok { OnOk result ((h : List Entry) → IsRun world.now.deployment h → StandsFor world.now h
        → out.new.items ≡ out.old.items ++ item_line world.now.deployment h site item) }
    ensures keeps { Keeps out.old.items out.new.items }
{
    let d = world.deployment();
    if !replicates(d, item, site) {
        return Ok(());
    }
    append_name(d, item, out)?;
    append_held(site, item, world.version(site, item), out)?;
    out.push(b'\n')?;
    Ok(())
}

#[tactic(auto, using(crate::proofs::Lines::more_items, crate::proofs::Fronts::keeps_on), unfolding(crate::specs::Holdings::item_lines))]
fn append_items(world: &World, site: u16, out: &mut Vec<u8>) -> Result<(), AllocError>
    requires { site < world.now.deployment.sites }
    ensures ok { OnOk result ((h : List Entry) → IsRun world.now.deployment h → StandsFor world.now h
        → out.new.items ≡ out.old.items ++ item_lines world.now.deployment h site (length world.now.deployment.items)) }
    ensures keeps { Keeps out.old.items out.new.items }
{
    for item in 0..world.deployment().items().len() as u16 {
        append_item(world, site, item, out)?;
    }
    Ok(())
}

#[tactic(auto, using(crate::proofs::Lines::more_sites, crate::proofs::Fronts::keeps_on), unfolding(crate::specs::Holdings::site_lines))]
fn append_sites(world: &World, out: &mut Vec<u8>) -> Result<(), AllocError>
    ensures ok { OnOk result ((h : List Entry) → IsRun world.now.deployment h → StandsFor world.now h
        → out.new.items ≡ out.old.items ++ site_lines world.now.deployment h world.now.deployment.sites) }
    ensures keeps { Keeps out.old.items out.new.items }
{
    for site in 0..world.deployment().sites() {
        append_site(world, site, out)?;
        append_items(world, site, out)?;
    }
    Ok(())
}

#[tactic(auto, using(crate::proofs::Fronts::keeps_on), unfolding(crate::specs::Holdings::holdings))]
fn append_holdings(world: &World, out: &mut Vec<u8>) -> Result<(), AllocError>
    ensures ok { OnOk result ((h : List Entry) → IsRun world.now.deployment h → StandsFor world.now h
        → out.new.items ≡ out.old.items ++ holdings world.now.deployment h) }
    ensures keeps { Keeps out.old.items out.new.items }
{
    out.extend_from_slice(b"holdings\n")?;
    append_sites(world, out)?;
    out.extend_from_slice(b"done\n")
}

/// Appends what each site holds: a line for the site and one for each item that it keeps. For want of memory `out` is
/// as before.
pub fn write_holdings(world: &World, out: &mut Vec<u8>) -> Result<(), AllocError>
    ensures ok { OnOk result ((h : List Entry) → IsRun world.now.deployment h → StandsFor world.now h
        → out.new.items ≡ out.old.items ++ holdings world.now.deployment h) }
    ensures err { OnErr result (out.new.items ≡ out.old.items) }
{
    let length = out.len();
    let written = append_holdings(world, out);
    if written.is_err() {
        out.truncate(length);
    }
    written
}

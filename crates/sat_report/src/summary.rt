//! The summary of the run of a large script.
ghost use Rattle.std.specs.Prelude.{◌≡◌, ◌++◌, ◌+◌, ◌<◌, length, ℕ, List, IfOk, OnOk, OnErr};
ghost use Rattle.sat_act.specs.declared.entry.Entry.{Entry};
ghost use Rattle.sat_act.specs.Parts.{view, waiting};
ghost use Rattle.sat_act.specs.Runs.{IsRun};
ghost use Rattle.sat_act.specs.Settling.{capped};
ghost use Rattle.sat_rest.specs.Ends.{wrote_count};
ghost use Rattle.sat_world.specs.Counts.{shown_count};
ghost use Rattle.sat_world.specs.Underway.{underway};
ghost use Rattle.sat_world.specs.Stands.{StandsFor};
ghost use Rattle.sat_report.specs.Summary.{asked_line, number_line, counts_text, waiting_count, views_text, summary};

use sat_world::World;
use std::alloc::{AllocError, Global};

// What was asked.
fn asked_line(alloc: Global, seed: u64, n: u32) -> Result<Vec<u8>, AllocError>
    ensures { IfOk result (λ line. line.items ≡ asked_line seed n) }
{
    let line = format!(in alloc; "load {seed} {n}\n")?;
    Ok(line.into_bytes())
}

// A word and a number.
fn number_line(alloc: Global, word: &str, number: u64) -> Result<Vec<u8>, AllocError>
    ensures { IfOk result (λ line. line.items ≡ number_line word.now number) }
{
    let line = format!(in alloc; "{word} {number}\n")?;
    Ok(line.into_bytes())
}

fn counts_text(
    alloc: Global,
    written: u64,
    shown: u64,
    waiting: u64,
    underway: u64,
) -> Result<Vec<u8>, AllocError>
    ensures { IfOk result (λ text. text.items ≡ counts_text written shown waiting underway) }
{
    let mut text = number_line(alloc, "written", written)?;
    let shown = number_line(alloc, "shown", shown)?;
    text.extend_from_slice(shown.as_slice())?;
    let waiting = number_line(alloc, "waiting", waiting)?;
    text.extend_from_slice(waiting.as_slice())?;
    let underway = number_line(alloc, "underway", underway)?;
    text.extend_from_slice(underway.as_slice())?;
    Ok(text)
}

// The payloads that wait at all sites.
#[tactic(auto, using(crate::proofs::Counts::none_wait, crate::proofs::Counts::more_wait))]
fn waiting(world: &World) -> u64
    ensures { (h : List Entry) → IsRun world.now.deployment h → StandsFor world.now h
        → result ≡ capped (waiting_count h world.now.deployment.sites) }
{
    let mut waiting = 0u64;
    for site in 0..world.deployment().sites() {
        waiting = waiting.saturating_add(world.site(site).waiting);
    }
    waiting
}

// The views of the sites, in order.
#[tactic(auto, using(crate::proofs::Counts::no_views, crate::proofs::Counts::more_views))]
fn views_text(alloc: Global, world: &World) -> Result<Vec<u8>, AllocError>
    ensures { IfOk result (λ text. (h : List Entry) → IsRun world.now.deployment h → StandsFor world.now h
        → text.items ≡ views_text h world.now.deployment.sites) }
{
    let mut text = b"views".to_vec(alloc)?;
    for site in 0..world.deployment().sites() {
        let view = world.site(site).view;
        let word = format!(in alloc; " {view}")?;
        text.extend_from_slice(word.as_bytes())?;
    }
    Ok(text)
}

// The summary, where so many updates were written.
#[tactic(auto, unfolding(crate::specs::Summary::summary))]
fn summary(
    alloc: Global,
    world: &World,
    seed: u64,
    count: u32,
    written: u64,
) -> Result<Vec<u8>, AllocError>
    ensures { IfOk result (λ text. (h : List Entry) → IsRun world.now.deployment h → StandsFor world.now h
        → written ≡ wrote_count h
        → text.items ≡ summary world.now.deployment h seed count) }
{
    let mut text = asked_line(alloc, seed, count)?;
    let counts = counts_text(
        alloc,
        written,
        world.shown(),
        waiting(world),
        world.underway(),
    )?;
    text.extend_from_slice(counts.as_slice())?;
    let views = views_text(alloc, world)?;
    text.extend_from_slice(views.as_slice())?;
    text.extend_from_slice(b"\ndone\n")?;
    Ok(text)
}

/// Appends the summary of the run of the script of `seed` and `count` acts, of which so many updates were written: what
/// was asked, this number, how many updates the world showed, how many payloads wait at its sites, how many payloads
/// and labels are under way, and the views of its sites in order. For want of memory `out` is as before.
pub fn write_summary(
    world: &World,
    seed: u64,
    count: u32,
    written: u64,
    out: &mut Vec<u8>,
) -> Result<(), AllocError>
    ensures ok { OnOk result ((h : List Entry) → IsRun world.now.deployment h → StandsFor world.now h
        → written ≡ wrote_count h
        → out.new.items ≡ out.old.items ++ summary world.now.deployment h seed count) }
    ensures err { OnErr result (out.new.items ≡ out.old.items) }
{
    let text = summary(*out.allocator(), world, seed, count, written)?;
    out.extend_from_slice(text.as_slice())?;
    Ok(())
}

//! The verdict on a history.
ghost use Rattle.std.specs.Prelude.{◌≡◌, ◌++◌, ◌<◌, [], map, length, take, IfOk, OnOk, OnErr};
ghost use Rattle.sat_verdict.specs.Verdicts.{IsCausalVerdict, IsFreshVerdict, IsOnceVerdict};
ghost use Rattle.sat_audit.specs.Histories.{IsHistory};
ghost use Rattle.sat_audit.specs.Judging.{wrote_tale, read_none_tale, read_some_tale, moved_tale, shown_tale, tale_of};
ghost use Rattle.sat_audit.specs.Judging.{sets_of, replicas_of, is_yes, causal_text, once_text, fresh_text, verdict_of};
ghost use Rattle.sat_audit.specs.Judging.{verdict_text, IsVerdictOf};

use crate::{Heard, History, Told};
use sat_act::{Act, Item};
use sat_label::{Items, Point, SiteSet};
use sat_verdict::{Tale, Verdict, judge, verdicts_are_found, verdicts_are_unique};
use std::alloc::{AllocError, Global};

fn wrote_tale(act: &Act, point: Point) -> Tale
    ensures { result ≡ wrote_tale act.now point }
{
    match act {
        Act::Write { client, item, .. } => Tale::Wrote {
            client: *client,
            items: Items::One(*item),
            point,
        },
        Act::Writes { client, items, .. } => Tale::Wrote {
            client: *client,
            items: *items,
            point,
        },
        _ => Tale::Other,
    }
}

fn read_none_tale(act: &Act) -> Tale
    ensures { result ≡ read_none_tale act.now }
{
    match act {
        Act::Read { client, item } => Tale::ReadNone {
            client: *client,
            item: *item,
        },
        _ => Tale::Other,
    }
}

fn read_some_tale(act: &Act, point: Point) -> Tale
    ensures { result ≡ read_some_tale act.now point }
{
    match act {
        Act::Read { client, item } => Tale::ReadSome {
            client: *client,
            item: *item,
            point,
        },
        _ => Tale::Other,
    }
}

fn moved_tale(act: &Act, point: Point) -> Tale
    ensures { result ≡ moved_tale act.now point }
{
    match act {
        Act::Move { client, .. } => Tale::Moved {
            client: *client,
            point,
        },
        _ => Tale::Other,
    }
}

fn shown_tale(act: &Act, point: Point) -> Tale
    ensures { result ≡ shown_tale act.now point }
{
    match act {
        Act::Turn { site } => Tale::Shown { site: *site, point },
        Act::Stamp { site } => Tale::Shown { site: *site, point },
        _ => Tale::Other,
    }
}

// What an entry tells.
fn tale_of(heard: &Heard) -> Tale
    ensures { result ≡ tale_of heard.now }
{
    match heard.told {
        Told::Wrote(point) => wrote_tale(&heard.act, point),
        Told::ReadNone => read_none_tale(&heard.act),
        Told::ReadSome(point) => read_some_tale(&heard.act, point),
        Told::Moved(point) => moved_tale(&heard.act, point),
        Told::Shown(point) => shown_tale(&heard.act, point),
        Told::Other => Tale::Other,
    }
}

// What each entry tells.
fn tales_of(alloc: Global, heard: &[Heard]) -> Result<Vec<Tale>, AllocError>
    ensures { IfOk result (λ tales. tales.items ≡ map tale_of heard.now) }
{
    let mut tales = Vec::with_capacity(alloc, heard.len())?;
    for entry in heard {
        tales.push(tale_of(entry))?;
    }
    Ok(tales)
}

// The sites that keep each item.
fn sets_of(alloc: Global, items: &[Item]) -> Result<Vec<SiteSet>, AllocError>
    ensures { IfOk result (λ sets. sets.items ≡ map replicas_of items.now) }
{
    let mut sets = Vec::with_capacity(alloc, items.len())?;
    for item in items {
        sets.push(item.replicas)?;
    }
    Ok(sets)
}

/// Judges a history: whether each site showed an update only after each cause of it that the site keeps, each update
/// once and only such that has an item which the site keeps, and whether each client read what was no older than it had
/// seen. Each part of the verdict is none exactly where that holds, else it names the first entry that offends, from 1.
/// It takes memory for the entries and, for each entry of a client, a count of each client.
#[tactic(auto, using(crate::proofs::Judged::has_clients, crate::proofs::Judged::has_sites, crate::proofs::Judged::is_unique, crate::proofs::Judged::few_tales, crate::proofs::Judged::said_of, crate::proofs::Judged::one_of))]
pub fn audit(alloc: Global, history: &History) -> Result<Verdict, AllocError>
    requires { IsHistory history.now }
    ensures exact { IfOk result (λ verdict. verdict ≡ verdict_of history.now) }
    ensures verdict { IfOk result (λ verdict. IsVerdictOf history.now verdict) }
{
    // Brings these laws into the proof; they do nothing when they run.
    verdicts_are_found();
    verdicts_are_unique();
    let deployment = &history.deployment;
    let clients = deployment.clients().len() as u16;
    let sets = sets_of(alloc, deployment.items())?;
    let tales = tales_of(alloc, history.heard.as_slice())?;
    let verdict = judge(alloc, sets.as_slice(), tales.as_slice(), clients)?;
    Ok(verdict)
}

/// Whether each part of a verdict is a yes.
pub fn is_yes(verdict: &Verdict) -> bool
    ensures { result ≡ is_yes verdict.now }
{
    if verdict.causal.is_some() {
        return false;
    }
    if verdict.once.is_some() {
        return false;
    }
    verdict.fresh.is_none()
}

fn write_causal(found: &Option<(u64, u64, u16)>, out: &mut Vec<u8>) -> Result<(), AllocError>
    ensures ok { OnOk result (out.new.items ≡ out.old.items ++ causal_text found.now) }
    ensures err { OnErr result (out.new.items ≡ out.old.items) }
{
    match found {
        None => {
            out.extend_from_slice(b"causal yes\n")?;
            Ok(())
        }
        Some((entry, maker, site)) => {
            let text = format!(in *out.allocator(); "causal no {entry} {maker} {site}\n")?;
            out.extend_from_slice(text.as_bytes())?;
            Ok(())
        }
    }
}

fn write_once(found: &Option<u64>, out: &mut Vec<u8>) -> Result<(), AllocError>
    ensures ok { OnOk result (out.new.items ≡ out.old.items ++ once_text found.now) }
    ensures err { OnErr result (out.new.items ≡ out.old.items) }
{
    match found {
        None => {
            out.extend_from_slice(b"once yes\n")?;
            Ok(())
        }
        Some(entry) => {
            let text = format!(in *out.allocator(); "once no {entry}\n")?;
            out.extend_from_slice(text.as_bytes())?;
            Ok(())
        }
    }
}

fn write_fresh(found: &Option<(u64, u64)>, out: &mut Vec<u8>) -> Result<(), AllocError>
    ensures ok { OnOk result (out.new.items ≡ out.old.items ++ fresh_text found.now) }
    ensures err { OnErr result (out.new.items ≡ out.old.items) }
{
    match found {
        None => {
            out.extend_from_slice(b"fresh yes\n")?;
            Ok(())
        }
        Some((entry, maker)) => {
            let text = format!(in *out.allocator(); "fresh no {entry} {maker}\n")?;
            out.extend_from_slice(text.as_bytes())?;
            Ok(())
        }
    }
}

// The three lines; for want of memory a front of the new text.
#[tactic(auto, unfolding(crate::specs::Judging::verdict_text))]
fn append(verdict: &Verdict, out: &mut Vec<u8>) -> Result<(), AllocError>
    ensures ok { OnOk result (out.new.items ≡ out.old.items ++ verdict_text verdict.now) }
    ensures err { OnErr result (take (length out.old.items) out.new.items ≡ out.old.items) }
{
    write_causal(&verdict.causal, out)?;
    write_once(&verdict.once, out)?;
    write_fresh(&verdict.fresh, out)?;
    Ok(())
}

/// Appends the text of a verdict, a line for each part. For want of memory `out` is as before.
pub fn write_verdict(verdict: &Verdict, out: &mut Vec<u8>) -> Result<(), AllocError>
    ensures ok { OnOk result (out.new.items ≡ out.old.items ++ verdict_text verdict.now) }
    ensures err { OnErr result (out.new.items ≡ out.old.items) }
{
    let length = out.len();
    let result = append(verdict, out);
    if result.is_err() {
        out.truncate(length);
    }
    result
}

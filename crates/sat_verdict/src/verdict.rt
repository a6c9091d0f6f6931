//! The verdict on a given history.
ghost use Rattle.std.specs.Prelude.{◌≤◌, length, reverse, IfOk};
ghost use Rattle.sat_verdict.specs.declared.limits.TheConstants.{MOST_ENTRIES};
ghost use Rattle.sat_verdict.specs.Verdicts.{IsCausalVerdict, IsOnceVerdict, IsFreshVerdict};
ghost use Rattle.sat_verdict.specs.Tables.{HasClients, IsUnique};
ghost use Rattle.sat_verdict.specs.Passes.{HasSites};

use crate::Tale;
use crate::counts::rows_of;
use crate::links::links_of;
use crate::makers::maker_numbers;
use crate::readers::fresh_entries;
use crate::reads::judge_reads;
use crate::shows::judge_shows;
use sat_label::SiteSet;
use std::alloc::{AllocError, Global};

/// A verdict: `None` is a yes. Entries are numbered from 1.
#[derive(Clone, Copy)]
pub struct Verdict {
    /// The first entry that shows a point where a cause is lacking, the least entry that made such a cause, and the
    /// site.
    pub causal: Option<(u64, u64, u16)>,
    /// The first entry that shows a point again, or one that is no update of an item of the site.
    pub once: Option<u64>,
    /// The first read that missed an update of its client's past, and the least entry that made such an update.
    pub fresh: Option<(u64, u64)>,
}

/// Judges a history, given the oldest entry first: exactly, and where each law holds in time of about its entries times
/// its clients. A law that does not hold costs one pass over the entries more. `sets` has for each item the sites that
/// replicate it; an item behind its end is replicated nowhere. It asks for at most
/// [`MOST_ENTRIES`](crate::MOST_ENTRIES) entries, each of a client below `clients`, for sites that show below 64, and
/// for no point that two entries made. A read is judged by what its client knew before it; the items and causes of a
/// point are those of the entry that made it, wherever that stands. It takes memory for a count of each client for each
/// entry of a client. Want of memory is the one error.
pub fn judge(
    alloc: Global,
    sets: &[SiteSet],
    tales: &[Tale],
    clients: u16,
) -> Result<Verdict, AllocError>
    requires few { length tales.now ≤ MOST_ENTRIES }
    requires clients { HasClients clients tales.now }
    requires sites { HasSites tales.now }
    requires unique { IsUnique (reverse tales.now) }
    ensures causal { IfOk result (λ verdict. IsCausalVerdict sets.now (reverse tales.now) verdict.causal) }
    ensures once { IfOk result (λ verdict. IsOnceVerdict sets.now (reverse tales.now) verdict.once) }
    ensures fresh { IfOk result (λ verdict. IsFreshVerdict (reverse tales.now) verdict.fresh) }
{
    let numbers = maker_numbers(alloc, tales)?;
    let rows = rows_of(alloc, tales, numbers.as_slice(), clients)?;
    let links = links_of(alloc, tales, clients)?;
    let judged = judge_shows(
        alloc,
        sets,
        tales,
        numbers.as_slice(),
        rows.as_slice(),
        &links,
        clients,
    )?;
    let clear = fresh_entries(
        alloc,
        tales,
        numbers.as_slice(),
        rows.as_slice(),
        &links,
        clients,
    )?;
    let fresh = judge_reads(
        tales,
        numbers.as_slice(),
        rows.as_slice(),
        clear.as_slice(),
        clients,
    );
    Ok(Verdict {
        causal: judged.causal,
        once: judged.once,
        fresh,
    })
}

//! A node's pass, under its lock. That of a hub takes the locks of its gears too.
ghost use Rattle.std.specs.Prelude.{◌≡◌, ◌≤◌, IfErr, IfOk};
ghost use Rattle.sat_label.specs.declared.limits.TheConstants.{TS_END};
ghost use Rattle.sat_session.specs.Calls.{IsFault};

use crate::Cluster;
use sat_label::{NodeName, TS_END};
use sat_machines::Laid;
use sat_node::{CallFault, Names};
use sat_outside::Gate;
use sat_parts_passes::send_payloads;
use sat_parts_pump::{Lent, gather, hear, is_due, promise_of, pull_next, send, show, tick};
use sat_passes::relay;
use std::sync::Wait;

// How many entries an act of a hub added, in which so many gears took part.
fn added(done: bool, gears: usize) -> u64 {
    if done {
        (gears as u64).saturating_add(1)
    } else {
        0
    }
}

// What is seen of a gear: its promise, and whether a gather is due because of it.
#[derive(Clone, Copy)]
struct GearLook {
    promise: u64,
    due: bool,
}

// What is seen of a site: the greatest timestamp of what came at its hub and of the promises of its gears, the least of
// these promises, and whether a gather is due because of one of the gears.
#[derive(Clone, Copy)]
struct SiteLook {
    most: u64,
    least: u64,
    due: bool,
}

// ---- the gears keep up with what came

impl<N: Laid + Names> Cluster<N> {
    // The greatest timestamp of what came at a hub.
    fn came<R: Wait>(&self, rt: &R, site: u16) -> Result<u64, CallFault>
        ensures small { IfOk result (λ ts. ts ≤ TS_END) }
        ensures fault { IfErr result IsFault }
    {
        let Some(mut guard) = self.hub(rt, site) else {
            return Err(CallFault::Memory);
        };
        let watched = &mut *guard;
        Ok(watched.came())
    }

    // A gear's promise, and whether a gather is due because of it.
    fn look_at<R: Wait>(&self, rt: &R, site: u16, gear: u16) -> Result<GearLook, CallFault>
        ensures small { IfOk result (λ seen. seen.promise ≤ TS_END) }
        ensures fault { IfErr result IsFault }
    {
        let Some(guard) = self.gear(rt, site, gear) else {
            return Err(CallFault::Memory);
        };
        let held = &*guard;
        Ok(GearLook {
            promise: promise_of(held),
            due: is_due(held),
        })
    }

    // What came at a hub and what its gears have, each at its own moment.
    fn survey<R: Wait>(&self, rt: &R, site: u16) -> Result<SiteLook, CallFault>
        ensures small { IfOk result (λ survey. survey.most ≤ TS_END) }
        ensures fault { IfErr result IsFault }
    {
        let mut most = match self.came(rt, site) {
            Ok(ts) => ts,
            Err(fault) => return Err(fault),
        };
        let mut least = TS_END;
        let mut due = false;
        for gear in 0..self.deployment().gears() {
            match self.look_at(rt, site, gear) {
                Ok(seen) => {
                    most = most.max(seen.promise);
                    least = least.min(seen.promise);
                    due = due || seen.due;
                }
                Err(fault) => return Err(fault),
            }
        }
        Ok(SiteLook { most, least, due })
    }

    // Raises a gear's promise to a timestamp, if it is below that: how many entries it kept.
    #[tactic(auto, using(crate::proofs::Doing::alone_fault))]
    fn raise<R: Wait>(&self, rt: &R, site: u16, gear: u16, ts: u64) -> Result<u64, CallFault>
        requires { ts ≤ TS_END }
        ensures { IfErr result IsFault }
    {
        let Some(mut guard) = self.gear(rt, site, gear) else {
            return Err(CallFault::Memory);
        };
        let held = &mut *guard;
        match tick(held, ts) {
            Ok(done) => Ok(u64::from(done)),
            Err(fault) => Err(fault),
        }
    }

    // Raises the promise of each gear of a site to a timestamp: how many entries they kept.
    fn raise_all<R: Wait>(&self, rt: &R, site: u16, ts: u64) -> Result<u64, CallFault>
        requires { ts ≤ TS_END }
        ensures { IfErr result IsFault }
    {
        let mut count = 0u64;
        for gear in 0..self.deployment().gears() {
            match self.raise(rt, site, gear, ts) {
                Ok(kept) => count = count.saturating_add(kept),
                Err(fault) => return Err(fault),
            }
        }
        Ok(count)
    }

    // Raises the promise of each gear of a site to the greatest timestamp: how many entries they kept. Promises never
    // fall, so that no lock is taken where none was below it.
    fn keep_up<R: Wait>(&self, rt: &R, site: u16, survey: &SiteLook) -> Result<u64, CallFault>
        requires { survey.now.most ≤ TS_END }
        ensures { IfErr result IsFault }
    {
        if survey.least < survey.most {
            self.raise_all(rt, site, survey.most)
        } else {
            Ok(0)
        }
    }

    // ---- the hub gathers

    // A gather of a hub and of all gears of its site, whose locks are held together: how many entries they kept. The
    // gate is told of it while the hub's lock is held, and no gear's is taken yet.
    #[tactic(auto, using(crate::proofs::Doing::all_fault))]
    fn gather_all<R: Wait, G: Gate>(&self, rt: &R, site: u16, gate: &G) -> Result<u64, CallFault>
        ensures { IfErr result IsFault }
    {
        let Ok(mut gears) = self.room_for_gears() else {
            return Err(CallFault::Memory);
        };
        let Some(mut guard) = self.hub(rt, site) else {
            return Err(CallFault::Memory);
        };
        gate.inside(NodeName::Site(site));
        let watched = &mut *guard;
        if !self.add_lent(rt, &mut gears, &*watched, site, &Lent::All) {
            return Err(CallFault::Memory);
        }
        match gather(watched, &mut gears) {
            Ok(done) => Ok(added(done, gears.len())),
            Err(fault) => Err(fault),
        }
    }

    // The gears keep up with what came, and the hub gathers, where that was due because of one of them when it was
    // looked at, or one of them was raised: how many entries they kept.
    fn collect<R: Wait, G: Gate>(&self, rt: &R, site: u16, gate: &G) -> Result<u64, CallFault>
        ensures { IfErr result IsFault }
    {
        let survey = match self.survey(rt, site) {
            Ok(survey) => survey,
            Err(fault) => return Err(fault),
        };
        let raised = match self.keep_up(rt, site, &survey) {
            Ok(count) => count,
            Err(fault) => return Err(fault),
        };
        if raised == 0 && !survey.due {
            return Ok(0);
        }
        match self.gather_all(rt, site, gate) {
            Ok(gathered) => Ok(raised.saturating_add(gathered)),
            Err(fault) => Err(fault),
        }
    }

    // ---- the hub sends, hears and shows

    // What a hub sends: how many entries it kept.
    #[tactic(auto, using(crate::proofs::Doing::send_fault))]
    fn send_all<R: Wait>(&self, rt: &R, site: u16) -> Result<u64, CallFault>
        ensures { IfErr result IsFault }
    {
        let Some(mut guard) = self.hub(rt, site) else {
            return Err(CallFault::Memory);
        };
        let watched = &mut *guard;
        send(rt, watched)
    }

    // What a hub hears: how many entries it kept.
    #[tactic(auto, using(crate::proofs::Doing::pass_fault))]
    fn hear_all<R: Wait>(&self, rt: &R, site: u16) -> Result<u64, CallFault>
        ensures { IfErr result IsFault }
    {
        let Some(mut guard) = self.hub(rt, site) else {
            return Err(CallFault::Memory);
        };
        let watched = &mut *guard;
        hear(rt, watched)
    }

    // What a hub shows or takes next, with the gears that this needs, whose locks are held together with the hub's: how
    // many entries they kept.
    #[tactic(auto, using(crate::proofs::Doing::next_fault))]
    fn show_one<R: Wait>(&self, rt: &R, site: u16) -> Result<u64, CallFault>
        ensures { IfErr result IsFault }
    {
        let Ok(mut gears) = self.room_for_gears() else {
            return Err(CallFault::Memory);
        };
        let Some(mut guard) = self.hub(rt, site) else {
            return Err(CallFault::Memory);
        };
        let watched = &mut *guard;
        let d = self.deployment();
        let todo = pull_next(rt, watched, d);
        if !self.add_lent(rt, &mut gears, &*watched, site, &todo.needs()) {
            return Err(CallFault::Memory);
        }
        match show(watched, &mut gears, d) {
            Ok(done) => Ok(added(done, gears.len())),
            Err(fault) => Err(fault),
        }
    }

    // The same until nothing of it is left to do.
    fn show_all<R: Wait>(&self, rt: &R, site: u16) -> Result<u64, CallFault>
        ensures { IfErr result IsFault }
    {
        let mut count = 0u64;
        'showing: for _ in rt.forever() {
            match self.show_one(rt, site) {
                Ok(0) => return Ok(count),
                Ok(kept) => count = count.saturating_add(kept),
                Err(fault) => return Err(fault),
            }
        }
        unreachable!()
    }

    // ---- passes

    // What a hub sends, hears and shows.
    fn talk<R: Wait>(&self, rt: &R, site: u16) -> Result<u64, CallFault>
        ensures { IfErr result IsFault }
    {
        let sent = match self.send_all(rt, site) {
            Ok(count) => count,
            Err(fault) => return Err(fault),
        };
        let heard = match self.hear_all(rt, site) {
            Ok(count) => count,
            Err(fault) => return Err(fault),
        };
        match self.show_all(rt, site) {
            Ok(shown) => Ok(sent.saturating_add(heard).saturating_add(shown)),
            Err(fault) => Err(fault),
        }
    }

    // A hub's pass, step by step: its gears keep up with what came, it gathers what they made, sends, hears what other
    // sites sent, and shows what it can. After an error, what was kept and sent by then stays.
    fn round_hub<R: Wait, G: Gate>(&self, rt: &R, site: u16, gate: &G) -> Result<u64, CallFault>
        ensures { IfErr result IsFault }
    {
        let collected = match self.collect(rt, site, gate) {
            Ok(count) => count,
            Err(fault) => return Err(fault),
        };
        match self.talk(rt, site) {
            Ok(talked) => Ok(collected.saturating_add(talked)),
            Err(fault) => Err(fault),
        }
    }

    // A gear's pass: what it wrote for other sites is put on its links as far as they have room. It keeps no entry.
    #[tactic(auto, using(crate::proofs::Doing::memory_fault))]
    fn round_gear<R: Wait>(&self, rt: &R, site: u16, gear: u16) -> Result<u64, CallFault>
        ensures none { IfOk result (λ n. n ≡ 0) }
        ensures fault { IfErr result IsFault }
    {
        let Some(mut guard) = self.gear(rt, site, gear) else {
            return Err(CallFault::Memory);
        };
        let held = &mut *guard;
        match send_payloads(rt, held) {
            Ok(()) => Ok(0),
            Err(fault) => Err(fault),
        }
    }

    // A serializer's pass.
    #[tactic(auto, using(crate::proofs::Doing::pass_fault))]
    fn round_serial<R: Wait, G: Gate>(
        &self,
        rt: &R,
        epoch: u16,
        number: u16,
        gate: &G,
    ) -> Result<u64, CallFault>
        ensures { IfErr result IsFault }
    {
        let Some(mut guard) = self.serial(rt, epoch, number) else {
            return Err(CallFault::Memory);
        };
        let held = &mut *guard;
        relay(rt, held, gate)
    }

    /// Makes one pass of a node: how many entries it kept, and, in a hub's pass, the gears of its site. A hub's pass
    /// takes its lock and those of its gears step by step; a gear's and a serializer's take theirs once, and a gear's
    /// keeps no entry. Contracts can't see what happens under a lock; what a pass does is said by the steps of a hub's
    /// pass, by `send_payloads` of a gear and by `relay` of a serializer. The gate is told of a serializer that handles
    /// a label, and of a hub that is about to gather, which holds its lock and has taken no gear's yet. `Worn`, with
    /// the greatest u64, where these answered it; `Memory`, as where the cluster has no such node, for which no caller
    /// asks.
    pub fn round<R: Wait, G: Gate>(
        &self,
        rt: &R,
        node: NodeName,
        gate: &G,
    ) -> Result<u64, CallFault>
        ensures { IfErr result IsFault }
    {
        match node {
            NodeName::Site(site) => self.round_hub(rt, site, gate),
            NodeName::Gear { site, gear } => self.round_gear(rt, site, gear),
            NodeName::Serializer { epoch, number } => self.round_serial(rt, epoch, number, gate),
        }
    }
}

//! Chains over a world.
ghost use Rattle.std.specs.Prelude.{◌≡◌, ◌≤◌, ◌<◌, ◌-◌, [], List, Some, IsSome, length, map, slice_get, IfOk, OnErr};
ghost use Rattle.sat_act.specs.Parts.{tree_of as tree_seen};
ghost use Rattle.sat_world.specs.Stands.{StandsFor};
ghost use Rattle.sat_chain_laws.specs.Chains.{ChainEntry, plain};
ghost use Rattle.sat_chain_laws.specs.ChainRuns.{IsChainRun};
ghost use Rattle.sat_chain_laws.specs.Goals.{IsChainGood};
ghost use Rattle.sat_chain_laws.specs.Ranges.{IsChainActOf};
ghost use Rattle.sat_chain.specs.Stands.{ChainsFor};
ghost use Rattle.sat_chain.specs.Starts.{fresh_row, serializers_of, put_by};
ghost use Rattle.sat_chain.specs.Applies.{ChainApplies};

use crate::places;
use crate::row::Row;
use crate::tail::applied;
use sat_act::{Act, Answer, Deployment, Plan};
use sat_chain_laws::{ChainAct, ChainAnswer, ChainRefusal, Pair};
use sat_label::NodeId;
use sat_site::interest;
use sat_sites::Interest;
use sat_tree::Tree;
use sat_world::World;
use std::alloc::{AllocError, Global};
use std::marker::Model;

// What was put on the links of a serializer is counted up to here.
const MOST_PUT: u64 = 1 << 63;

/// A world whose serializers are chains of replicas. Each replica keeps a list of all labels that it ever had, so these
/// lists grow with the history; nothing else does that the world does not keep.
#[derive(Drop)]
pub struct Chains {
    world: World,
    interest: Interest,
    replicas: u16,
    rows: Vec<Row>,
}

impl Model for Chains {
    ghost use Rattle.sat_chain.specs.Stands.{ChainsSeen, IsChains};

    ghost Value = { ChainsSeen };

    ghost view = { λ s.
        record { world = s.world; interest = s.interest; replicas = s.replicas; chains = s.rows.items } };

    ghost invariant = { λ s.
        IsChains (record { world = s.world; interest = s.interest; replicas = s.replicas; chains = s.rows.items }) };
}

// How many serializers a plan's tree has.
fn serializers_of(plan: &Plan) -> u16
    ensures { result ≡ serializers_of plan.now }
{
    match plan {
        Plan::Stamp => 0,
        Plan::Tree(tree) => tree.serializers(),
    }
}

// The chains of the trees of all plans, with empty lists.
fn fresh_rows(alloc: Global, plans: &[Plan], replicas: u16) -> Result<Vec<Row>, AllocError>
    ensures { IfOk result (λ rows. rows.items ≡ map (fresh_row replicas) plans.now) }
{
    let mut rows = Vec::new(alloc);
    for plan in plans {
        rows.push(Row::new(alloc, serializers_of(plan), replicas)?)?;
    }
    Ok(rows)
}

// The tree of an epoch, which has one.
fn tree_of(d: &Deployment, epoch: u16) -> &Tree
    requires epochs { 1 ≤ epoch }
    requires tree { IsSome (tree_seen d.now epoch) }
    ensures tree { Some result.now ≡ tree_seen d.now epoch }
{
    match &d.plans()[epoch as usize - 1] {
        Plan::Tree(tree) => tree,
        Plan::Stamp => unreachable!(),
    }
}

// On how many links the answer to a hop says that the label was put.
fn put_by(answer: &Answer) -> usize
    ensures { result ≡ put_by answer.now }
{
    match answer {
        Answer::Hopped { to, .. } => to.as_slice().len(),
        _ => 0,
    }
}

impl Chains {
    /// The world in which nothing has happened yet, with 1 to 5 replicas of each serializer.
    pub fn new(alloc: Global, d: Deployment, replicas: u16) -> Result<Chains, AllocError>
        requires some { 1 ≤ replicas }
        requires few { replicas ≤ 5 }
        ensures deployment { IfOk result (λ s. s.world.deployment ≡ d) }
        ensures replicas { IfOk result (λ s. s.replicas ≡ replicas) }
        ensures stands { IfOk result (λ s. ChainsFor s []) }
    {
        let interest = interest(alloc, &d)?;
        let rows = fresh_rows(alloc, d.plans(), replicas)?;
        let world = World::new(alloc, d)?;
        Ok(Chains {
            world,
            interest,
            replicas,
            rows,
        })
    }

    /// Does an act and answers it. For want of memory all is as before. It asks for an act that has a line under the
    /// deployment's header: `hop`, `kill` and `settle` have none here, since what serializers do stands in the acts of
    /// their chains.
    pub fn apply(&mut self, act: &ChainAct) -> Result<ChainAnswer, AllocError>
        requires { IsChainActOf self.old.world.deployment self.old.replicas act.now }
        ensures applies { IfOk result (λ r. ChainApplies self.old act.now r self.new) }
        ensures err { OnErr result (self.new ≡ self.old) }
    {
        match act {
            ChainAct::Plain(act) => self.plain(act),
            ChainAct::Enter { epoch, from, to } => self.enter(*epoch, *from, *to),
            ChainAct::Pass {
                epoch,
                serializer,
                replica,
            } => self.pass(*epoch, *serializer, *replica),
            ChainAct::Apply { epoch, serializer } => self.take_effect(*epoch, *serializer),
            ChainAct::Crash {
                epoch,
                serializer,
                replica,
            } => self.crash(*epoch, *serializer, *replica),
        }
    }

    /// The world, in which each label that took effect has hopped, and a serializer without replicas was killed.
    pub fn world(&self) -> &World
        ensures world { result.now ≡ self.now.world }
        ensures stands { (c : List ChainEntry) → IsChainRun self.now.world.deployment self.now.replicas c
            → ChainsFor self.now c → StandsFor result.now (plain self.now.replicas c) }
        ensures good { (c : List ChainEntry) → IsChainRun self.now.world.deployment self.now.replicas c
            → ChainsFor self.now c → IsChainGood self.now.world.deployment self.now.replicas c }
    {
        &self.world
    }

    // A plain act.
    fn plain(&mut self, act: &Act) -> Result<ChainAnswer, AllocError>
        requires { IsChainActOf self.old.world.deployment self.old.replicas (ChainAct.Plain act.now) }
        ensures applies { IfOk result (λ r. ChainApplies self.old (ChainAct.Plain act.now) r self.new) }
        ensures err { OnErr result (self.new ≡ self.old) }
    {
        let _ = &self.rows;
        let answer = self.world.step(act)?;
        Ok(ChainAnswer::Plain(answer))
    }

    // The head of a chain takes in the next label on the link from a neighbour.
    fn enter(&mut self, epoch: u16, from: NodeId, to: u16) -> Result<ChainAnswer, AllocError>
        requires { IsChainActOf self.old.world.deployment self.old.replicas (ChainAct.Enter epoch from to) }
        ensures applies { IfOk result (λ r. ChainApplies self.old (ChainAct.Enter epoch from to) r self.new) }
        ensures err { OnErr result (self.new ≡ self.old) }
    {
        let place = epoch as usize - 1;
        let chain = places::chain_at(&self.rows, place, to);
        let Some(head) = chain.first_from(0) else {
            return Ok(ChainAnswer::Refused(ChainRefusal::Dead));
        };
        let count = chain.ahead(head, from);
        let Some(label) = self.world.ahead(epoch, from, to, count) else {
            return Ok(ChainAnswer::Refused(ChainRefusal::Empty));
        };
        places::gain_at(&mut self.rows, place, to, head, Pair { from, label })?;
        Ok(ChainAnswer::Entered(label))
    }

    // A replica hands on to the next living one what that one has next to come.
    fn pass(&mut self, epoch: u16, serializer: u16, replica: u16) -> Result<ChainAnswer, AllocError>
        requires { IsChainActOf self.old.world.deployment self.old.replicas (ChainAct.Pass epoch serializer replica) }
        ensures applies { IfOk result (λ r. ChainApplies self.old (ChainAct.Pass epoch serializer replica) r self.new) }
        ensures err { OnErr result (self.new ≡ self.old) }
    {
        let place = epoch as usize - 1;
        let chain = places::chain_at(&self.rows, place, serializer);
        let Some(_) = chain.first_from(0) else {
            return Ok(ChainAnswer::Refused(ChainRefusal::Dead));
        };
        if !chain.lives(replica as usize) {
            return Ok(ChainAnswer::Refused(ChainRefusal::Crashed));
        }
        let Some(next) = chain.first_from(replica as usize + 1) else {
            return Ok(ChainAnswer::Refused(ChainRefusal::Last));
        };
        let count = chain.list(next).len();
        let Some(pair) = chain.pair_at(replica as usize, count) else {
            return Ok(ChainAnswer::Refused(ChainRefusal::Empty));
        };
        places::gain_at(&mut self.rows, place, serializer, next, pair)?;
        Ok(ChainAnswer::Passed(pair.label))
    }

    // The tail lets its next label take effect.
    fn take_effect(&mut self, epoch: u16, serializer: u16) -> Result<ChainAnswer, AllocError>
        requires { IsChainActOf self.old.world.deployment self.old.replicas (ChainAct.Apply epoch serializer) }
        ensures applies { IfOk result (λ r. ChainApplies self.old (ChainAct.Apply epoch serializer) r self.new) }
        ensures err { OnErr result (self.new ≡ self.old) }
    {
        let place = epoch as usize - 1;
        let chain = places::chain_at(&self.rows, place, serializer);
        let Some(tail) = chain.tail() else {
            return Ok(ChainAnswer::Refused(ChainRefusal::Dead));
        };
        if chain.put() >= MOST_PUT {
            return Err(AllocError);
        }
        let tree = tree_of(self.world.deployment(), epoch);
        let count = applied(chain, tail, tree, serializer, &self.interest);
        let Some(pair) = chain.pair_at(tail, count) else {
            places::look_at(&mut self.rows, place, serializer, count);
            return Ok(ChainAnswer::Refused(ChainRefusal::Empty));
        };
        let answer = self.world.hop(epoch, pair.from, serializer)?;
        let put = put_by(&answer);
        places::effect_at(&mut self.rows, place, serializer, count, pair.from, put);
        Ok(ChainAnswer::Plain(answer))
    }

    // A replica stops for good, and with the last one its serializer.
    fn crash(
        &mut self,
        epoch: u16,
        serializer: u16,
        replica: u16,
    ) -> Result<ChainAnswer, AllocError>
        requires { IsChainActOf self.old.world.deployment self.old.replicas (ChainAct.Crash epoch serializer replica) }
        ensures applies { IfOk result
            (λ r. ChainApplies self.old (ChainAct.Crash epoch serializer replica) r self.new) }
        ensures err { OnErr result (self.new ≡ self.old) }
    {
        let place = epoch as usize - 1;
        if !places::chain_at(&self.rows, place, serializer).lives(replica as usize) {
            return Ok(ChainAnswer::Refused(ChainRefusal::Crashed));
        }
        places::crash_at(&mut self.rows, place, serializer, replica as usize);
        let Some(_) = places::chain_at(&self.rows, place, serializer).first_from(0) else {
            let _ = self.world.kill(epoch, serializer);
            return Ok(ChainAnswer::Crashed);
        };
        Ok(ChainAnswer::Crashed)
    }
}

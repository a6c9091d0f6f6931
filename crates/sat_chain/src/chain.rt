//! Chains.
ghost use Rattle.std.specs.Prelude.{◌≡◌, ◌<◌, ◌≤◌, ◌+◌, ◌-◌, ◌++◌, [], ◌∷◌, List, ℕ, Some, None, IsSome, length};
ghost use Rattle.std.specs.Prelude.{get_or, slice_get, IfOk, OnOk, OnErr};
ghost use Rattle.sat_serial.specs.Hits.{code};
ghost use Rattle.sat_chain_laws.specs.declared.pair.Pair.{Pair as PairSeen};
ghost use Rattle.sat_chain_laws.specs.Rows.{first_from, tail, labels_from};
ghost use Rattle.sat_chain.specs.declared.by_node.TheConstants.{PLACES};
ghost use Rattle.sat_chain.specs.Chained.{fresh_chain, row_of, number_of, after_change, after_crash, after_look};
ghost use Rattle.sat_chain.specs.Chained.{after_effect};

use crate::by_node::ByNode;
use crate::replica::Replica;
use sat_chain_laws::Pair;
use sat_label::NodeId;
use std::alloc::{AllocError, Global};
use std::marker::Model;

/// A serializer as a chain of replicas, and what its links know: how many labels they brought and took.
#[derive(Drop)]
pub struct Chain {
    replicas: Vec<Replica>,
    // How many labels were put on the outgoing links, all together, and how many were taken from each incoming one.
    put: u64,
    taken: ByNode,
    // How many pairs took effect, as the tail knows; None until it has looked.
    found: Option<usize>,
}

impl Model for Chain {
    ghost use Rattle.sat_chain.specs.Chained.{ChainSeen};

    ghost Value = { ChainSeen };

    ghost view = { λ c. record { rows = c.replicas.items; put = c.put; taken = c.taken; found = c.found } };
}

impl Chain {
    /// So many replicas with empty lists.
    pub fn new(alloc: Global, replicas: u16) -> Result<Chain, AllocError>
        ensures { IfOk result (λ chain. chain ≡ fresh_chain replicas) }
    {
        let mut all = Vec::new(alloc);
        for _ in 0..replicas {
            all.push(Replica::new(alloc))?;
        }
        Ok(Chain {
            replicas: all,
            put: 0,
            taken: ByNode::zeros(),
            found: None,
        })
    }

    /// The first replica that lives, from a number on. It takes no memory.
    pub fn first_from(&self, start: usize) -> Option<usize>
        ensures { result ≡ number_of (first_from (row_of self.now.rows) start (length self.now.rows - start)) }
    {
        for k in start..self.replicas.len() {
            if self.replicas[k].lives() {
                return Some(k);
            }
        }
        None
    }

    /// The tail: the last replica that lives, None where all have crashed. It takes no memory.
    pub fn tail(&self) -> Option<usize>
        ensures { result ≡ number_of (tail (length self.now.rows) (row_of self.now.rows)) }
    {
        let mut last = None;
        for k in 0..self.replicas.len() {
            if self.replicas[k].lives() {
                last = Some(k);
            }
        }
        last
    }

    /// Whether a replica has not crashed.
    pub fn lives(&self, k: usize) -> bool
        requires { k < length self.now.rows }
        ensures { result ≡ Rattle.std.specs.Prelude.is_some (row_of self.now.rows k) }
    {
        self.replicas[k].lives()
    }

    /// How many pairs of a replica's list came from a neighbour and did not take effect: those that took effect were
    /// taken from its link. It takes no memory.
    pub fn ahead(&self, k: usize, from: NodeId) -> u64
        requires lives { IsSome (row_of self.now.rows k) }
        requires node { code from < PLACES }
        ensures { (xs : List PairSeen) → row_of self.now.rows k ≡ Some xs
            → result ≡ length (labels_from from xs) - get_or self.now.taken (code from) 0 }
    {
        let count = self.replicas[k].count(from);
        count.saturating_sub(self.taken.of(from))
    }

    /// The list of a replica that lives.
    pub fn list(&self, k: usize) -> &[Pair]
        requires { IsSome (row_of self.now.rows k) }
        ensures { Some result.now ≡ row_of self.now.rows k }
    {
        self.replicas[k].list()
    }

    /// The pair at a place of the list of a replica that lives, None where it is not so long.
    pub fn pair_at(&self, k: usize, place: usize) -> Option<Pair>
        requires { IsSome (row_of self.now.rows k) }
        ensures pair { (xs : List PairSeen) → row_of self.now.rows k ≡ Some xs → result ≡ slice_get xs place }
        ensures small { IsSome result → place < 18446744073709551615 }
    {
        let list = self.list(k);
        if place < list.len() {
            Some(list[place])
        } else {
            None
        }
    }

    /// A replica that lives gains a pair. For want of memory all is as before.
    pub fn gain(&mut self, k: usize, pair: Pair) -> Result<(), AllocError>
        requires { IsSome (row_of self.old.rows k) }
        ensures ok { OnOk result ((xs : List PairSeen) → row_of self.old.rows k ≡ Some xs
            → self.new ≡ after_change self.old k (xs ++ pair ∷ [])) }
        ensures err { OnErr result (self.new ≡ self.old) }
    {
        self.replicas[k].gain(pair)?;
        Ok(())
    }

    /// A replica stops for good. It takes no memory.
    pub fn crash(&mut self, k: usize)
        requires { k < length self.old.rows }
        ensures { self.new ≡ after_crash self.old k }
    {
        self.replicas[k].crash();
        self.found = None;
    }

    /// The tail has looked, and knows how many pairs took effect. It takes no memory.
    pub fn look(&mut self, count: usize)
        ensures { self.new ≡ after_look self.old count }
    {
        self.found = Some(count);
    }

    /// How many pairs took effect, where the tail has found it.
    pub fn found(&self) -> Option<usize>
        ensures { result ≡ self.now.found }
    {
        self.found
    }

    /// How many labels were put on the outgoing links, all together.
    pub fn put(&self) -> u64
        ensures { result ≡ self.now.put }
    {
        self.put
    }

    /// The pair at a place of the tail's list, which came from a node, took effect: so many labels were put on the
    /// outgoing links. It takes no memory.
    pub fn effect(&mut self, place: usize, from: NodeId, count: usize)
        requires place { place < 18446744073709551615 }
        requires from { get_or self.old.taken (code from) 0 < 18446744073709551615 }
        requires put { self.old.put + count < 18446744073709551616 }
        ensures { self.new ≡ after_effect self.old place from count }
    {
        self.put += count as u64;
        self.taken.raise(from);
        self.found = Some(place + 1);
    }
}

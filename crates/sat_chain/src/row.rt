//! The chains of one tree.
ghost use Rattle.std.specs.Prelude.{◌≡◌, ◌<◌, ◌+◌, ◌++◌, [], ◌∷◌, List, Some, IsSome, length, get_or, replicate, set};
ghost use Rattle.std.specs.Prelude.{slice_get, IfOk, OnOk, OnErr};
ghost use Rattle.sat_serial.specs.Hits.{code};
ghost use Rattle.sat_chain_laws.specs.declared.pair.Pair.{Pair as PairSeen};
ghost use Rattle.sat_chain.specs.Chained.{ChainSeen, fresh_chain, row_of, after_change, after_crash, after_look};
ghost use Rattle.sat_chain.specs.Chained.{after_effect};

use crate::chain::Chain;
use sat_chain_laws::Pair;
use sat_label::NodeId;
use std::alloc::{AllocError, Global};
use std::marker::Model;

/// The chains of a tree's serializers, by their numbers.
#[derive(Drop)]
pub struct Row {
    chains: Vec<Chain>,
}

impl Model for Row {
    ghost use Rattle.std.specs.Prelude.{List};
    ghost use Rattle.sat_chain.specs.Chained.{ChainSeen};

    ghost Value = { List ChainSeen };

    ghost view = { λ a. a.chains.items };
}

impl Row {
    /// So many chains of so many replicas with empty lists.
    pub fn new(alloc: Global, serializers: u16, replicas: u16) -> Result<Row, AllocError>
        ensures { IfOk result (λ row. row ≡ replicate serializers (fresh_chain replicas)) }
    {
        let mut chains = Vec::new(alloc);
        for _ in 0..serializers {
            chains.push(Chain::new(alloc, replicas)?)?;
        }
        Ok(Row { chains })
    }

    /// The chain of a serializer.
    pub fn chain(&self, z: u16) -> &Chain
        requires { z < length self.now }
        ensures { slice_get self.now z ≡ Some result.now }
    {
        &self.chains[z as usize]
    }

    /// A replica of a serializer gains a pair. For want of memory all is as before.
    pub fn gain(&mut self, z: u16, k: usize, pair: Pair) -> Result<(), AllocError>
        requires within { z < length self.old }
        requires lives { (ch : ChainSeen) → slice_get self.old z ≡ Some ch → IsSome (row_of ch.rows k) }
        ensures ok { OnOk result ((ch : ChainSeen) (xs : List PairSeen) → slice_get self.old z ≡ Some ch
            → row_of ch.rows k ≡ Some xs → self.new ≡ set self.old z (after_change ch k (xs ++ pair ∷ []))) }
        ensures err { OnErr result (self.new ≡ self.old) }
    {
        self.chains[z as usize].gain(k, pair)?;
        Ok(())
    }

    /// A replica of a serializer stops for good.
    pub fn crash(&mut self, z: u16, k: usize)
        requires within { z < length self.old }
        requires replica { (ch : ChainSeen) → slice_get self.old z ≡ Some ch → k < length ch.rows }
        ensures { (ch : ChainSeen) → slice_get self.old z ≡ Some ch → self.new ≡ set self.old z (after_crash ch k) }
    {
        self.chains[z as usize].crash(k);
    }

    /// The tail of a serializer knows how many pairs took effect.
    pub fn look(&mut self, z: u16, count: usize)
        requires { z < length self.old }
        ensures { (ch : ChainSeen) → slice_get self.old z ≡ Some ch → self.new ≡ set self.old z (after_look ch count) }
    {
        self.chains[z as usize].look(count);
    }

    /// The pair at a place of the tail's list took effect.
    pub fn effect(&mut self, z: u16, place: usize, from: NodeId, count: usize)
        requires within { z < length self.old }
        requires place { place < 18446744073709551615 }
        requires from { (ch : ChainSeen) → slice_get self.old z ≡ Some ch
            → get_or ch.taken (code from) 0 < 18446744073709551615 }
        requires put { (ch : ChainSeen) → slice_get self.old z ≡ Some ch → ch.put + count < 18446744073709551616 }
        ensures { (ch : ChainSeen) → slice_get self.old z ≡ Some ch
            → self.new ≡ set self.old z (after_effect ch place from count) }
    {
        self.chains[z as usize].effect(place, from, count);
    }
}

//! Changes of one chain among those of all trees.
ghost use Rattle.std.specs.Prelude.{◌≡◌, ◌<◌, ◌+◌, ◌++◌, [], ◌∷◌, List, Some, IsSome, length, get_or, IfOk, OnOk};
ghost use Rattle.std.specs.Prelude.{OnErr};
ghost use Rattle.sat_serial.specs.Hits.{code};
ghost use Rattle.sat_chain_laws.specs.declared.pair.Pair.{Pair as PairSeen};
ghost use Rattle.sat_chain.specs.Chained.{ChainSeen, row_of, after_change, after_crash, after_look, after_effect};
ghost use Rattle.sat_chain.specs.Stands.{chain_at, with_chain};

use crate::chain::Chain;
use crate::row::Row;
use sat_chain_laws::Pair;
use sat_label::NodeId;
use std::alloc::AllocError;

/// The chain of a serializer of the tree at a place.
pub fn chain_at(rows: &Vec<Row>, place: usize, z: u16) -> &Chain
    requires { IsSome (chain_at rows.now.items place z) }
    ensures { Some result.now ≡ chain_at rows.now.items place z }
{
    rows[place].chain(z)
}

/// A replica of that chain gains a pair. For want of memory all is as before.
pub fn gain_at(
    rows: &mut Vec<Row>,
    place: usize,
    z: u16,
    k: usize,
    pair: Pair,
) -> Result<(), AllocError>
    requires there { IsSome (chain_at rows.old.items place z) }
    requires lives { (ch : ChainSeen) → chain_at rows.old.items place z ≡ Some ch → IsSome (row_of ch.rows k) }
    ensures ok { OnOk result ((ch : ChainSeen) (xs : List PairSeen) → chain_at rows.old.items place z ≡ Some ch
        → row_of ch.rows k ≡ Some xs → rows.new.items
        ≡ with_chain rows.old.items place z (after_change ch k (xs ++ pair ∷ []))) }
    ensures err { OnErr result (rows.new.items ≡ rows.old.items) }
{
    rows[place].gain(z, k, pair)?;
    Ok(())
}

/// A replica of that chain stops for good. It takes no memory.
pub fn crash_at(rows: &mut Vec<Row>, place: usize, z: u16, k: usize)
    requires there { IsSome (chain_at rows.old.items place z) }
    requires replica { (ch : ChainSeen) → chain_at rows.old.items place z ≡ Some ch → k < length ch.rows }
    ensures { (ch : ChainSeen) → chain_at rows.old.items place z ≡ Some ch
        → rows.new.items ≡ with_chain rows.old.items place z (after_crash ch k) }
{
    rows[place].crash(z, k);
}

/// The tail of that chain knows how many pairs took effect. It takes no memory.
pub fn look_at(rows: &mut Vec<Row>, place: usize, z: u16, count: usize)
    requires { IsSome (chain_at rows.old.items place z) }
    ensures { (ch : ChainSeen) → chain_at rows.old.items place z ≡ Some ch
        → rows.new.items ≡ with_chain rows.old.items place z (after_look ch count) }
{
    rows[place].look(z, count);
}

/// The pair at a place of its tail's list, which came from a node, took effect, and was put on so many links. It takes
/// no memory.
pub fn effect_at(
    rows: &mut Vec<Row>,
    place: usize,
    z: u16,
    number: usize,
    from: NodeId,
    count: usize,
)
    requires there { IsSome (chain_at rows.old.items place z) }
    requires number { number < 18446744073709551615 }
    requires from { (ch : ChainSeen) → chain_at rows.old.items place z ≡ Some ch
        → get_or ch.taken (code from) 0 < 18446744073709551615 }
    requires put { (ch : ChainSeen) → chain_at rows.old.items place z ≡ Some ch
        → ch.put + count < 18446744073709551616 }
    ensures { (ch : ChainSeen) → chain_at rows.old.items place z ≡ Some ch
        → rows.new.items ≡ with_chain rows.old.items place z (after_effect ch number from count) }
{
    rows[place].effect(z, number, from, count);
}

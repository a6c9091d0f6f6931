//! A new tail.
ghost use Rattle.std.specs.Prelude.{ℕ, ◌≡◌, ◌≤◌, ◌<◌, ◌&&◌, List, nat_lt, length, take, sum_by, Some, None, IsSome};
ghost use Rattle.sat_label.specs.Members.{In};
ghost use Rattle.sat_label.specs.Order.{node_eq};
ghost use Rattle.sat_label.specs.Words.{bit};
ghost use Rattle.sat_label.specs.declared.label.Label as declared_label;
ghost use Rattle.sat_tree.specs.Shape.{TreeShape};
ghost use Rattle.sat_sites.specs.Interested.{Interested, is_for, IsLabelOf};
ghost use Rattle.sat_serial.specs.Routes.{goes, IsFarSide};
ghost use Rattle.sat_chain_laws.specs.declared.pair.Pair.{Pair as PairSeen};
ghost use Rattle.sat_chain.specs.Chained.{row_of, ways_on, CanTell, Accounts};

use crate::chain::Chain;
use sat_chain_laws::Pair;
use sat_label::{NodeId, SiteSet};
use sat_sites::Interest;
use sat_tree::Tree;

// Whether a label that came from a node goes on to a neighbour, by its targets and the sites beyond that.
fn goes(targets: &SiteSet, from: NodeId, to: NodeId, side: &SiteSet) -> bool
    ensures { (a : Interested) (t : TreeShape) (z : ℕ) (l : declared_label.Label) → a.sites ≡ length t.seats
        → IsFarSide t z to side.now →
        ((k : ℕ) → bit targets.now.bits k ≡ is_for a l k) → result ≡ goes a t z from l to }
{
    !from.is_same(&to) && targets.meets(side)
}

// On how many outgoing links of a serializer a pair is put.
fn ways(pair: &Pair, tree: &Tree, z: u16, interest: &Interest) -> u64
    requires serializer { z < length tree.now.parents }
    requires sites { interest.now.sites ≡ length tree.now.seats }
    requires label { IsLabelOf interest.now pair.now.label }
    ensures { result ≡ ways_on interest.now tree.now z pair.now }
{
    let targets = interest.targets(&pair.label);
    let mut count: u64 = 0;
    for node in tree.neighbours(z) {
        let side = tree.beyond(NodeId::Serializer(z), *node);
        if goes(&targets, pair.from, *node, &side) {
            count += 1;
        }
    }
    count
}

/// How many pairs of its list took effect before a replica became the tail. It is not told: it finds this from how many
/// labels were put on the outgoing links of its serializer, all together, since each pair that took effect was put on
/// those that it goes on to. Each pair goes on to one at least, and some number of pairs accounts for what was put;
/// there is no other such number. It takes no memory.
pub fn applied_by_links(list: &[Pair], put: u64, tree: &Tree, z: u16, interest: &Interest) -> usize
    requires serializer { z < length tree.now.parents }
    requires sites { interest.now.sites ≡ length tree.now.seats }
    requires labels { (p : PairSeen) → In list.now p → IsLabelOf interest.now p.label }
    requires each { (p : PairSeen) → In list.now p → 0 < ways_on interest.now tree.now z p }
    requires some { (n : ℕ) × (n ≤ length list.now)
        × (sum_by (ways_on interest.now tree.now z) (take n list.now) ≡ put) }
    ensures tells { (n : ℕ) → n ≤ length list.now → sum_by (ways_on interest.now tree.now z) (take n list.now) ≡ put
        → result ≡ n }
{
    let mut left = put;
    for (place, pair) in list.iter().enumerate() {
        if left == 0 {
            return place;
        }
        left -= ways(pair, tree, z, interest);
    }
    list.len()
}

/// How many pairs of a tail's list took effect, as it knows, or else by what was put on the outgoing links of its
/// serializer. It takes no memory.
pub fn applied(chain: &Chain, tail: usize, tree: &Tree, z: u16, interest: &Interest) -> usize
    requires lives { IsSome (row_of chain.now.rows tail) }
    requires serializer { z < length tree.now.parents }
    requires sites { interest.now.sites ≡ length tree.now.seats }
    requires tells { (xs : List PairSeen) → row_of chain.now.rows tail ≡ Some xs
        → CanTell interest.now tree.now z xs chain.now.put }
    ensures { (n : ℕ) → ((m : ℕ) → chain.now.found ≡ Some m → m ≡ n) →
        ((xs : List PairSeen) → row_of chain.now.rows tail ≡ Some xs
        → Accounts interest.now tree.now z xs chain.now.put n) → result ≡ n }
{
    match chain.found() {
        Some(count) => count,
        None => applied_by_links(chain.list(tail), chain.put(), tree, z, interest),
    }
}

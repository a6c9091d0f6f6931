//! Links, with both their ends.
ghost use Rattle.std.specs.Prelude.{◌≡◌, ◌<◌, ◌+◌, length, IfOk, OnOk};
ghost use Rattle.sat_wires.specs.Ends.{ArePairs};

use sat_link::{LinkIn, LinkOut, link};
use sat_node::Envelope;
use std::alloc::{AllocError, Global};

/// The two ends of each of some links, in one order.
#[derive(Drop)]
pub struct LinkPairs {
    pub ins: Vec<LinkIn<Envelope>>,
    pub outs: Vec<LinkOut<Envelope>>,
}

// One link more.
#[tactic(auto, using(crate::proofs::Pairs::one_more))]
fn add_pair(pairs: &mut LinkPairs, alloc: Global, capacity: usize) -> Result<(), AllocError>
    requires capacity { 0 < capacity }
    requires pairs { ArePairs capacity pairs.old.ins.items pairs.old.outs.items }
    ensures many { OnOk result (length pairs.new.ins.items ≡ length pairs.old.ins.items + 1) }
    ensures pairs { OnOk result (ArePairs capacity pairs.new.ins.items pairs.new.outs.items) }
{
    let (input, output) = link::<Envelope>(alloc, capacity)?;
    pairs.ins.push(input)?;
    pairs.outs.push(output)?;
    Ok(())
}

/// So many links, each of which holds at most `capacity` messages, and through which nothing went.
#[tactic(auto, using(crate::proofs::Pairs::no_pairs))]
pub fn make_pairs(alloc: Global, capacity: usize, count: usize) -> Result<LinkPairs, AllocError>
    requires { 0 < capacity }
    ensures many { IfOk result (λ pairs. length pairs.ins.items ≡ count) }
    ensures pairs { IfOk result (λ pairs. ArePairs capacity pairs.ins.items pairs.outs.items) }
{
    let mut pairs = LinkPairs {
        ins: Vec::new(alloc),
        outs: Vec::new(alloc),
    };
    'pairs: for _ in 0..count {
        add_pair(&mut pairs, alloc, capacity)?;
    }
    Ok(pairs)
}

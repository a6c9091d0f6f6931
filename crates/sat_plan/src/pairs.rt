//! Pairs of sites.
ghost use Rattle.std.specs.Prelude.{◌≡◌, ◌++◌, map, filter, IfOk, OnOk};
ghost use Rattle.sat_label.specs.Words.{below};
ghost use Rattle.sat_plan.specs.Mismatch.{pair_of, is_other, pairs};

use std::alloc::{AllocError, Global};

/// Two different sites, in order.
#[derive(Clone, Copy)]
pub struct Pair {
    pub from: u16,
    pub to: u16,
}

// Adds the pairs of a site with each other one.
fn add_pairs(pairs: &mut Vec<Pair>, sites: u16, from: u16) -> Result<(), AllocError>
    ensures { OnOk result (pairs.new.items ≡ pairs.old.items
        ++ map (pair_of from) (filter (is_other from) (below sites))) }
{
    for to in 0..sites {
        if to != from {
            pairs.push(Pair { from, to })?;
        }
    }
    Ok(())
}

/// The ordered pairs of different sites.
#[tactic(auto, using(crate::proofs::Lists::pairs_start, crate::proofs::Lists::pairs_more), unfolding(crate::specs::Mismatch::pairs))]
pub fn pairs(alloc: Global, sites: u16) -> Result<Vec<Pair>, AllocError>
    ensures { IfOk result (λ list. list.items ≡ pairs sites) }
{
    let mut list = Vec::new(alloc);
    for from in 0..sites {
        add_pairs(&mut list, sites, from)?;
    }
    Ok(list)
}

//! A tree that is being built.
ghost use Rattle.std.specs.Prelude.{◌≡◌, ◌<◌, length, slice_index, IfOk};
ghost use Rattle.sat_plan.specs.Config.{config_of, Fits};
ghost use Rattle.sat_plan.specs.Drafts.{draft_config};
ghost use Rattle.sat_plan.specs.Mismatch.{mismatch};
ghost use Rattle.sat_plan.specs.Steps.{undelayed};

use crate::edges::edges;
use crate::measure::mismatch;
use sat_delay::Delays;
use sat_tree::Tree;
use std::alloc::{AllocError, Global};
use std::marker::Model;

/// A tree with a place for each serializer and a delay for each directed edge that leaves one.
#[derive(Drop)]
pub struct Draft {
    pub tree: Tree,
    pub places: Vec<u64>,
    pub delays: Vec<u64>,
}

impl Draft {
    /// A tree at its places with all delays 0.
    #[tactic(auto, unfolding(crate::specs::Steps::undelayed))]
    pub fn undelayed(alloc: Global, tree: Tree, places: Vec<u64>) -> Result<Draft, AllocError>
        ensures { IfOk result (λ c. draft_config c ≡ undelayed tree places.items) }
    {
        let count = edges(alloc, &tree)?.len();
        let delays = vec![in alloc; 0; count]?;
        Ok(Draft {
            tree,
            places,
            delays,
        })
    }

    /// Its mismatch.
    pub fn mismatch(&self, alloc: Global, d: &Delays) -> Result<u64, AllocError>
        requires { Fits d.now (draft_config self.now) }
        ensures { IfOk result (λ cost. cost ≡ mismatch d.now (draft_config self.now)) }
    {
        let cost = mismatch(alloc, d, &self.tree, &self.places, &self.delays)?;
        Ok(cost)
    }
}

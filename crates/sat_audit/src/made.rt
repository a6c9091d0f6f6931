//! What was heard so far, and the points that were made.
ghost use Rattle.std.specs.Prelude.{◌≡◌, ◌++◌, [], ◌∷◌, IfOk, OnOk};
ghost use Rattle.sat_audit.specs.Lines.{makes_again};
ghost use Rattle.sat_audit.specs.Noted.{HasMore};

use crate::{Heard, HeardList, Told};
use sat_label::Point;
use std::alloc::{AllocError, Global};
use std::collections::BTreeSet;
use std::marker::Model;

/// What was heard so far. The points that were made are kept beside it, so that each is looked up by its order.
#[derive(Drop)]
pub struct Noted {
    made: BTreeSet<Point>,
    heard: HeardList,
}

impl Model for Noted {
    ghost use Rattle.std.specs.Prelude.{List};
    ghost use Rattle.sat_audit.specs.declared.heard.Heard.{Heard};
    ghost use Rattle.sat_audit.specs.Noted.{HasMade};

    ghost Value = { List Heard };

    ghost view = { λ a. a.heard };

    ghost invariant = { λ a. HasMade a.made a.heard };
}

// Adds the point that what is told makes, if it makes one.
#[tactic(auto, using(crate::proofs::Makings::more_some, crate::proofs::Makings::more_none))]
fn add_point(made: &mut BTreeSet<Point>, told: &Told) -> Result<(), AllocError>
    ensures { OnOk result (HasMore made.old made.new told.now) }
{
    match told.made() {
        Some(point) => {
            made.insert(point)?;
            Ok(())
        }
        None => Ok(()),
    }
}

impl Noted {
    /// Nothing was heard. It takes no memory.
    pub fn new(alloc: Global) -> Noted
        ensures { result ≡ [] }
    {
        Noted {
            made: BTreeSet::new(alloc),
            heard: HeardList::new(alloc),
        }
    }

    /// Whether what is told makes a point that was made before.
    pub fn makes_again(&self, told: &Told) -> bool
        ensures { result ≡ makes_again self.now told.now }
    {
        match told.made() {
            Some(point) => self.made.contains(&point),
            None => false,
        }
    }

    /// The same, with one entry more.
    #[tactic(auto, using(crate::proofs::Makings::made_with))]
    pub fn with(self, heard: Heard) -> Result<Noted, AllocError>
        ensures { IfOk result (λ noted. noted ≡ self ++ heard ∷ []) }
    {
        let Noted {
            mut made,
            heard: mut list,
        } = self;
        add_point(&mut made, &heard.told)?;
        list.push(heard)?;
        Ok(Noted { made, heard: list })
    }

    /// What was heard.
    pub fn into_heard(self) -> HeardList
        ensures { result ≡ self }
    {
        let Noted { heard, .. } = self;
        heard
    }
}

//! What the gears of a site give to a gather.
ghost use Rattle.std.specs.Prelude.{◌≡◌, IfOk};

use sat_bulk::Drained;
use std::alloc::AllocError;
use std::marker::Model;

/// What the gears of a site give to a gather, in their order. Contracts see the list of it.
#[derive(Drop)]
pub struct Drains {
    members: Vec<Drained>,
}

impl Model for Drains {
    ghost use Rattle.std.specs.Prelude.{List};
    ghost use Rattle.sat_bulk.specs.declared.Drained.{Drained};

    ghost Value = { List Drained };

    ghost view = { λ a. a.members.items };
}

impl Drains {
    /// These.
    pub fn of(members: Vec<Drained>) -> Drains
        ensures { result ≡ members.items }
    {
        Drains { members }
    }

    /// Each of them.
    pub fn as_slice(&self) -> &[Drained]
        ensures { result.now ≡ self.now }
    {
        self.members.as_slice()
    }

    /// The same again.
    pub fn copy(&self) -> Result<Drains, AllocError>
        ensures { IfOk result (λ copy. copy ≡ self.now) }
    {
        let mut members = Vec::new(*self.members.allocator());
        for given in self.members.as_slice() {
            members.push(given.copy()?)?;
        }
        Ok(Drains { members })
    }
}

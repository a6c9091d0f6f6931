//! Names in the order of the header.
ghost use Rattle.std.specs.Prelude.{◌≡◌, ◌<◌, ◌++◌, [], ◌∷◌, length, position, false, OnOk, OnErr, IfSome};
ghost use Rattle.std.specs.List.{list_any};
ghost use Rattle.std.specs.Str.{bytes_eq};

use indexmap::IndexSet;
use std::alloc::{AllocError, Global};
use std::marker::Model;

/// Names in the order of the header, each found by its hash. Contracts see them as a list.
#[derive(Drop)]
pub struct Names {
    set: IndexSet<Vec<u8>>,
}

impl Model for Names {
    ghost use Rattle.std.specs.Prelude.{List, ℕ};
    ghost use Rattle.sat_script.specs.Names.{texts_of};

    ghost Value = { List (List ℕ) };

    ghost view = { λ a. texts_of a.set.keys };
}

impl Names {
    /// No names.
    pub fn new(alloc: Global) -> Names
        ensures { result ≡ [] }
    {
        Names {
            set: IndexSet::new(alloc),
        }
    }

    /// The place of a name, from 0.
    pub fn place_of(&self, name: &[u8]) -> Option<usize>
        ensures place { result ≡ position (λ other. bytes_eq other name.now) self.now }
        ensures inside { IfSome result (λ place. place < length self.now) }
    {
        self.set.get_index_of(name)
    }

    /// Whether a name is one of them.
    pub fn has(&self, name: &[u8]) -> bool
        ensures { result ≡ list_any (λ other. bytes_eq other name.now) self.now }
    {
        self.set.contains(name)
    }

    /// Adds a new name. For want of memory the names are as before.
    pub fn add(&mut self, alloc: Global, name: &[u8]) -> Result<(), AllocError>
        requires { list_any (λ other. bytes_eq other name.now) self.old ≡ false }
        ensures ok { OnOk result (self.new ≡ self.old ++ name.now ∷ []) }
        ensures err { OnErr result (self.new ≡ self.old) }
    {
        let name = name.to_vec(alloc)?;
        self.set.insert(name)?;
        Ok(())
    }
}

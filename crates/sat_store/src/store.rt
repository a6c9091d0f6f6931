//! The store of versions.
ghost use Rattle.std.specs.Prelude.{◌≡◌, ◌<◌, ◌↔◌, length, replicate, slice_get, slice_set, Some, None, IfOk};
ghost use Rattle.std.specs.Prelude.{MatchOption};
ghost use Rattle.sat_store.specs.Stored.{newer, is_kept, version_at};

use sat_label::Version;
use std::alloc::{AllocError, Global};
use std::marker::Model;

/// What a put did.
#[derive(Clone, Copy, Debug, PartialEq, Eq)]
pub enum Put {
    /// The version is kept now.
    Kept,
    /// The store has one with an equal or a greater label, and keeps that.
    Lower,
}

/// For each of a fixed number of items the version with the greatest label that was put there, if any. All its memory
/// is taken when it is made.
#[derive(Drop)]
pub struct Store {
    // For each item the place of its version, if it has one.
    places: Vec<Option<u16>>,
    // The versions, in the order in which their items first had one. There is room for one of each item; the machine
    // gives a page of it when that is first written, so a store of many items of which few have a version is small.
    versions: Vec<Version>,
}

impl Model for Store {
    ghost use Rattle.std.specs.Prelude.{List, vec_capacity};
    ghost use Rattle.std.specs.declared.option.Option.{Option};
    ghost use Rattle.sat_label.specs.Versions.{Version};
    ghost use Rattle.sat_store.specs.Placed.{placed, IsPlaced};

    ghost Value = { List (Option Version) };

    ghost view = { λ a. placed a.versions.items a.places.items };

    ghost invariant = { λ a. IsPlaced a.places.items a.versions.items (vec_capacity a.versions) };
}

impl Store {
    /// A store of so many items, with no versions.
    pub fn new(alloc: Global, items: u16) -> Result<Store, AllocError>
        ensures { IfOk result (λ store. store ≡ replicate items None) }
    {
        let mut places = Vec::new(alloc);
        places.resize(items as usize, None)?;
        let versions = Vec::with_capacity(alloc, items as usize)?;
        Ok(Store { places, versions })
    }

    /// Puts a version. It is kept exactly where the item had none, or one with a lower label.
    pub fn put(&mut self, item: u16, version: Version) -> Put
        requires { item < length self.old }
        ensures new { self.new ≡ slice_set self.old item (newer (version_at self.old item) version) }
        ensures kept { result ≡ Put.Kept ↔ is_kept (version_at self.old item) version.label }
    {
        let Some(place) = self.places.as_slice()[item as usize] else {
            self.places[item as usize] = Some(self.versions.len() as u16);
            self.versions.push_reserved(version);
            return Put::Kept;
        };
        let kept = &mut self.versions[place as usize];
        if !kept.label().is_below(&version.label()) {
            return Put::Lower;
        }
        *kept = version;
        Put::Kept
    }

    /// The version of an item. None exactly where nothing was put.
    pub fn get(&self, item: u16) -> Option<&Version>
        requires { item < length self.now }
        ensures { MatchOption result (version_at self.now item ≡ None)
            (λ version. version_at self.now item ≡ Some version.now) }
    {
        let place = self.places.as_slice()[item as usize]?;
        Some(&self.versions[place as usize])
    }
}

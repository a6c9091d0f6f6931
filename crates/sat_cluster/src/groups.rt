//! The locks of several gears of a site, which are held together.
ghost use Rattle.std.specs.Prelude.{ℕ, ◌≡◌, ◌==◌, ◌%◌, ◌<◌, ◌≤◌, ◌+◌, ◌-◌, ◌++◌, ◌∷◌, [], true, length, map};
ghost use Rattle.std.specs.Prelude.{vec_capacity, IfOk, IfSome};
ghost use Rattle.std.specs.Sync.Mutex.{mutex_guard_value};
ghost use Rattle.sat_label.specs.declared.node.NodeName.TheVariants.{Gear as AtGear};
ghost use Rattle.sat_label.specs.Grouped.{list_of};
ghost use Rattle.sat_label.specs.Words.{has};
ghost use Rattle.sat_act.specs.Answers.{gear_of};
ghost use Rattle.sat_node.specs.Together.{lent as lent_by};
ghost use Rattle.sat_opened.specs.Opened.{name_in};
ghost use Rattle.sat_parts_pump.specs.Lent.{gears_from, lends};
ghost use Rattle.sat_cluster.specs.Locking.{has_item, one_if};

use crate::Cluster;
use sat_label::Items;
use sat_machines::Laid;
use sat_node::{Held, Names};
use sat_parts::GearNode;
use sat_parts_pump::{Lent, Watched, lends};
use std::alloc::AllocError;
use std::sync::{MutexGuard, Wait};

// Whether a gear has one of these items, of so many gears.
fn has_gear(items: &Items, gears: u16, gear: u16) -> bool
    requires { 0 < gears }
    ensures { result ≡ has ◌==◌ (map (λ (x : ℕ). x % gears) (list_of items.now)) gear }
{
    match *items {
        Items::One(a) => a % gears == gear,
        Items::Two(a, b) => a % gears == gear || b % gears == gear,
        Items::Three(a, b, c) => a % gears == gear || b % gears == gear || c % gears == gear,
        Items::Four(a, b, c, d) => {
            a % gears == gear || b % gears == gear || c % gears == gear || d % gears == gear
        }
    }
}

// No lock of another site is held where these are called, and gears' locks are taken ascending.
impl<N: Laid + Names> Cluster<N> {
    // Room for the locks of all gears of a site. It is made before any lock is taken, so that nothing fails between two
    // of them.
    pub(crate) fn room_for_gears<'a>(
        &'a self,
    ) -> Result<Vec<MutexGuard<'a, Held<GearNode<N>, N>>>, AllocError>
        ensures empty { IfOk result (λ room. room.items ≡ []) }
        ensures room { IfOk result (λ room. N.deployment.gears ≤ vec_capacity room) }
    {
        let room = Vec::with_capacity(self.allocator(), usize::from(self.deployment().gears()))?;
        Ok(room)
    }

    // Takes the lock of a gear behind others of its site with lower numbers, for which there is room. False where there
    // is none of this name.
    #[tactic(auto, using(crate::proofs::Locking::name_added))]
    fn add_gear<'a, R: Wait>(
        &'a self,
        rt: &R,
        gears: &mut Vec<MutexGuard<'a, Held<GearNode<N>, N>>>,
        site: u16,
        gear: u16,
    ) -> bool
        requires { length gears.old.items < vec_capacity gears.old }
        ensures added { result ≡ true → map name_in (lent_by gears.new.items)
            ≡ map name_in (lent_by gears.old.items) ++ AtGear site gear ∷ [] }
        ensures many { length gears.new.items ≤ length gears.old.items + 1 }
        ensures room { vec_capacity gears.new ≡ vec_capacity gears.old }
    {
        let Some(guard) = self.gear(rt, site, gear) else {
            return false;
        };
        gears.push_reserved(guard);
        true
    }

    // The same of a gear that is wanted. Where it isn't, no lock is taken.
    #[tactic(auto, using(crate::proofs::Locking::none_added, crate::proofs::Locking::one_added))]
    fn add_if<'a, R: Wait>(
        &'a self,
        rt: &R,
        gears: &mut Vec<MutexGuard<'a, Held<GearNode<N>, N>>>,
        site: u16,
        gear: u16,
        wanted: bool,
    ) -> bool
        requires { length gears.old.items < vec_capacity gears.old }
        ensures added { result ≡ true → map name_in (lent_by gears.new.items)
            ≡ map name_in (lent_by gears.old.items) ++ map (AtGear site) (one_if wanted gear) }
        ensures many { length gears.new.items ≤ length gears.old.items + 1 }
        ensures room { vec_capacity gears.new ≡ vec_capacity gears.old }
    {
        if !wanted {
            return true;
        }
        self.add_gear(rt, gears, site, gear)
    }

    // Whether a gear has one of these items.
    fn has_one(&self, items: &Items, gear: u16) -> bool
        ensures { result ≡ has_item N.deployment items.now gear }
    {
        let count = self.deployment().gears();
        has_gear(items, count, gear)
    }

    // Takes the locks of those gears of a site with numbers from one on, and below another, that have one of these
    // items, ascending, behind others of the site with lower numbers, for which there is room. False where there is
    // none of such a name.
    #[tactic(auto, using(crate::proofs::Locking::range_more, crate::proofs::Locking::range_starts))]
    fn add_some<'a, R: Wait>(
        &'a self,
        rt: &R,
        gears: &mut Vec<MutexGuard<'a, Held<GearNode<N>, N>>>,
        site: u16,
        items: &Items,
        from: u16,
        to: u16,
    ) -> bool
        requires order { from ≤ to }
        requires room { length gears.old.items + to ≤ vec_capacity gears.old + from }
        ensures added { result ≡ true → map name_in (lent_by gears.new.items) ≡ map name_in (lent_by gears.old.items)
            ++ map (AtGear site) (gears_from (has_item N.deployment items.now) from (to - from)) }
        ensures many { length gears.new.items + from ≤ length gears.old.items + to }
        ensures room { vec_capacity gears.new ≡ vec_capacity gears.old }
    {
        for gear in from..to {
            let wanted = self.has_one(items, gear);
            if !self.add_if(rt, gears, site, gear, wanted) {
                return false;
            }
        }
        true
    }

    // Takes the locks of all gears of a site that have one of these items, ascending, of which the home is one: that of
    // the home comes back, and the others', for which there is room, are added. Whoever calls it holds no lock. `None`
    // where there is none of such a name.
    pub(crate) fn add_beside<'a, R: Wait>(
        &'a self,
        rt: &R,
        others: &mut Vec<MutexGuard<'a, Held<GearNode<N>, N>>>,
        site: u16,
        items: &Items,
        home: u16,
    ) -> Option<MutexGuard<'a, Held<GearNode<N>, N>>>
        requires home { home < N.deployment.gears }
        requires empty { others.old.items ≡ [] }
        requires room { N.deployment.gears ≤ vec_capacity others.old }
        ensures home { IfSome result (λ guard. (mutex_guard_value guard).node.name ≡ AtGear site home) }
        ensures others { IfSome result (λ _. map name_in (lent_by others.new.items)
            ≡ map (AtGear site) (gears_from (has_item N.deployment items.now) 0 (home - 0))
            ++ map (AtGear site) (gears_from (has_item N.deployment items.now) (home + 1)
            (N.deployment.gears - (home + 1)))) }
    {
        let count = self.deployment().gears();
        if !self.add_some(rt, others, site, items, 0, home) {
            return None;
        }
        let guard = self.gear(rt, site, home)?;
        if !self.add_some(rt, others, site, items, home + 1, count) {
            return None;
        }
        Some(guard)
    }

    // Takes the locks of those gears of a hub's site that an act of the hub needs, whose lock is held, ascending, for
    // which there is room. False where there is none of such a name.
    #[tactic(auto, using(crate::proofs::Locking::first_more))]
    pub(crate) fn add_lent<'a, R: Wait>(
        &'a self,
        rt: &R,
        gears: &mut Vec<MutexGuard<'a, Held<GearNode<N>, N>>>,
        hub: &Watched<N>,
        site: u16,
        lent: &Lent,
    ) -> bool
        requires empty { gears.old.items ≡ [] }
        requires room { N.deployment.gears ≤ vec_capacity gears.old }
        ensures { result ≡ true → map name_in (lent_by gears.new.items)
            ≡ map (AtGear site) (gears_from (lends hub.now.node.machine.shape lent.now) 0 N.deployment.gears) }
    {
        for gear in 0..self.deployment().gears() {
            let wanted = lends(hub, lent, gear);
            if !self.add_if(rt, gears, site, gear, wanted) {
                return false;
            }
        }
        true
    }
}

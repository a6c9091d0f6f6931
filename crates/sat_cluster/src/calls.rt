//! What the sessions of a cluster do at its nodes, each under its lock.
ghost use Rattle.std.specs.Prelude.{◌≡◌, ◌<◌, length, Some, None};
ghost use Rattle.sat_act.specs.Ranges.{IsActOf};
ghost use Rattle.sat_session.specs.Calls.{IsGroup};
ghost use Rattle.sat_cluster.specs.Doing.{Did};

use crate::Cluster;
use crate::asking::{
    alone, attach_at, close_at, fall_at, kill_at, move_at, read_at, write_alone, write_at,
    writes_alone, writes_at,
};
use sat_act::{Act, Answer};
use sat_label::{Items, Value, Values};
use sat_machines::Laid;
use sat_node::{CallFault, Names};
use sat_session::Session;
use std::sync::Wait;

// Where a lock's node has another name, which never is, a call answers `Memory`, as for want of memory.
impl<N: Laid + Names> Cluster<N> {
    // A write of a client that has a seat.
    #[tactic(auto, using(crate::proofs::Doing::did_not, crate::proofs::Doing::gear_seat))]
    fn write_seated<R: Wait>(
        &self,
        rt: &R,
        session: &mut Session<N>,
        site: u16,
        item: u16,
        value: &Value,
    ) -> Result<Answer, CallFault>
        requires client { session.old.number < length N.deployment.clients }
        requires item { item < length N.deployment.items }
        requires seat { session.old.client.seat ≡ Some site }
        ensures { Did N.deployment (Act.Write session.old.number item value.now) result session.old session.new }
    {
        let Some(mut guard) = self.gear(rt, site, self.gear_of(item)) else {
            return Err(CallFault::Memory);
        };
        let held = &mut *guard;
        write_at(session, held, site, item, value)
    }

    // A write of several items by a client that has a seat.
    #[tactic(auto, using(crate::proofs::Doing::did_not, crate::proofs::Doing::gear_seat))]
    fn writes_seated<R: Wait>(
        &self,
        rt: &R,
        session: &mut Session<N>,
        site: u16,
        items: Items,
        values: &Values,
    ) -> Result<Answer, CallFault>
        requires client { session.old.number < length N.deployment.clients }
        requires group { IsGroup N.deployment items values.now }
        requires seat { session.old.client.seat ≡ Some site }
        ensures { Did N.deployment (Act.Writes session.old.number items values.now) result session.old session.new }
    {
        let Ok(mut others) = self.room_for_gears() else {
            return Err(CallFault::Memory);
        };
        let home = self.gear_of(items.least());
        let Some(mut guard) = self.add_beside(rt, &mut others, site, &items, home) else {
            return Err(CallFault::Memory);
        };
        let held = &mut *guard;
        writes_at(session, held, &mut others, site, items, values)
    }

    // A read of a client that has a seat.
    #[tactic(auto, using(crate::proofs::Doing::did_not, crate::proofs::Doing::gear_seat))]
    fn read_seated<R: Wait>(
        &self,
        rt: &R,
        session: &mut Session<N>,
        site: u16,
        item: u16,
    ) -> Result<Answer, CallFault>
        requires client { session.old.number < length N.deployment.clients }
        requires item { item < length N.deployment.items }
        requires seat { session.old.client.seat ≡ Some site }
        ensures { Did N.deployment (Act.Read session.old.number item) result session.old session.new }
    {
        let Some(mut guard) = self.gear(rt, site, self.gear_of(item)) else {
            return Err(CallFault::Memory);
        };
        let held = &mut *guard;
        read_at(session, held, site, item)
    }

    // A move of a client that has a seat.
    #[tactic(auto, using(crate::proofs::Doing::did_not, crate::proofs::Doing::gear_seat))]
    fn move_seated<R: Wait>(
        &self,
        rt: &R,
        session: &mut Session<N>,
        site: u16,
        to: u16,
    ) -> Result<Answer, CallFault>
        requires client { session.old.number < length N.deployment.clients }
        requires to { to < N.deployment.sites }
        requires seat { session.old.client.seat ≡ Some site }
        ensures { Did N.deployment (Act.Move session.old.number to) result session.old session.new }
    {
        let Some(mut guard) = self.gear(rt, site, 0) else {
            return Err(CallFault::Memory);
        };
        let held = &mut *guard;
        move_at(session, held, site, to)
    }

    // An attach of a client that has no seat.
    #[tactic(auto, using(crate::proofs::Doing::did_not, crate::proofs::Doing::no_seat))]
    fn attach_free<R: Wait>(
        &self,
        rt: &R,
        session: &mut Session<N>,
        site: u16,
    ) -> Result<Answer, CallFault>
        requires client { session.old.number < length N.deployment.clients }
        requires site { site < N.deployment.sites }
        requires seat { session.old.client.seat ≡ None }
        ensures { Did N.deployment (Act.Attach session.old.number site) result session.old session.new }
    {
        let Some(mut guard) = self.hub(rt, site) else {
            return Err(CallFault::Memory);
        };
        let watched = &mut *guard;
        attach_at(session, watched, site)
    }

    /// A client writes an item at the site where it is seated: `NoSession` exactly where it has no seat, which the
    /// session answers alone. `Worn`, with the greatest u64, comes there exactly where the session's number is that,
    /// and at a site only where its number or the session's is; `Memory`. After an error the session is as before.
    pub fn write<R: Wait>(
        &self,
        rt: &R,
        session: &mut Session<N>,
        item: u16,
        value: &Value,
    ) -> Result<Answer, CallFault>
        requires client { session.old.number < length N.deployment.clients }
        requires item { item < length N.deployment.items }
        ensures { Did N.deployment (Act.Write session.old.number item value.now) result session.old session.new }
    {
        match session.client().seat {
            Some(site) => self.write_seated(rt, session, site, item, value),
            None => write_alone(session, item, value),
        }
    }

    /// A client writes several items under one label at the site where it is seated, in a deployment whose format
    /// allows it. Refusals and errors come as in `write`.
    pub fn writes<R: Wait>(
        &self,
        rt: &R,
        session: &mut Session<N>,
        items: Items,
        values: &Values,
    ) -> Result<Answer, CallFault>
        requires client { session.old.number < length N.deployment.clients }
        requires group { IsGroup N.deployment items values.now }
        ensures { Did N.deployment (Act.Writes session.old.number items values.now) result session.old session.new }
    {
        match session.client().seat {
            Some(site) => self.writes_seated(rt, session, site, items, values),
            None => writes_alone(session, items, values),
        }
    }

    /// A client reads an item at the site where it is seated. Refusals and errors come as in `write`.
    #[tactic(auto, using(crate::proofs::Doing::as_read))]
    pub fn read<R: Wait>(
        &self,
        rt: &R,
        session: &mut Session<N>,
        item: u16,
    ) -> Result<Answer, CallFault>
        requires client { session.old.number < length N.deployment.clients }
        requires item { item < length N.deployment.items }
        ensures { Did N.deployment (Act.Read session.old.number item) result session.old session.new }
    {
        match session.client().seat {
            Some(site) => self.read_seated(rt, session, site, item),
            None => {
                let client = session.number();
                alone(session, Act::Read { client, item })
            }
        }
    }

    /// A client gives up its seat, to go to another site. Refusals and errors come as in `write`.
    #[tactic(auto, using(crate::proofs::Doing::as_move))]
    pub fn move_to<R: Wait>(
        &self,
        rt: &R,
        session: &mut Session<N>,
        site: u16,
    ) -> Result<Answer, CallFault>
        requires client { session.old.number < length N.deployment.clients }
        requires site { site < N.deployment.sites }
        ensures { Did N.deployment (Act.Move session.old.number site) result session.old session.new }
    {
        match session.client().seat {
            Some(seat) => self.move_seated(rt, session, seat, site),
            None => {
                let client = session.number();
                alone(session, Act::Move { client, site })
            }
        }
    }

    /// A client leaves its seat, which no node is told. `NoSession` exactly where it has none; errors come as in
    /// `write` without a seat.
    #[tactic(auto, using(crate::proofs::Doing::as_leave))]
    pub fn leave(&self, session: &mut Session<N>) -> Result<Answer, CallFault>
        requires client { session.old.number < length N.deployment.clients }
        ensures { Did N.deployment (Act.Leave session.old.number) result session.old session.new }
    {
        let client = session.number();
        alone(session, Act::Leave { client })
    }

    /// A client asks a site for a seat. `Joined` exactly where it has one, which the session answers alone; errors come
    /// as in `write`.
    #[tactic(auto, using(crate::proofs::Doing::as_attach))]
    pub fn attach<R: Wait>(
        &self,
        rt: &R,
        session: &mut Session<N>,
        site: u16,
    ) -> Result<Answer, CallFault>
        requires client { session.old.number < length N.deployment.clients }
        requires site { site < N.deployment.sites }
        ensures { Did N.deployment (Act.Attach session.old.number site) result session.old session.new }
    {
        match session.client().seat {
            Some(_) => {
                let client = session.number();
                alone(session, Act::Attach { client, site })
            }
            None => self.attach_free(rt, session, site),
        }
    }

    /// The operator closes the emission epoch of a site. `Worn`, with the greatest u64, comes only where the site's
    /// number or the session's is that; `Memory`. After an error the session is as before.
    #[tactic(auto, using(crate::proofs::Doing::did_not))]
    pub fn close_epoch<R: Wait>(
        &self,
        rt: &R,
        session: &mut Session<N>,
        site: u16,
    ) -> Result<Answer, CallFault>
        requires operator { session.old.number ≡ length N.deployment.clients }
        requires site { site < N.deployment.sites }
        ensures { Did N.deployment (Act.Close site) result session.old session.new }
    {
        let Some(mut guard) = self.hub(rt, site) else {
            return Err(CallFault::Memory);
        };
        let watched = &mut *guard;
        close_at(session, watched, site)
    }

    /// The operator makes a site go by timestamp order. Errors come as in `close_epoch`.
    #[tactic(auto, using(crate::proofs::Doing::did_not))]
    pub fn fall<R: Wait>(
        &self,
        rt: &R,
        session: &mut Session<N>,
        site: u16,
    ) -> Result<Answer, CallFault>
        requires operator { session.old.number ≡ length N.deployment.clients }
        requires site { site < N.deployment.sites }
        ensures { Did N.deployment (Act.Fall site) result session.old session.new }
    {
        let Some(mut guard) = self.hub(rt, site) else {
            return Err(CallFault::Memory);
        };
        let watched = &mut *guard;
        fall_at(session, watched, site)
    }

    /// The operator kills a serializer of an epoch's tree. Errors come as in `close_epoch`.
    #[tactic(auto, using(crate::proofs::Doing::did_not))]
    pub fn kill<R: Wait>(
        &self,
        rt: &R,
        session: &mut Session<N>,
        epoch: u16,
        serializer: u16,
    ) -> Result<Answer, CallFault>
        requires operator { session.old.number ≡ length N.deployment.clients }
        requires serializer { IsActOf N.deployment (Act.Kill epoch serializer) }
        ensures { Did N.deployment (Act.Kill epoch serializer) result session.old session.new }
    {
        let Some(mut guard) = self.serial(rt, epoch, serializer) else {
            return Err(CallFault::Memory);
        };
        let held = &mut *guard;
        kill_at(session, held, epoch, serializer)
    }
}

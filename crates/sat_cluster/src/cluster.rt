//! A cluster: the locked nodes of a deployment, and its sessions.
ghost use Rattle.std.specs.Prelude.{◌≡◌, ◌<◌, ◌+◌, ◌*◌, ◌^◌, true, false, [], length, position, replicate, set};
ghost use Rattle.std.specs.Prelude.{MatchOption, IsErrOf, IsOk, IfOk, IfSome, OnErr, Some};
ghost use Rattle.std.specs.Sync.Mutex.{mutex_guard_value};
ghost use Rattle.sat_label.specs.Order.{name_eq};
ghost use Rattle.sat_label.specs.declared.node.NodeName.TheVariants.{Gear as AtGear, Serializer as AtSerializer};
ghost use Rattle.sat_label.specs.declared.node.NodeName.TheVariants.{Site as AtSite};
ghost use Rattle.sat_act.specs.Answers.{gear_of};
ghost use Rattle.sat_opened.specs.Opened.{serial_names};
ghost use Rattle.sat_parts.specs.Layout.{gear_names};
ghost use Rattle.sat_cluster.specs.Clusters.{client_of, count_given, none_given, operator_number, session_fault};
ghost use Rattle.sat_cluster.specs.Ends.{Ends};

use crate::fault::SessionFault;
use crate::locks::{Locks, cover_hubs, cover_nodes, names_of, open_hubs, open_nodes};
use crate::room::Room;
use sat_act::Deployment;
use sat_finish::{Ended, FinishFault, Opened};
use sat_label::{Name, NodeName};
use sat_machines::{Laid, SerialNode};
use sat_node::{Held, Names};
use sat_parts::GearNode;
use sat_parts_pump::Watched;
use sat_parts_wires::{AllNodes, Wires};
use sat_session::Session;
use std::alloc::{AllocError, Global};
use std::marker::Model;
use std::sync::{Mutex, MutexGuard, Wait};

/// The hubs, the gears, site by site, and the serializers of N's deployment, each under its lock, and which sessions
/// were given. Contracts see the latter: by the number of its client, the operator's last. With each hub lies what its
/// passes have looked at.
///
/// A thread takes one lock alone; or that of a hub and then those of its gears, ascending; or those of some gears of
/// one site, ascending. So nobody who holds a gear's lock asks for a hub's, nobody holds locks of two sites, and a
/// serializer's lock is held alone: no threads wait for one another in a circle.
#[derive(Drop)]
pub struct Cluster<N: Laid + Names> {
    d: Deployment,
    hubs: Locks<Watched<N>>,
    gears: Locks<Held<GearNode<N>, N>>,
    serials: Locks<Held<SerialNode<N>, N>>,
    room: Mutex<Room<N>>,
    names: Vec<NodeName>,
    given: Vec<bool>,
}

impl<N: Laid + Names> Model for Cluster<N> {
    ghost use Rattle.sat_cluster.specs.Clusters.{ClusterSeen, IsCluster};

    ghost Value = { ClusterSeen };

    ghost view = { λ c. record { given = c.given.items } };

    ghost invariant = { λ c. IsCluster N.deployment c.d c.hubs c.gears c.serials c.names.items c.given.items };
}

// Marks for so many sessions, of which none was given.
fn marks(alloc: Global, count: usize) -> Result<Vec<bool>, AllocError>
    ensures { IfOk result (λ marks. marks.items ≡ replicate count false) }
{
    let mut marks = Vec::new(alloc);
    'marks: for _ in 0..count {
        marks.push(false)?;
    }
    Ok(marks)
}

// How many were given.
fn count_marks(marks: &[bool]) -> u64
    ensures { result ≡ count_given marks.now }
{
    marks.iter().filter(|mark| **mark).count() as u64
}

// The place of a gear among all, of so many at each site.
#[tactic(auto, using(crate::proofs::Marks::place_small))]
fn gear_place(site: u16, gears: u16, gear: u16) -> usize
    ensures { result ≡ site * gears + gear }
{
    usize::from(site) * usize::from(gears) + usize::from(gear)
}

impl<N: Laid + Names> Cluster<N> {
    /// Puts each hub, each gear and each serializer of N's deployment under a lock of its own, with its ends of the
    /// links. It asks that the links were made for that deployment, and that N's list of wires is theirs. No session
    /// was given.
    #[tactic(auto, using(crate::proofs::Marks::room_gears))]
    pub fn new(alloc: Global, d: Deployment, wires: Wires) -> Result<Cluster<N>, AllocError>
        requires deployment { N.deployment ≡ d }
        requires made { wires.deployment ≡ d }
        requires wires { N.wires ≡ wires.wires }
        ensures { IfOk result (λ cluster. cluster.given ≡ none_given d) }
    {
        let AllNodes {
            hubs,
            gears,
            serials,
        } = AllNodes::<N>::new(alloc, &d, wires)?;
        let names = names_of(alloc, serials.as_slice())?;
        let given = marks(alloc, d.clients().len() + 1)?;
        let room = Room::new(alloc, usize::from(d.sites()), gears.len(), names.len())?;
        let hubs = cover_hubs(alloc, hubs)?;
        let gears = cover_nodes(alloc, gears)?;
        let serials = cover_nodes(alloc, serials)?;
        Ok(Cluster {
            d,
            hubs,
            gears,
            serials,
            room: Mutex::new(room),
            names,
            given,
        })
    }

    /// The deployment.
    pub fn deployment(&self) -> &Deployment
        ensures { result.now ≡ N.deployment }
    {
        &self.d
    }

    // The number of the gear that has an item.
    pub(crate) fn gear_of(&self, item: u16) -> u16
        ensures gear { result ≡ gear_of N.deployment item }
        ensures inside { result < N.deployment.gears }
    {
        item % self.d.gears()
    }

    // Where memory comes from.
    pub(crate) fn allocator(&self) -> Global {
        *self.names.allocator()
    }

    /// The names of all serializers, epoch by epoch.
    pub fn serializers(&self) -> &[NodeName]
        ensures { result.now ≡ serial_names N.deployment }
    {
        self.names.as_slice()
    }

    // Takes the lock of a hub. Whoever calls it holds no lock. `None` where its node has another name, which never is.
    pub(crate) fn hub<R: Wait>(&self, rt: &R, site: u16) -> Option<MutexGuard<'_, Watched<N>>>
        ensures { IfSome result (λ guard. (mutex_guard_value guard).node.name ≡ AtSite site) }
    {
        let lock = self.hubs.at(usize::from(site))?;
        // No lock is held.
        let guard = lock.lock(rt);
        if guard.name().is_same(&NodeName::Site(site)) {
            Some(guard)
        } else {
            None
        }
    }

    // Takes the lock of a gear. Whoever calls it holds no lock, or that of the gear's hub and those of gears of the
    // same site with lower numbers. `None` where there is none of this name, or its node has another one, which never
    // is.
    pub(crate) fn gear<R: Wait>(
        &self,
        rt: &R,
        site: u16,
        gear: u16,
    ) -> Option<MutexGuard<'_, Held<GearNode<N>, N>>>
        ensures { IfSome result (λ guard. (mutex_guard_value guard).node.name ≡ AtGear site gear) }
    {
        let lock = self.gears.at(gear_place(site, self.d.gears(), gear))?;
        // No lock is held but those of the gear's hub and of gears of its site with lower numbers.
        let guard = lock.lock(rt);
        if guard.node().name().is_same(&NodeName::Gear { site, gear }) {
            Some(guard)
        } else {
            None
        }
    }

    // Takes the lock of a serializer of an epoch's tree. Whoever calls it holds no lock. `None` where there is none of
    // this name, or its node has another one, which never is.
    pub(crate) fn serial<R: Wait>(
        &self,
        rt: &R,
        epoch: u16,
        number: u16,
    ) -> Option<MutexGuard<'_, Held<SerialNode<N>, N>>>
        ensures { IfSome result (λ guard. (mutex_guard_value guard).node.name ≡ AtSerializer epoch number) }
    {
        let name = NodeName::Serializer { epoch, number };
        let place = self.place(&name)?;
        let lock = self.serials.at(place)?;
        // No lock is held.
        let guard = lock.lock(rt);
        if guard.node().name().is_same(&name) {
            Some(guard)
        } else {
            None
        }
    }

    // The place of a serializer among all.
    fn place(&self, name: &NodeName) -> Option<usize>
        ensures { result ≡ position (name_eq name.now) (serial_names N.deployment) }
    {
        self.names.iter().position(|other| name.is_same(other))
    }

    // There are few sessions.
    #[tactic(auto, using(crate::proofs::Marks::few_marks))]
    fn few(&self)
        ensures { length self.now.given < 2 ^ 16 }
    {
        let _ = self.d.clients();
    }

    // Gives the session of this number, which wasn't given before.
    fn give(&mut self, number: usize) -> Result<u16, SessionFault>
        requires { number < length self.old.given }
        ensures fault { MatchOption (session_fault (Some number) self.old.given) (IsOk result)
            (λ fault. IsErrOf result fault) }
        ensures ok { IfOk result (λ n. (n ≡ number) × (self.new.given ≡ set self.old.given number true)) }
        ensures err { OnErr result (self.new ≡ self.old) }
    {
        self.few();
        if self.given[number] {
            return Err(SessionFault::Taken);
        }
        self.given[number] = true;
        Ok(number as u16)
    }

    // The number of the client of a name.
    fn client(&self, name: &Name) -> Option<usize>
        ensures client { result ≡ client_of N.deployment name.now }
        ensures inside { IfSome result (λ number. number < length N.deployment.clients) }
        ensures marked { IfSome result (λ number. number < length self.now.given) }
    {
        let bytes = name.bytes();
        self.d
            .clients()
            .iter()
            .position(|line| line.name.bytes() == bytes)
    }

    // Gives the session of the client of a name, by its number.
    fn give_client(&mut self, name: &Name) -> Result<u16, SessionFault>
        ensures fault { MatchOption (session_fault (client_of N.deployment name.now) self.old.given) (IsOk result)
            (λ fault. IsErrOf result fault) }
        ensures client { IfOk result (λ n. client_of N.deployment name.now ≡ Some n) }
        ensures inside { IfOk result (λ n. n < length N.deployment.clients) }
        ensures given { IfOk result (λ n. self.new.given ≡ set self.old.given n true) }
        ensures err { OnErr result (self.new ≡ self.old) }
    {
        match self.client(name) {
            Some(number) => self.give(number),
            None => Err(SessionFault::NoSuch),
        }
    }

    // Gives the operator's session, by its number.
    fn give_operator(&mut self) -> Result<u16, SessionFault>
        ensures fault { MatchOption (session_fault (Some (operator_number N.deployment)) self.old.given) (IsOk result)
            (λ fault. IsErrOf result fault) }
        ensures given { IfOk result (λ n. (n ≡ operator_number N.deployment)
            × (self.new.given ≡ set self.old.given n true)) }
        ensures err { OnErr result (self.new ≡ self.old) }
    {
        let number = self.d.clients().len();
        self.give(number)
    }

    /// Gives the session of the client of a name, which did nothing yet. `NoSuch` exactly where no client has the name,
    /// `Taken` exactly where its session was given before. After an error nothing changed.
    pub fn session(&mut self, alloc: Global, name: &Name) -> Result<Session<N>, SessionFault>
        ensures fault { MatchOption (session_fault (client_of N.deployment name.now) self.old.given) (IsOk result)
            (λ fault. IsErrOf result fault) }
        ensures client { IfOk result (λ s. client_of N.deployment name.now ≡ Some s.number) }
        ensures inside { IfOk result (λ s. s.number < length N.deployment.clients) }
        ensures fresh { IfOk result (λ s. (s.noted ≡ []) × (s.lamport ≡ 0)) }
        ensures given { IfOk result (λ s. self.new.given ≡ set self.old.given s.number true) }
        ensures err { OnErr result (self.new ≡ self.old) }
    {
        match self.give_client(name) {
            Ok(number) => Ok(Session::of_client(alloc, self.deployment(), number)),
            Err(fault) => Err(fault),
        }
    }

    /// Gives the operator's session, which did nothing yet. `Taken` exactly where it was given before, and then nothing
    /// changed.
    pub fn operator(&mut self, alloc: Global) -> Result<Session<N>, SessionFault>
        ensures fault { MatchOption (session_fault (Some (operator_number N.deployment)) self.old.given) (IsOk result)
            (λ fault. IsErrOf result fault) }
        ensures number { IfOk result (λ s. s.number ≡ operator_number N.deployment) }
        ensures fresh { IfOk result (λ s. (s.noted ≡ []) × (s.lamport ≡ 0)) }
        ensures given { IfOk result (λ s. self.new.given ≡ set self.old.given s.number true) }
        ensures err { OnErr result (self.new ≡ self.old) }
    {
        match self.give_operator() {
            Ok(_) => Ok(Session::of_operator(alloc, self.deployment())),
            Err(fault) => Err(fault),
        }
    }

    /// Takes all locks apart. It takes no memory.
    pub fn open(self) -> Opened<N>
        ensures hubs { length result.hubs ≡ N.deployment.sites }
        ensures gears { length result.gears ≡ length (gear_names N.deployment) }
        ensures serials { length result.serials ≡ length (serial_names N.deployment) }
        ensures given { result.given ≡ count_given self.given }
    {
        let Cluster {
            d,
            hubs,
            gears,
            serials,
            room,
            names: _,
            given,
        } = self;
        let room = room.into_inner();
        let given = count_marks(given.as_slice());
        Opened::new(
            d,
            open_hubs(hubs, room.hubs),
            open_nodes(gears, room.gears),
            open_nodes(serials, room.serials),
            given,
        )
    }

    /// Takes all locks apart, and merges what nodes and sessions kept into one journal. `SessionsOut` exactly where not
    /// as many sessions came back as were given, else `Differ` where nodes and sessions did not keep the same of acts
    /// at nodes, and else `Apart` where the home of an act and one of its gears did not.
    #[tactic(auto, using(crate::proofs::Ending::ends_of))]
    pub fn finish(self, alloc: Global, sessions: Vec<Session<N>>) -> Result<Ended, FinishFault<N>>
        ensures { Ends N.deployment self.given sessions.items result }
    {
        self.open().finish(alloc, sessions)
    }
}

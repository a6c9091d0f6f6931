//! A process: a host that is on a disk, and a transport.
ghost use Rattle.std.specs.Prelude.{◌≡◌, ◌+◌, ◌^◌, ◌≤◌, max, [], true, IfErr, IfOk};
ghost use Rattle.sat_durable.specs.Disk.{LeftOnly};
ghost use Rattle.sat_host_laws.specs.Messages.{IsKept};
ghost use Rattle.sat_handed.specs.Handed.{handed_allows};
ghost use Rattle.sat_handed.specs.declared.handed.Handed.TheVariants as given;
ghost use Rattle.sat_handed.specs.Transports.{Grows};
ghost use Rattle.sat_process.specs.declared.hosted.Became.TheVariants as became;
ghost use Rattle.sat_process.specs.Keeping.{IsJournalOf, IsJournalOr};
ghost use Rattle.sat_process.specs.Letters.{Comes};
ghost use Rattle.sat_process.specs.Processes.{Acts, Becomes, Ends, EndsHearing, Hears, HearsHanded, IsAnswered};
ghost use Rattle.sat_process.specs.Processes.{IsNumber, LeavesHeard, SameInside, disk_ended, foreseen, handed_as};
ghost use Rattle.sat_process.specs.Processes.{transport_ended};

use crate::hosted::{Became, Hosted};
use crate::letters::{Letter, next_letter};
use crate::outcomes::{Asked, Ended, Heard};
use sat_act::Deployment;
use sat_durable::{Disk, Durable, StepFault};
use sat_handed::{Handed, Transport, is_allowed, keep};
use sat_host::Host;
use sat_log::Log;
use sat_message::Message;
use sat_node::Node;
use std::alloc::Global;
use std::marker::Model;

/// A process of a site or of a serializer. Its journal is what it was handed and took, and stands on its disk before
/// anything that follows from it leaves. Links are numbered as a host's are: at a site first the other sites in order,
/// then the trees of the epochs; at a serializer its neighbours.
#[derive(Drop)]
pub struct Process<D: Disk, T: Transport, M: Hosted> {
    pub(crate) durable: Durable<D, Log>,
    pub(crate) host: Host<M>,
    pub(crate) deployment: Deployment,
    pub(crate) transport: T,
    pub(crate) letter: Vec<u8>,
}

impl<D: Disk, T: Transport, M: Hosted> Model for Process<D, T, M> {
    ghost use Rattle.std.specs.Prelude.{◌≡◌};
    ghost use Rattle.sat_durable.specs.Durables.{disk_of, machine_of, size_of};
    ghost use Rattle.sat_process.specs.Keeping.{OnDisk};
    ghost use Rattle.sat_process.specs.Processes.{ProcessSeen};

    ghost Value = { ProcessSeen D T M M.Input M.Answer };

    ghost view = { λ p.
        record { disk = disk_of p.durable; transport = p.transport; host = p.host; size = size_of p.durable } };

    ghost invariant = { λ p. OnDisk M.asked M.took (D.state (disk_of p.durable)) (machine_of p.durable) p.host
        × (p.deployment ≡ M.deployment) };
}

// The longest journal that takes one thing more.
const FULL: u64 = 1_099_511_627_776;

impl<D: Disk, T: Transport, M: Hosted> Process<D, T, M> {
    /// The host: its node with its journal, the slips of what it took, and which labels it wants next.
    pub fn host(&self) -> &Host<M>
        ensures host { result.now ≡ self.now.host }
        ensures kept { IsKept M.meaning self.now.host }
    {
        let _ = self.host.node();
        &self.host
    }

    /// The node: its name, its machine and its journal, with the answer of its last entry.
    pub fn node(&self) -> &Node<M>
        ensures { result.now ≡ self.now.host.node }
    {
        self.host.node()
    }

    /// The deployment.
    pub fn deployment(&self) -> &Deployment
        ensures { result.now ≡ M.deployment }
    {
        &self.deployment
    }

    /// The disk. It has what the host was handed, and nothing else, and so has all that a crash may leave now.
    pub fn disk(&self) -> &D
        ensures { result.now ≡ self.now.disk }
    {
        self.durable.disk()
    }

    /// The transport.
    pub fn transport(&self) -> &T
        ensures { result.now ≡ self.now.transport }
    {
        &self.transport
    }

    /// How many bytes its journal has on the disk. Above 2^40 it takes nothing more.
    pub fn size(&self) -> u64
        ensures { result ≡ self.now.size }
    {
        self.durable.size()
    }

    /// Ends the process, as after a stop between two calls: its disk and its transport.
    pub fn end(self) -> (D, T)
        ensures { (result.0 ≡ self.disk) × (result.1 ≡ self.transport) }
    {
        let Process {
            durable,
            host: _,
            deployment: _,
            transport,
            letter: _,
        } = self;
        (durable.into_disk(), transport)
    }

    /// The process over another transport, where the one that it had is gone; that one too.
    pub fn over(self, transport: T) -> (Process<D, T, M>, T)
        ensures others { (result.0.disk ≡ self.disk) × (result.0.host ≡ self.host) × (result.0.size ≡ self.size) }
        ensures transports { (result.0.transport ≡ transport) × (result.1 ≡ self.transport) }
    {
        let Process {
            durable,
            host,
            deployment,
            transport: old,
            letter,
        } = self;
        let process = Process {
            durable,
            host,
            deployment,
            transport,
            letter,
        };
        (process, old)
    }

    // A stop now leaves what the host was handed.
    fn settled(&self)
        ensures { LeftOnly (D.state self.now.disk) (D.state self.now.disk) (IsJournalOf M.asked M.took self.now.host) }
    {
        let _ = &self.durable;
    }

    // What becomes of what the node is handed, if memory does not run out.
    #[tactic(auto, using(crate::proofs::Foreseeing::foreseen_full, crate::proofs::Foreseeing::foreseen_unspelled, crate::proofs::Foreseeing::foreseen_is))]
    fn foresee(&self, given: &Handed) -> Became
        ensures answered { IsAnswered
            (foreseen (M.would self.now.host given.now) self.now.size (handed_allows given.now)) result }
        ensures taken { result ≡ became.Taken
            → foreseen (M.would self.now.host given.now) self.now.size (handed_allows given.now) ≡ became.Taken }
    {
        if self.durable.size() > FULL {
            return Became::Full;
        }
        if !is_allowed(given) {
            return Became::Unspelled;
        }
        match M::would(&self.host, &self.deployment, given) {
            Ok(became) => became,
            Err(_) => Became::Memory,
        }
    }

    // Hands the node what it would take: it is on the disk before the node takes it; or memory ran out, and nothing
    // changed.
    fn put_down(
        self,
        alloc: Global,
        given: Handed,
    ) -> Result<(Process<D, T, M>, Became), Ended<D, T>>
        requires size { self.size ≤ 2 ^ 40 }
        requires allowed { handed_allows given ≡ true }
        requires would { M.would self.host given ≡ became.Taken }
        ensures answered { IfOk result (λ x. IsAnswered became.Taken x.1) }
        ensures becomes { IfOk result (λ x. Becomes M.asked M.took given x.1 self.host x.0.host) }
        ensures any_moment { LeftOnly (D.state self.disk) (D.state (disk_ended result))
            (IsJournalOr M.asked M.took self.host given) }
        ensures transport { transport_ended result ≡ self.transport }
        ensures ends { IfErr result (Ends M.asked M.took D.state became.Taken self.size given self.host self.disk) }
    {
        let Process {
            durable,
            mut host,
            deployment,
            transport,
            letter,
        } = self;
        match keep(alloc, durable, &given) {
            Ok(durable) => {
                if let Err(_) = M::take(&mut host, &deployment, given) {
                    return Err(Ended::Memory(durable.into_disk(), transport));
                }
                let process = Process {
                    durable,
                    host,
                    deployment,
                    transport,
                    letter,
                };
                Ok((process, Became::Taken))
            }
            Err(StepFault::Disk(disk)) => Err(Ended::Disk(disk, transport)),
            Err(StepFault::Memory(durable)) => {
                let process = Process {
                    durable,
                    host,
                    deployment,
                    transport,
                    letter,
                };
                Ok((process, Became::Memory))
            }
        }
    }

    // Hands the node something: it is taken, and on the disk, or nothing changed.
    fn hand(self, alloc: Global, given: Handed) -> Result<(Process<D, T, M>, Became), Ended<D, T>>
        ensures answered { IfOk result (λ x. IsAnswered
            (foreseen (M.would self.host given) self.size (handed_allows given)) x.1) }
        ensures becomes { IfOk result (λ x. Becomes M.asked M.took given x.1 self.host x.0.host) }
        ensures any_moment { LeftOnly (D.state self.disk) (D.state (disk_ended result))
            (IsJournalOr M.asked M.took self.host given) }
        ensures transport { transport_ended result ≡ self.transport }
        ensures ends { IfErr result
            (Ends M.asked M.took D.state (M.would self.host given) self.size given self.host self.disk) }
    {
        self.settled();
        let became = self.foresee(&given);
        if became != Became::Taken {
            return Ok((self, became));
        }
        self.put_down(alloc, given)
    }

    // The number above the node's and the one heard, if there is one.
    fn next_number(&self, heard: u64) -> Option<u64>
        ensures { IsNumber (max self.now.host.node.number heard) result }
    {
        let last = self.host.node().lamport().max(heard);
        if last == u64::MAX {
            return None;
        }
        Some(last + 1)
    }

    /// Asks something of the node: a client's act, an operator's, or what the node does by itself. `heard` is the
    /// Lamport number of whoever asks, 0 for the node itself. Where it is taken, its entry is the last of the journal,
    /// with its answer and its number, and is on the disk.
    pub fn act(
        self,
        alloc: Global,
        heard: u64,
        asked: Asked,
    ) -> Result<(Process<D, T, M>, Became), Ended<D, T>>
        ensures acts { IfOk result (λ x. Acts M.asked M.took M.would heard asked x.1 self.size self.host x.0.host) }
        ensures any_moment { LeftOnly (D.state self.disk) (D.state (disk_ended result))
            (IsJournalOr M.asked M.took self.host (handed_as (max self.host.node.number heard + 1) asked)) }
        ensures transport { transport_ended result ≡ self.transport }
        ensures ends { IfErr result (Ends M.asked M.took D.state
            (M.would self.host (handed_as (max self.host.node.number heard + 1) asked)) self.size
            (handed_as (max self.host.node.number heard + 1) asked) self.host self.disk) }
    {
        self.settled();
        let Some(lamport) = self.next_number(heard) else {
            return Ok((self, Became::Worn));
        };
        self.hand(alloc, handed_as(lamport, asked))
    }

    // A message that came, from a transport that gave it.
    fn hear_message(
        self,
        alloc: Global,
        link: u16,
        message: Message,
    ) -> Result<(Process<D, T, M>, Heard), Ended<D, T>>
        ensures hears { IfOk result (λ x. HearsHanded M.asked M.took M.would x.1 self.size link message
            self.host x.0.host) }
        ensures any_moment { LeftOnly (D.state self.disk) (D.state (disk_ended result))
            (IsJournalOr M.asked M.took self.host (given.Came link message)) }
        ensures transport { transport_ended result ≡ self.transport }
        ensures ends { IfErr result (Ends M.asked M.took D.state (M.would self.host (given.Came link message)) self.size
            (given.Came link message) self.host self.disk) }
    {
        match self.hand(alloc, Handed::Came { link, message }) {
            Ok((process, became)) => Ok((process, Heard::Message(link, became))),
            Err(ended) => Err(ended),
        }
    }

    // The next letter that came, as a message.
    fn next_letter(&mut self, alloc: Global) -> Letter
        ensures came { Comes result (T.came self.old.transport) (T.came self.new.transport) }
        ensures sent { Grows (T.sent self.old.transport) (T.sent self.new.transport) [] }
        ensures same { SameInside self.old self.new }
    {
        next_letter(alloc, &mut self.transport, &mut self.letter)
    }

    /// Takes the next letter that came: a message is taken, and on the disk, or refused by what it is answered. What is
    /// `Early` has to come again; of what the transport gives nothing is kept but in the journal.
    pub fn hear(self, alloc: Global) -> Result<(Process<D, T, M>, Heard), Ended<D, T>>
        ensures hears { IfOk result (λ x. Hears M.asked M.took M.would x.1 self.size (T.came self.transport)
            (T.came x.0.transport) self.host x.0.host) }
        ensures any_moment { LeavesHeard M.asked M.took self.host (T.came self.transport)
            (T.came (transport_ended result)) (D.state self.disk) (D.state (disk_ended result)) }
        ensures ends { IfErr result
            (EndsHearing M.asked M.took D.state T.came M.would self.size self.host self.disk self.transport) }
        ensures sent { Grows (T.sent self.transport) (T.sent (transport_ended result)) [] }
    {
        self.settled();
        let mut process = self;
        match process.next_letter(alloc) {
            Letter::Nothing => Ok((process, Heard::Nothing)),
            Letter::Failed => Ok((process, Heard::Failed)),
            Letter::Unread(link, wrong) => Ok((process, Heard::Unread(link, wrong))),
            Letter::Lost(link) => Ok((process, Heard::Lost(link))),
            Letter::Message(link, message) => process.hear_message(alloc, link, message),
        }
    }
}

// What is asked, as what is handed under this number.
fn handed_as(lamport: u64, asked: Asked) -> Handed
    ensures { result ≡ handed_as lamport asked }
{
    match asked {
        Asked::Site { by, input } => Handed::Asked { lamport, by, input },
        Asked::Kill => Handed::Killed { lamport },
    }
}

//! What a process says.
ghost use Rattle.std.specs.Prelude.{◌≡◌, ◌-◌, ◌^◌, [], get_or, min, true, IfErr, IfOk};
ghost use Rattle.sat_handed.specs.Transports.{Grows};
ghost use Rattle.sat_process.specs.Processes.{EndsHearing, HearsThen, LeavesHeard, SameProcess, disk_ended};
ghost use Rattle.sat_process.specs.Processes.{transport_ended};
ghost use Rattle.sat_process.specs.Speaking.{SameOthers, Says, SaysAll, SaysEach, SaysLink, SaysThen};

use crate::hosted::Hosted;
use crate::outcomes::{Ended, Turned};
use crate::process::Process;
use sat_durable::Disk;
use sat_handed::{Spoken, Transport, post};
use std::alloc::{AllocError, Global};

impl<D: Disk, T: Transport, M: Hosted> Process<D, T, M> {
    /// Hands the transport the next message that the journal puts on a link; each once, in the order of its entries,
    /// until `again`. All that the journal has is on the disk. After `Memory` that message may be passed over: begin
    /// with `again`.
    #[tactic(auto, using(crate::proofs::Saying::says_next))]
    pub fn speak(&mut self, link: u16) -> Spoken
        ensures says { Says (M.meaning.puts self.old.host.node.name) self.old.host.node.entries link
            (get_or self.old.host.cursors link 0) (get_or self.new.host.cursors link 0) result
            (T.sent self.old.transport) (T.sent self.new.transport) }
        ensures others { SameOthers link self.old.host.cursors self.new.host.cursors }
        ensures came { Grows (T.came self.old.transport) (T.came self.new.transport) [] }
        ensures same { SameProcess self.old self.new }
    {
        match self.host.next_message(usize::from(link)) {
            Ok(None) => Spoken::Nothing,
            Ok(Some(message)) => post(&mut self.transport, &mut self.letter, link, &message),
            Err(_) => Spoken::Memory,
        }
    }

    /// Begins with the messages of a link anew, for a transport that lost some, or a node at the other end that came
    /// again.
    pub fn again(&mut self, link: u16)
        ensures begins { get_or self.new.host.cursors link 0 ≡ 0 }
        ensures others { SameOthers link self.old.host.cursors self.new.host.cursors }
        ensures same { SameProcess self.old self.new }
        ensures transport { self.new.transport ≡ self.old.transport }
    {
        self.host.rewind(usize::from(link));
    }

    /// How many links the node has, of at most 65,535: they are numbered from 0.
    pub fn links(&self) -> u16
        ensures { result ≡ min (M.link_count self.now.host.node.machine) (2 ^ 16 - 1) }
    {
        M::links(&self.host, &self.deployment)
    }

    /// Hands the transport what the journal puts on a link and that it was not handed, message by message and in order:
    /// so many, or all that there are. Answers how many were passed; those that have no spelling are not handed on.
    /// After `AllocError` some were.
    pub fn speak_all(&mut self, link: u16, most: u32) -> Result<u32, AllocError>
        ensures says { IfOk result (λ n. SaysAll (M.meaning.puts self.old.host.node.name) self.old.host.node.entries
            link
            most (get_or self.old.host.cursors link 0) (get_or self.new.host.cursors link 0) n
            (T.sent self.old.transport) (T.sent self.new.transport)) }
        ensures said { SaysThen (M.meaning.puts self.old.host.node.name) self.old.host.node.entries
            (T.sent self.old.transport) (T.sent self.new.transport) }
        ensures others { SameOthers link self.old.host.cursors self.new.host.cursors }
        ensures came { Grows (T.came self.old.transport) (T.came self.new.transport) [] }
        ensures same { SameProcess self.old self.new }
    {
        for said in 0..most {
            match self.speak(link) {
                Spoken::Nothing => return Ok(said),
                Spoken::Memory => return Err(AllocError),
                Spoken::Sent => {}
                Spoken::Lost => {}
                Spoken::Unspelled => {}
            }
        }
        Ok(most)
    }

    // Hands the transport at most so many messages of a link. Answers whether all was said, here and before.
    fn speak_link(&mut self, link: u16, most: u32, before: bool) -> bool
        ensures says { result ≡ true → (before ≡ true) × SaysLink (M.meaning.puts self.old.host.node.name)
            self.old.host.node.entries link most (get_or self.old.host.cursors link 0)
            (get_or self.new.host.cursors link 0) (T.sent self.old.transport) (T.sent self.new.transport) }
        ensures others { SameOthers link self.old.host.cursors self.new.host.cursors }
        ensures said { SaysThen (M.meaning.puts self.old.host.node.name) self.old.host.node.entries
            (T.sent self.old.transport) (T.sent self.new.transport) }
        ensures came { Grows (T.came self.old.transport) (T.came self.new.transport) [] }
        ensures same { SameProcess self.old self.new }
    {
        match self.speak_all(link, most) {
            Ok(_) => before,
            Err(_) => false,
        }
    }

    // Hands the transport at most so many messages of each link. Answers whether all was said.
    fn speak_each(&mut self, most: u32) -> bool
        ensures says { result ≡ true → SaysEach (M.meaning.puts self.old.host.node.name) self.old.host.node.entries most
            self.old.host.cursors self.new.host.cursors (min (M.link_count self.old.host.node.machine) (2 ^ 16 - 1))
            (T.sent self.old.transport) (T.sent self.new.transport) }
        ensures said { SaysThen (M.meaning.puts self.old.host.node.name) self.old.host.node.entries
            (T.sent self.old.transport) (T.sent self.new.transport) }
        ensures came { Grows (T.came self.old.transport) (T.came self.new.transport) [] }
        ensures same { SameProcess self.old self.new }
    {
        let mut all = true;
        for link in 0..self.links() {
            all = self.speak_link(link, most, all);
        }
        all
    }

    // The process, once it said so, and whether it said all.
    fn spoken(self, most: u32) -> (Process<D, T, M>, bool)
        ensures says { result.1 ≡ true → SaysEach (M.meaning.puts self.host.node.name) self.host.node.entries most
            self.host.cursors result.0.host.cursors (min (M.link_count self.host.node.machine) (2 ^ 16 - 1))
            (T.sent self.transport) (T.sent result.0.transport) }
        ensures said { SaysThen (M.meaning.puts self.host.node.name) self.host.node.entries
            (T.sent self.transport) (T.sent result.0.transport) }
        ensures came { Grows (T.came self.transport) (T.came result.0.transport) [] }
        ensures same { SameProcess self result.0 }
    {
        let mut process = self;
        let said = process.speak_each(most);
        (process, said)
    }

    /// One turn of the loop: takes the next letter that came, and then hands the transport at most so many messages of
    /// each link: so many, or all that the journal has now, from where it stood on; less where memory runs out, as it
    /// then tells. What it says is the journal's behind what it heard, and on the disk.
    pub fn turn(self, alloc: Global, most: u32) -> Result<(Process<D, T, M>, Turned), Ended<D, T>>
        ensures hears { IfOk result (λ x. HearsThen M.asked M.took M.would x.1.heard self.size (T.came self.transport)
            (T.came x.0.transport) self.host x.0.host) }
        ensures any_moment { LeavesHeard M.asked M.took self.host (T.came self.transport)
            (T.came (transport_ended result)) (D.state self.disk) (D.state (disk_ended result)) }
        ensures ends { IfErr result
            (EndsHearing M.asked M.took D.state T.came M.would self.size self.host self.disk self.transport) }
        ensures says { IfOk result (λ x. x.1.said ≡ true → SaysEach (M.meaning.puts x.0.host.node.name)
            x.0.host.node.entries most self.host.cursors x.0.host.cursors
            (min (M.link_count x.0.host.node.machine) (2 ^ 16 - 1)) (T.sent self.transport) (T.sent x.0.transport)) }
        ensures said { IfOk result (λ x. SaysThen (M.meaning.puts x.0.host.node.name) x.0.host.node.entries
            (T.sent self.transport) (T.sent x.0.transport)) }
    {
        match self.hear(alloc) {
            Ok((process, heard)) => {
                let (process, said) = process.spoken(most);
                Ok((process, Turned { heard, said }))
            }
            Err(ended) => Err(ended),
        }
    }
}

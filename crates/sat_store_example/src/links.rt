//! The links of a site, one in the tree of each epoch.
ghost use Rattle.std.specs.Prelude.{◌≡◌, ◌<◌, length, map, slice_get, IfOk, IfSome, OnOk, OnErr};
ghost use Rattle.sat_queue.specs.Queued.{members_of};
ghost use Rattle.sat_store_example.specs.Waiting.{link_of, no_links, with_label, without_front};
ghost use Rattle.sat_store_example.specs.declared.links.TheConstants.{LINKS};

use sat_label::{Label, MOST_EPOCHS};
use sat_queue::{Queue, empty_queues};
use std::alloc::{AllocError, Global};
use std::marker::Model;

/// One for each epoch, by its number. There is no epoch 0, so the first stays empty.
pub(crate) const LINKS: usize = MOST_EPOCHS + 1;

/// The labels that wait on each link, the oldest first.
#[derive(Drop)]
pub(crate) struct Links {
    queues: Vec<Queue<Label>>,
}

impl Model for Links {
    ghost use Rattle.std.specs.Prelude.{◌≡◌, List, length, map};
    ghost use Rattle.sat_label.specs.declared.label.Label.{Label};
    ghost use Rattle.sat_queue.specs.Queued.{members_of};
    ghost use Rattle.sat_store_example.specs.declared.links.TheConstants.{LINKS};

    ghost Value = { List (List Label) };

    ghost view = { λ a. map members_of a.queues.items };

    ghost invariant = { λ a. length a.queues.items ≡ LINKS };
}

// Puts a label behind those of a link. For want of memory the links are as before.
fn add(links: &mut Vec<Queue<Label>>, place: u16, label: Label) -> Result<(), AllocError>
    requires { place < length links.old.items }
    ensures ok { OnOk result (map members_of links.new.items
        ≡ with_label (map members_of links.old.items) place label) }
    ensures err { OnErr result (map members_of links.new.items ≡ map members_of links.old.items) }
    ensures length { length links.new.items ≡ length links.old.items }
{
    let link = &mut links[place as usize];
    link.reserve(1)?;
    link.push(label);
    Ok(())
}

// Takes the oldest label of a link.
fn take(links: &mut Vec<Queue<Label>>, place: u16)
    requires { place < length links.old.items }
    ensures front { map members_of links.new.items ≡ without_front (map members_of links.old.items) place }
    ensures length { length links.new.items ≡ length links.old.items }
{
    let link = &mut links[place as usize];
    let _ = link.take();
}

impl Links {
    /// Links on which nothing waits.
    pub(crate) fn new(alloc: Global) -> Result<Links, AllocError>
        ensures { IfOk result (λ links. links ≡ no_links) }
    {
        let queues = empty_queues(alloc, LINKS)?;
        Ok(Links { queues })
    }

    /// The oldest label on the link of an epoch, None where none waits there. It stays there, and no memory is taken.
    pub(crate) fn front(&self, epoch: u16) -> Option<Label>
        ensures front { result ≡ slice_get (link_of self.now epoch) 0 }
        ensures link { IfSome result (λ label. epoch < LINKS) }
    {
        let queues = &self.queues;
        if epoch as usize >= LINKS {
            return None;
        }
        queues[epoch as usize].front()
    }

    /// Puts a label at the end of the link of an epoch. For want of memory all is as before.
    pub(crate) fn add(&mut self, epoch: u16, label: Label) -> Result<(), AllocError>
        requires { epoch < LINKS }
        ensures ok { OnOk result (self.new ≡ with_label self.old epoch label) }
        ensures err { OnErr result (self.new ≡ self.old) }
    {
        add(&mut self.queues, epoch, label)
    }

    /// Takes the oldest label off the link of an epoch. It takes no memory.
    pub(crate) fn take(&mut self, epoch: u16)
        requires { epoch < LINKS }
        ensures { self.new ≡ without_front self.old epoch }
    {
        take(&mut self.queues, epoch);
    }
}

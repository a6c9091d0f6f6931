//! Acts: the events of a script.
ghost use Rattle.std.specs.Prelude.{◌≡◌, ◌<◌, ◌++◌, [], ◌∷◌, OnOk, OnErr, IfOk, vec_len, vec_capacity};

use sat_label::{Items, NodeId, Value, Values};
use std::alloc::{AllocError, Global};
use std::marker::Model;

/// One event of a script. Sites, gears, items, clients and serializers go by number, from 0; epochs count from 1.
#[derive(Drop, PartialEq, Eq)]
pub enum Act {
    /// The clock of a gear moves on: its promise rises to `ts` at least.
    Tick {
        site: u16,
        gear: u16,
        /// At most 2^62.
        ts: u64,
    },
    /// Every gear of every site is ticked to the greatest promise of all.
    Clock,
    /// A client writes an item at the site where it is seated.
    Write {
        client: u16,
        item: u16,
        value: Value,
    },
    /// A client writes several items under one label at the site where it is seated.
    Writes {
        client: u16,
        items: Items,
        /// A value for each item.
        values: Values,
    },
    /// A client reads an item at the site where it is seated.
    Read {
        client: u16,
        item: u16,
    },
    /// A client gives up its seat to go to another site, which a label tells of it.
    Move {
        client: u16,
        /// The site that it goes to.
        site: u16,
    },
    /// A client gives up its seat and goes nowhere.
    Leave {
        client: u16,
    },
    /// A client without a seat asks for one.
    Attach {
        client: u16,
        /// The site that it asks.
        site: u16,
    },
    /// The sink of a site takes what its gears made since the last gather, with their promises.
    Gather {
        site: u16,
    },
    /// The sink of a site sends its least label that is stable.
    Emit {
        site: u16,
    },
    /// The sink of a site has nothing to send, and sends word of how far it is.
    Pulse {
        site: u16,
    },
    /// A serializer of an epoch's tree handles the first label on the link from a neighbour.
    Hop {
        epoch: u16,
        /// The neighbour, a site or a serializer.
        from: NodeId,
        /// The serializer.
        to: u16,
    },
    /// A site takes the first label on the link from its serializer, in the tree of its view.
    Turn {
        site: u16,
    },
    /// A payload of a lane comes to the site that it is for.
    Bulk {
        from: u16,
        gear: u16,
        to: u16,
        /// Its number in the lane, from 0. None for the first that has not come.
        number: Option<u64>,
    },
    /// A site makes a beat for another: how far its sink is, what it closed, and how much of each lane was gathered.
    Beat {
        from: u16,
        to: u16,
    },
    /// A beat comes to the site that it is for.
    BeatIn {
        from: u16,
        to: u16,
        /// Its number among the beats from that site for this one, from 0.
        number: u64,
    },
    /// A site shows its next update in timestamp order.
    Stamp {
        site: u16,
    },
    /// A site closes the epoch in which it sends, at the cut of its sink.
    Close {
        site: u16,
    },
    /// A site that closed its view goes on in it by timestamp order, without the tree.
    Fall {
        site: u16,
    },
    /// A site goes on to the next view.
    Advance {
        site: u16,
    },
    /// A serializer of an epoch's tree stops for good.
    Kill {
        epoch: u16,
        serializer: u16,
    },
    /// Everything that can still move moves, until nothing does.
    Settle,
}

impl Act {
    /// The same act again.
    pub fn copy(&self) -> Result<Self, AllocError>
        ensures { IfOk result (λ a. a ≡ self.now) }
    {
        match self {
            Act::Write {
                client,
                item,
                value,
            } => {
                let value = value.copy()?;
                Ok(Act::Write {
                    client: *client,
                    item: *item,
                    value,
                })
            }
            Act::Writes {
                client,
                items,
                values,
            } => {
                let values = values.copy()?;
                Ok(Act::Writes {
                    client: *client,
                    items: *items,
                    values,
                })
            }
            Act::Tick { site, gear, ts } => Ok(Act::Tick {
                site: *site,
                gear: *gear,
                ts: *ts,
            }),
            Act::Clock => Ok(Act::Clock),
            Act::Read { client, item } => Ok(Act::Read {
                client: *client,
                item: *item,
            }),
            Act::Move { client, site } => Ok(Act::Move {
                client: *client,
                site: *site,
            }),
            Act::Leave { client } => Ok(Act::Leave { client: *client }),
            Act::Attach { client, site } => Ok(Act::Attach {
                client: *client,
                site: *site,
            }),
            Act::Gather { site } => Ok(Act::Gather { site: *site }),
            Act::Emit { site } => Ok(Act::Emit { site: *site }),
            Act::Pulse { site } => Ok(Act::Pulse { site: *site }),
            Act::Hop { epoch, from, to } => Ok(Act::Hop {
                epoch: *epoch,
                from: *from,
                to: *to,
            }),
            Act::Turn { site } => Ok(Act::Turn { site: *site }),
            Act::Bulk {
                from,
                gear,
                to,
                number,
            } => Ok(Act::Bulk {
                from: *from,
                gear: *gear,
                to: *to,
                number: *number,
            }),
            Act::Beat { from, to } => Ok(Act::Beat {
                from: *from,
                to: *to,
            }),
            Act::BeatIn { from, to, number } => Ok(Act::BeatIn {
                from: *from,
                to: *to,
                number: *number,
            }),
            Act::Stamp { site } => Ok(Act::Stamp { site: *site }),
            Act::Close { site } => Ok(Act::Close { site: *site }),
            Act::Fall { site } => Ok(Act::Fall { site: *site }),
            Act::Advance { site } => Ok(Act::Advance { site: *site }),
            Act::Kill { epoch, serializer } => Ok(Act::Kill {
                epoch: *epoch,
                serializer: *serializer,
            }),
            Act::Settle => Ok(Act::Settle),
        }
    }
}

/// A list of acts.
#[derive(Drop)]
pub struct Acts {
    items: Vec<Act>,
}

impl Model for Acts {
    ghost use Rattle.std.specs.Prelude.{List};
    ghost use Rattle.sat_act.specs.declared.act.Act.{Act};

    ghost Value = { List Act };

    ghost view = { λ a. a.items.items };
}

// Takes memory for one member more. A call of its own, since mostly there is room.
#[inline(never)]
fn grow(items: &mut Vec<Act>) -> Result<(), AllocError>
    ensures items { items.new.items ≡ items.old.items }
    ensures room { OnOk result (vec_len items.new < vec_capacity items.new) }
{
    items.reserve(1)?;
    Ok(())
}

impl Acts {
    /// An empty list. It takes no memory.
    pub fn new(alloc: Global) -> Self
        ensures { result ≡ [] }
    {
        Acts {
            items: Vec::new(alloc),
        }
    }

    /// Adds a member at the end. For want of memory the list is as before.
    #[inline(always)]
    pub fn push(&mut self, member: Act) -> Result<(), AllocError>
        ensures ok { OnOk result (self.new ≡ self.old ++ member ∷ []) }
        ensures err { OnErr result (self.new ≡ self.old) }
    {
        if self.items.len() == self.items.capacity() {
            grow(&mut self.items)?;
        }
        self.items.push_reserved(member);
        Ok(())
    }

    /// Drops all members, and keeps the list's memory for others.
    pub fn clear(&mut self)
        ensures { self.new ≡ [] }
    {
        self.items.clear();
    }

    /// The members in order.
    pub fn as_slice(&self) -> &[Act]
        ensures { result.now ≡ self.now }
    {
        self.items.as_slice()
    }

    /// The same list again.
    pub fn copy(&self) -> Result<Self, AllocError>
        ensures { IfOk result (λ acts. acts ≡ self.now) }
    {
        let mut copy = Acts::new(*self.items.allocator());
        for member in &self.items {
            copy.push(member.copy()?)?;
        }
        Ok(copy)
    }
}

//! Answers of acts, and why an act may be refused.
ghost use Rattle.std.specs.Prelude.{◌≡◌, IfOk};

use sat_label::{Label, Nodes, Point, Value};
use std::alloc::AllocError;

/// Why an act was refused. A refused act changes nothing.
#[derive(Clone, Copy, Debug, PartialEq, Eq)]
pub enum Refusal {
    /// The client has no seat.
    NoSession,
    /// The client's site doesn't keep the item.
    NotHere,
    /// No timestamp is left.
    Spent,
    /// A move to the site where the client is seated.
    SameSite,
    /// The client has a seat.
    Joined,
    /// Something that has to come first has not come: for an attach the client's past, for a stamp what is below the
    /// next update, for an advance the rest of the view.
    NotYet,
    /// The sink has no label that is stable, or, for a pulse, it has one, or nothing new to tell.
    Idle,
    /// Nothing is on the link.
    Empty,
    /// The serializer was killed.
    Dead,
    /// The next update of the tree is this one, and its payload has not come.
    NoPayload(Label),
    /// The site goes by timestamp order: for a turn, or for a fall.
    StampOrder,
    /// The site goes by its tree: for a stamp.
    TreeOrder,
    /// The lane has no such payload, or the other site made no such beat.
    NoSuch,
    /// The last epoch is never closed.
    NoNextEpoch,
    /// The site has to advance before it closes another epoch.
    Behind,
    /// The site has not closed its view.
    NotClosed,
    /// The serializer was killed before.
    Already,
}

/// What an act answers.
#[derive(Drop, PartialEq, Eq)]
pub enum Answer {
    /// A tick: the gear's promise.
    Ticked(u64),
    /// A clock: the promise of all gears.
    Clocked(u64),
    /// A write: the label of the update.
    Wrote(Label),
    /// A read of an item that no write has reached.
    ReadNone,
    /// A read: the version that the site holds.
    ReadSome {
        label: Label,
        /// The value of the write that made the label.
        value: Value,
    },
    /// A move: its label.
    Moved(Label),
    /// A leave: the point that the client carries on.
    Left(Point),
    /// An attach: the client has its seat.
    Attached,
    /// A gather.
    Gathered {
        /// How many labels it took.
        labels: u64,
        /// The timestamp up to which all labels of the site are gathered.
        stable: u64,
    },
    /// An emit: the label that was sent.
    Emitted(Label),
    /// A pulse: its label.
    Pulsed(Label),
    /// A hop: the label that was handled.
    Hopped {
        label: Label,
        /// The neighbours that it goes on to.
        to: Nodes,
    },
    /// A turn or a stamp: the update that the site now shows.
    Shown(Label),
    /// A turn: a label that is no update, and was taken.
    Took(Label),
    /// A bulk: the update whose payload came, and waits.
    Brought(Label),
    /// A bulk or a beat that had come before. Nothing changes.
    Again,
    /// A beat that was made: its number.
    Beat(u64),
    /// A beat that came in.
    Taken,
    /// A beat that came in and says no more than the best one. Nothing changes.
    Old,
    /// A close.
    Closed {
        /// The epoch that was closed.
        epoch: u16,
        /// The cut at which it was.
        cut: Point,
    },
    /// A fall.
    Fallen,
    /// An advance: the new view.
    View(u16),
    /// A kill.
    Killed,
    /// A settle.
    Settled {
        /// In how many rounds an act was done.
        rounds: u64,
        /// How many acts were done.
        done: u64,
    },
    /// The act was refused, and nothing changed.
    Refused(Refusal),
}

impl Answer {
    /// The same answer again.
    pub fn copy(&self) -> Result<Self, AllocError>
        ensures { IfOk result (λ answer. answer ≡ self.now) }
    {
        match self {
            Answer::ReadSome { label, value } => {
                let value = value.copy()?;
                Ok(Answer::ReadSome {
                    label: *label,
                    value,
                })
            }
            Answer::Hopped { label, to } => {
                let to = to.copy()?;
                Ok(Answer::Hopped { label: *label, to })
            }
            Answer::Ticked(promise) => Ok(Answer::Ticked(*promise)),
            Answer::Clocked(promise) => Ok(Answer::Clocked(*promise)),
            Answer::Wrote(label) => Ok(Answer::Wrote(*label)),
            Answer::ReadNone => Ok(Answer::ReadNone),
            Answer::Moved(label) => Ok(Answer::Moved(*label)),
            Answer::Left(point) => Ok(Answer::Left(*point)),
            Answer::Attached => Ok(Answer::Attached),
            Answer::Gathered { labels, stable } => Ok(Answer::Gathered {
                labels: *labels,
                stable: *stable,
            }),
            Answer::Emitted(label) => Ok(Answer::Emitted(*label)),
            Answer::Pulsed(label) => Ok(Answer::Pulsed(*label)),
            Answer::Shown(label) => Ok(Answer::Shown(*label)),
            Answer::Took(label) => Ok(Answer::Took(*label)),
            Answer::Brought(label) => Ok(Answer::Brought(*label)),
            Answer::Again => Ok(Answer::Again),
            Answer::Beat(number) => Ok(Answer::Beat(*number)),
            Answer::Taken => Ok(Answer::Taken),
            Answer::Old => Ok(Answer::Old),
            Answer::Closed { epoch, cut } => Ok(Answer::Closed {
                epoch: *epoch,
                cut: *cut,
            }),
            Answer::Fallen => Ok(Answer::Fallen),
            Answer::View(epoch) => Ok(Answer::View(*epoch)),
            Answer::Killed => Ok(Answer::Killed),
            Answer::Settled { rounds, done } => Ok(Answer::Settled {
                rounds: *rounds,
                done: *done,
            }),
            Answer::Refused(refusal) => Ok(Answer::Refused(*refusal)),
        }
    }
}

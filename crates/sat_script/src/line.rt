//! Lines: what a caller is told of one, and what it says to the reader.
use sat_act::{Act, ClientLine, Item, Plan};

/// What a caller is told of a good line.
#[derive(Drop)]
pub enum Line {
    /// A line of the header before `begin`.
    Header,
    /// The line `begin`: from here on the reader has the deployment that the header says.
    Begin,
    Act(Act),
    /// The line `end`.
    End,
}

/// What a good line says.
#[derive(Drop)]
pub enum Parsed {
    /// The format, 1 or 2.
    Format(u16),
    /// How many sites there are.
    Sites(u16),
    /// How many gears each site has.
    Gears(u16),
    Item(Item),
    Client(ClientLine),
    /// What the next epoch is planned to use.
    Plan(Plan),
    /// The header is whole.
    Begin,
    Act(Act),
    /// No act comes any more.
    End,
}

/// The part of a script that the next line stands in.
#[derive(Clone, Copy, Debug, PartialEq, Eq)]
pub enum Stage {
    /// At the line of the format.
    Start,
    /// At the line of the sites.
    Sites,
    /// At the line of the gears.
    Gears,
    /// At an item, a client, a plan, or `begin`.
    Header,
    /// At an act, or `end`.
    Body,
    /// After `end`.
    Ended,
}

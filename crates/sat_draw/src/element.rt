//! What a drawing is made of.
ghost use Rattle.std.specs.Prelude.{◌≡◌, IfOk};

use crate::trail::Trail;
use std::alloc::{AllocError, Global};
use std::marker::Model;

/// How an element looks. In the text it is the element's class.
#[derive(Clone, Copy, Debug, PartialEq, Eq)]
pub enum Ink {
    /// The column of a node.
    Lane,
    /// A row that concerns all nodes.
    Rule,
    /// An edge of a tree.
    Edge,
    /// A node of a tree.
    Node,
    /// An update's label on a link.
    Label,
    /// A move's label on a link.
    Move,
    /// A pulse on a link.
    Pulse,
    /// A close on a link.
    Close,
    /// A label in the sink of its site.
    Sink,
    /// A payload on its way.
    Payload,
    /// A payload that waits at its site.
    Store,
    /// A beat on its way.
    Beat,
    /// A client that stays at its seat from one act to the next.
    Seat,
    /// A client that has no seat.
    Away,
    /// A site from its close to its advance.
    Switch,
    /// A site in a view that it advanced to, up to its next close.
    View,
    /// A serializer that was killed.
    Dead,
    /// An act that was done.
    Done,
    /// An act that changed nothing.
    Refused,
    /// What the drawing is of.
    Title,
    /// The name of a column.
    Name,
    /// The names of the clients that sit at a site from the beginning.
    Client,
    /// The name of an epoch, or of a node in its tree.
    Epoch,
    /// An act's line.
    Act,
    /// The answer of an act that was done.
    Said,
    /// The answer of an act that changed nothing.
    Denied,
}

/// A place in a drawing, in pixels from the left and from the top.
#[derive(Clone, Copy, Debug, PartialEq, Eq)]
pub struct Spot {
    pub x: u64,
    pub y: u64,
}

/// A text of a drawing. Contracts see its bytes.
#[derive(Drop)]
pub struct Text {
    bytes: Vec<u8>,
}

impl Model for Text {
    ghost use Rattle.std.specs.Prelude.{List, ℕ};

    ghost Value = { List ℕ };

    ghost view = { λ a. a.bytes.items };
}

impl Text {
    /// The text of these bytes.
    pub fn of(bytes: Vec<u8>) -> Text
        ensures { result ≡ bytes.items }
    {
        Text { bytes }
    }

    /// The text of a word.
    pub fn word(alloc: Global, word: &str) -> Result<Text, AllocError>
        ensures { IfOk result (λ text. text ≡ word.now) }
    {
        let bytes = word.as_bytes().to_vec(alloc)?;
        Ok(Text { bytes })
    }

    /// Its bytes.
    pub fn bytes(&self) -> &[u8]
        ensures { result.now ≡ self.now }
    {
        self.bytes.as_slice()
    }
}

/// A piece of a drawing.
#[derive(Drop)]
pub enum Element {
    /// A line from one place to another.
    Line {
        ink: Ink,
        from: Spot,
        to: Spot,
    },
    /// The way of a label, a payload or a beat, with a title that says what it is. One that moves has an arrow's head
    /// at its end.
    Way {
        ink: Ink,
        trail: Trail,
        from: Spot,
        to: Spot,
    },
    /// The short way of a label that was sent and never taken, with a cross at its end.
    Lost {
        trail: Trail,
        from: Spot,
        to: Spot,
    },
    /// What stays where it was left to the end, with such a title: a client at its seat, or a site.
    Rest {
        ink: Ink,
        trail: Trail,
        from: Spot,
        to: Spot,
    },
    /// What a settle moved from one node to another: thin, within the settle's row, with such a title.
    Small {
        ink: Ink,
        trail: Trail,
        from: Spot,
        to: Spot,
    },
    /// All ways of this trail's label stand out while the pointer is on one of them.
    Glow {
        trail: Trail,
    },
    /// A mark, with a title.
    Dot {
        ink: Ink,
        at: Spot,
        text: Text,
    },
    /// A text that begins at a place. Of a long one the front is shown, and the whole is its title.
    Word {
        ink: Ink,
        at: Spot,
        text: Text,
    },
}

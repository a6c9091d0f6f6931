//! An act of a large script as it is drawn.
ghost use Rattle.std.specs.Prelude.{◌≡◌, IfOk};
ghost use Rattle.sat_settle.specs.LoadDraft.{drafted};

use crate::load_texts::drawn_value;
use sat_act::Act;
use sat_label::NodeId;
use std::alloc::{AllocError, Global};

/// An act of a large script as it is drawn: numbers alone, so that it takes no memory. A write has its number, from
/// which its value is made: most writes of a large script are refused whatever their value.
#[derive(Clone, Copy)]
pub enum Draft {
    /// The value is that of `drawn_value`.
    Write { client: u16, item: u16, number: u32 },
    Read { client: u16, item: u16 },
    Move { client: u16, site: u16 },
    Attach { client: u16, site: u16 },
    Tick { site: u16, gear: u16, ts: u64 },
    Gather { site: u16 },
    Emit { site: u16 },
    Pulse { site: u16 },
    Hop { epoch: u16, from: NodeId, to: u16 },
    /// The next payload of a lane.
    Bulk { from: u16, gear: u16, to: u16 },
    Turn { site: u16 },
    Close { site: u16 },
    Settle,
}

/// The act that was drawn. A write takes memory for its value.
pub fn act_of(alloc: Global, draft: Draft) -> Result<Act, AllocError>
    ensures { IfOk result (λ act. act ≡ drafted draft) }
{
    let act = match draft {
        Draft::Write {
            client,
            item,
            number,
        } => Act::Write {
            client,
            item,
            value: drawn_value(alloc, number)?,
        },
        Draft::Read { client, item } => Act::Read { client, item },
        Draft::Move { client, site } => Act::Move { client, site },
        Draft::Attach { client, site } => Act::Attach { client, site },
        Draft::Tick { site, gear, ts } => Act::Tick { site, gear, ts },
        Draft::Gather { site } => Act::Gather { site },
        Draft::Emit { site } => Act::Emit { site },
        Draft::Pulse { site } => Act::Pulse { site },
        Draft::Hop { epoch, from, to } => Act::Hop { epoch, from, to },
        Draft::Bulk { from, gear, to } => Act::Bulk {
            from,
            gear,
            to,
            number: None,
        },
        Draft::Turn { site } => Act::Turn { site },
        Draft::Close { site } => Act::Close { site },
        Draft::Settle => Act::Settle,
    };
    Ok(act)
}

//! The limits of scripts.

/// The most bytes of a line, before its byte 10.
pub const LONGEST_LINE: usize = 4096;

/// The last format: a script is of one from 1 to this.
pub const LAST_FORMAT: u16 = 2;

/// The most sites of a script of any format.
pub const MOST_SITES: u16 = sat_label::MOST_SITES;

/// The most gears of a site.
pub const MOST_GEARS: u16 = sat_label::MOST_GEARS;

/// The most items of a script of any format.
pub const MOST_ITEMS: usize = sat_label::MOST_ITEMS;

/// The most clients.
pub const MOST_CLIENTS: usize = sat_label::MOST_CLIENTS;

/// The most plans, one for each epoch.
pub const MOST_PLANS: usize = sat_label::MOST_EPOCHS;

/// The most acts of a script of any format, `settle` among them.
pub const MOST_ACTS: u32 = sat_label::MOST_ACTS;

/// The most `settle` of a script.
pub const MOST_SETTLES: u32 = sat_label::MOST_SETTLES;

/// The most sites of a script for nodes on threads.
pub const LIVE_SITES: u16 = 8;

/// The most clients of a script for nodes on threads.
pub const LIVE_CLIENTS: usize = 16;

/// The most acts of a script for nodes on threads.
pub const LIVE_ACTS: u32 = 4000;

/// The most acts of a history that is judged.
pub const AUDIT_ACTS: u32 = 20_000;

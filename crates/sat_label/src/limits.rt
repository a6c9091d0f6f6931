//! The limits and the special numbers that code and contracts cite.
ghost use Rattle.std.specs.Prelude.{◌≡◌};
ghost use Rattle.sat_label.specs.Formats.{limits_of};

/// The greatest timestamp: no event that has it is followed by another.
pub const TS_END: u64 = 1 << 62;

/// The gear of a pulse's point: above that of each gear.
pub const PULSE_GEAR: u16 = 65534;

/// The gear of a mark: above that of each gear and of a pulse.
pub const MARK_GEAR: u16 = 65535;

/// The most sites of a deployment of any format.
pub const MOST_SITES: u16 = 64;

/// The most gears of a site.
pub const MOST_GEARS: u16 = 8;

/// The most items of a deployment of any format.
pub const MOST_ITEMS: usize = 65_535;

/// The most items of one update.
pub const MOST_WRITTEN: usize = 4;

/// The most clients of a deployment.
pub const MOST_CLIENTS: usize = 1024;

/// The most serializers of a tree.
pub const MOST_SERIALIZERS: u16 = 15;

/// The most epochs of a deployment: one for each plan.
pub const MOST_EPOCHS: usize = 16;

/// The most acts of a script of any format, each `settle` among them.
pub const MOST_ACTS: u32 = 200_000;

/// The most `settle` of a script.
pub const MOST_SETTLES: u32 = 64;

/// The most bytes of a name.
pub const NAME_BYTES: usize = 32;

/// The most bytes of a value.
pub const VALUE_BYTES: usize = 256;

/// The limits that a deployment's format sets.
#[derive(Clone, Copy, Debug, PartialEq, Eq)]
pub struct Limits {
    /// The most sites of a deployment.
    pub sites: u16,
    /// The most items of a deployment.
    pub items: usize,
    /// The most acts of a script, each `settle` among them.
    pub acts: u32,
    /// The most items of one update.
    pub written: usize,
}

/// The limits of format 1, and for another number those of format 2.
pub fn limits_of(format: u16) -> Limits
    ensures { result ≡ limits_of format }
{
    if format == 1 {
        Limits {
            sites: 16,
            items: 4096,
            acts: 200_000,
            written: 1,
        }
    } else {
        Limits {
            sites: 64,
            items: 65_535,
            acts: 30_000,
            written: MOST_WRITTEN,
        }
    }
}

//! How many entries a history may have here.

/// The most entries of a history that is judged: so many a `u16` counts.
pub const MOST_ENTRIES: usize = 65_535;

//! How many edges and pairs there can be in a tree of a table's sites.
use sat_delay::MOST_TABLE_SITES;
use sat_label::MOST_SERIALIZERS;

/// There are no more directed edges that leave serializers than this: the neighbours of each are sites and serializers.
pub const MOST_EDGES: usize = MOST_SERIALIZERS as usize
    * (MOST_TABLE_SITES as usize + MOST_SERIALIZERS as usize);

/// There are no more ordered pairs of sites than this.
pub const MOST_PAIRS: usize = MOST_TABLE_SITES as usize * MOST_TABLE_SITES as usize;

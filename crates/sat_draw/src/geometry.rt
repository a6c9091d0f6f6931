//! The measures of a drawing, in pixels.

/// Where the column of what is outside of all nodes stands: behind the lines of the acts.
pub const OUTSIDE: u64 = 204;

/// Where the column of the first node stands.
pub const FIRST_COLUMN: u64 = 262;

/// From one column to the next.
pub const COLUMN: u64 = 120;

/// From the last column to the answers.
pub const ANSWERS: u64 = 62;

/// What the answers take.
pub const RIGHT: u64 = 280;

/// From one row to the next.
pub const ROW: u64 = 22;

/// Where the first tree begins, below the title and the legend.
pub const TREES: u64 = 112;

/// From one serializer of a tree to the next one.
pub const STEP: u64 = 26;

/// What a tree takes above its root and below its last serializer.
pub const TREE_MARGINS: u64 = 50;

/// What the names of the columns take, above the rows and below them.
pub const NAMES: u64 = 50;

/// How far above the first row a client's first seat begins.
pub const ABOVE: u64 = 12;

/// The columns have their names again behind so many pixels, which are forty rows.
pub const NAMES_APART: u64 = 880;

/// They haven't where fewer pixels than these are left.
pub const NAMES_SPARED: u64 = 440;

/// How far above its row's middle what a settle moved begins.
pub const SMALL_ABOVE: u64 = 10;

/// From one entry of a settle to the next one.
pub const SMALL_STEP: u64 = 2;

/// So many of them stand below one another, and the next one at the top again.
pub const SMALL_STEPS: u64 = 9;

/// How far down a small line leads.
pub const SMALL_DROP: u64 = 2;

/// So many entries of a settle are drawn.
pub const MOST_SMALL: u64 = 40;

/// From where the answers stand to the words that say so.
pub const SMALL_WORDS: u64 = 130;

//! What a site answers as a machine of a node.
use sat_act::Answer;
use sat_beat::Beat;
use sat_label::{Label, SiteSet};

/// The answer of a site, with what its entry puts on links: the label that enters a tree, and the beat that was made.
/// `link` is the number of the end for the tree of that label's epoch, in a turn for that of the view. `keepers` are
/// the sites that keep one of the items of a write, and else none.
#[derive(Drop)]
pub struct SiteAnswer {
    pub answer: Answer,
    pub link: u64,
    pub sent: Option<Label>,
    pub keepers: SiteSet,
    pub beat: Option<Beat>,
}

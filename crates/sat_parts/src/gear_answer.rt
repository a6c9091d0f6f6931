//! What a gear answers as a machine of a node.
use sat_act::Answer;
use sat_label::SiteSet;

/// The answer of a gear, with the sites that keep one of the items of a write of its own, and else none: its entry puts
/// the payload on the lanes to the others of these.
#[derive(Drop)]
pub struct GearAnswer {
    pub answer: Answer,
    pub keepers: SiteSet,
}

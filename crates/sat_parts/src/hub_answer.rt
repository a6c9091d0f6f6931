//! What a hub answers as a machine of a node.
use sat_act::Answer;
use sat_beat::Beat;
use sat_bulk::Payload;
use sat_label::Label;

/// The answer of a hub, with what its entry puts on links and gives to gears: the label that enters a tree, the beat
/// that was made, and the payload that the gears of its items show. `link` is the number of the end for the tree of
/// that label's epoch, in a turn for that of the view.
#[derive(Drop)]
pub struct HubAnswer {
    pub answer: Answer,
    pub link: u64,
    pub sent: Option<Label>,
    pub beat: Option<Beat>,
    pub show: Option<Payload>,
}

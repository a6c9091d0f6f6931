//! What a site gives.
use sat_act::Answer;
use sat_beat::Beat;
use sat_label::Label;

/// The answer of a step. `sent` is the label that enters the tree: that of an answer Emitted, Pulsed or Closed, where
/// the plan of its epoch is a tree and the label has a target. `epoch` is then the label's epoch; in a Turn it is the
/// view, and else 0. `beat` is the beat of an answer Beat.
#[derive(Drop)]
pub struct SiteOutput {
    pub answer: Answer,
    pub sent: Option<Label>,
    pub epoch: u16,
    pub beat: Option<Beat>,
}

/// What a site shows of itself: its view, its emission epoch, whether it is in stamp mode, and how many payloads wait.
#[derive(Clone, Copy, Debug, PartialEq, Eq)]
pub struct SiteView {
    pub view: u16,
    pub emission: u16,
    pub stamp: bool,
    pub waiting: u64,
}

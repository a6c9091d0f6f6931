//! A label that waits to go on.
ghost use Rattle.std.specs.Prelude.{◌≡◌};

use sat_label::Label;

/// A label that is offered to the other end of a link. It stays in its outbox: hand a copy of it over, keep the offer
/// meanwhile, and once the other end has said that it took the label, hand the offer back to `taken` of what made it.
/// Where the other end did not take it, or is not heard of, drop the offer: the next one is of the same label. `link`
/// says in which outbox it waits: for a relay the neighbour, for a replica the epoch.
#[derive(Drop)]
pub struct Offer<L> {
    pub(crate) label: Label,
    pub(crate) link: L,
}

impl<L> Offer<L> {
    /// The label that is offered.
    pub fn label(&self) -> Label
        ensures { result ≡ self.now.label }
    {
        self.label
    }
}

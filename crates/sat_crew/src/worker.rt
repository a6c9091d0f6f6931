//! The workers of a crew.
use sat_label::NodeName;
use sat_machines::Laid;
use sat_node::CallFault;
use sat_session::Session;

/// Does the acts of its session: a client's, or the operator's.
#[derive(Drop)]
pub(crate) struct Caller<N: Laid> {
    pub(crate) session: Session<N>,
    pub(crate) fault: Option<CallFault>,
}

/// Makes the passes of its node: a serializer, or a hub, with which go those of the gears of its site.
#[derive(Drop)]
pub(crate) struct Passer {
    pub(crate) node: NodeName,
    pub(crate) fault: Option<CallFault>,
}

/// A worker.
#[derive(Drop)]
pub(crate) enum Worker<N: Laid> {
    Caller(Caller<N>),
    Passer(Passer),
}

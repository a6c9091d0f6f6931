//! What is called at moments of a run on threads. It changes nothing of the product.

use sat_label::NodeName;

/// What the workers of a run on threads call.
pub trait Gate: Sync {
    /// A serializer holds its lock and handles a label; or a site's hub holds its lock in a gather, and has taken no
    /// gear's lock yet.
    fn inside(&self, node: NodeName);

    /// A client has its answer with this number, from 1.
    fn answered(&self, client: u16, count: u64);
}

/// A gate that does nothing.
#[derive(Clone, Copy, Debug)]
pub struct FreeGate;

impl Gate for FreeGate {
    fn inside(&self, _node: NodeName) {}

    fn answered(&self, _client: u16, _count: u64) {}
}

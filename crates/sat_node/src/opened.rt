//! Nodes out of their locks: each link between two of them carried what its sender's entries put there, in order.
ghost use Rattle.std.specs.Prelude.{◌≡◌, ◌<◌, length, vec_capacity};
ghost use Rattle.sat_node.specs.Opened.{AgreeEnds, AgreeOut, AgreeNodes, AgreeRow, AgreeAll, AgreeWithin};

use crate::held::Held;
use crate::ins::compare_ends;
use crate::node::Machine;
use crate::outs::Names;

/// Each link from a node of the first list to one of the second: what the receiver's entries took is what the sender's
/// entries put there, from the first on and in order, each under a greater number; payloads and beats may have been
/// passed over. The nodes stay as they are.
pub fn agree_all<M: Machine, K: Machine, N: Names>(
    senders: &mut Vec<Held<M, N>>,
    receivers: &mut Vec<Held<K, N>>,
)
    ensures same { (senders.new.items ≡ senders.old.items) × (receivers.new.items ≡ receivers.old.items) }
    ensures agree { AgreeAll M.meaning K.meaning senders.old.items receivers.old.items }
{
    for a in 0..senders.len() {
        let sender = &mut senders[a];
        agree_row(sender, receivers);
    }
}

/// The same of the links within one list, from each node to each other.
pub fn agree_within<M: Machine + Drop, N: Names>(nodes: &mut Vec<Held<M, N>>)
    ensures same { nodes.new.items ≡ nodes.old.items }
    ensures agree { AgreeWithin M.meaning nodes.old.items }
{
    for a in 0..nodes.len() {
        let mut sender = nodes.remove(a);
        agree_row(&mut sender, nodes);
        if nodes.insert(a, sender).is_err() {
            unreachable!()
        }
    }
}

fn agree_row<M: Machine, K: Machine, N: Names>(
    sender: &mut Held<M, N>,
    receivers: &mut Vec<Held<K, N>>,
)
    ensures same { (sender.new ≡ sender.old) × (receivers.new.items ≡ receivers.old.items) }
    ensures room { vec_capacity receivers.new ≡ vec_capacity receivers.old }
    ensures agree { AgreeRow M.meaning K.meaning sender.old receivers.old.items }
{
    for b in 0..receivers.len() {
        let receiver = &mut receivers[b];
        agree_two(sender, receiver);
    }
}

/// The same of the links from one node to another.
pub fn agree_two<M: Machine, K: Machine, N: Names>(
    sender: &mut Held<M, N>,
    receiver: &mut Held<K, N>,
)
    ensures same { (sender.new ≡ sender.old) × (receiver.new ≡ receiver.old) }
    ensures agree { AgreeNodes M.meaning K.meaning sender.old receiver.old }
{
    for k in 0..sender.outs().len() {
        agree_out(sender, k, receiver);
    }
}

fn agree_out<M: Machine, K: Machine, N: Names>(
    sender: &mut Held<M, N>,
    out: usize,
    receiver: &mut Held<K, N>,
)
    requires { out < length sender.old.outs }
    ensures same { (sender.new ≡ sender.old) × (receiver.new ≡ receiver.old) }
    ensures agree { AgreeOut M.meaning K.meaning sender.old out receiver.old }
{
    for j in 0..receiver.ins().len() {
        agree_ends(sender, out, receiver, j);
    }
}

fn agree_ends<M: Machine, K: Machine, N: Names>(
    sender: &mut Held<M, N>,
    out: usize,
    receiver: &mut Held<K, N>,
    into: usize,
)
    requires { (out < length sender.old.outs) × (into < length receiver.old.ins) }
    ensures same { (sender.new ≡ sender.old) × (receiver.new ≡ receiver.old) }
    ensures agree { AgreeEnds M.meaning K.meaning sender.old out receiver.old into }
{
    let from = &mut sender.outs[out];
    let to = &mut receiver.ins[into];
    compare_ends(from, to);
}

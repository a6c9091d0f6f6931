//! Changes at one place: a serializer that hands a label on, gives one or is killed, a link that takes a label or gives
//! one.
ghost use Rattle.std.specs.Prelude.{◌≡◌, ◌<◌, ◌++◌, ℕ, [], ◌∷◌, false, true, length, drop, map, get_or, slice_get};
ghost use Rattle.std.specs.Prelude.{Some, IfOk, OnOk, OnErr, IsOk};
ghost use Rattle.sat_queue.specs.Queued.{members_of};
ghost use Rattle.sat_serial.specs.Routes.{routes, Arrives, IsNeighbour};
ghost use Rattle.sat_label.specs.Members.{In};
ghost use Rattle.sat_label.specs.declared.label.Label as declared_label;
ghost use Rattle.sat_serial.specs.Outboxes.{SerializerSeen, outbox, with_box, after_handle, after_ship};
ghost use Rattle.sat_net.specs.Nets.{change_at};
ghost use Rattle.sat_net.specs.Lending.{HandsSome};

use sat_label::{Label, NodeId, Nodes};
use sat_queue::Queue;
use sat_serial::{HandleFault, Serializer};
use sat_sites::Interest;
use std::alloc::AllocError;
use std::mem;

/// Whether a serializer was killed.
pub fn is_dead(serializers: &[Serializer], place: u16) -> bool
    requires { place < length serializers.now }
    ensures { (s : SerializerSeen) → slice_get serializers.now place ≡ Some s → result ≡ s.killed }
{
    let serializer = &serializers[place as usize];
    serializer.is_dead()
}

/// Hands a label that came from a neighbour to a serializer that is alive. For want of memory the serializers are as
/// before.
pub fn hand_on(
    serializers: &mut Vec<Serializer>,
    interest: &Interest,
    from: NodeId,
    label: Label,
    place: u16,
) -> Result<Nodes, AllocError>
    requires within { place < length serializers.old.items }
    requires arrives { (s : SerializerSeen) → slice_get serializers.old.items place ≡ Some s
        → Arrives interest.now s.tree s.number from label }
    requires alive { (s : SerializerSeen) → slice_get serializers.old.items place ≡ Some s → s.killed ≡ false }
    ensures nodes { IfOk result (λ nodes. (s : SerializerSeen) → slice_get serializers.old.items place ≡ Some s
        → nodes ≡ routes interest.now s.tree s.number from label) }
    ensures ok { OnOk result (serializers.new.items
        ≡ change_at (λ s. after_handle s interest.now from label) place serializers.old.items) }
    ensures err { OnErr result (serializers.new.items ≡ serializers.old.items) }
{
    let serializer = &mut serializers[place as usize];
    match serializer.handle(interest, from, label) {
        Ok(nodes) => Ok(nodes),
        Err(HandleFault::Memory) => Err(AllocError),
        Err(HandleFault::Dead) => unreachable!(),
    }
}

/// Hands labels that came from a neighbour to a serializer that is alive, from the front on: none is left. For want of
/// memory some are left, and those before them are handed on.
pub fn hand_all(
    serializers: &mut Vec<Serializer>,
    interest: &Interest,
    from: NodeId,
    labels: &mut Queue<Label>,
    place: u16,
) -> Result<(), AllocError>
    requires within { place < length serializers.old.items }
    requires arrives { (s : SerializerSeen) (l : declared_label.Label) → slice_get serializers.old.items place ≡ Some s
        → In labels.old.members l → Arrives interest.now s.tree s.number from l }
    requires alive { (s : SerializerSeen) → slice_get serializers.old.items place ≡ Some s → s.killed ≡ false }
    ensures ok { OnOk result (HandsSome serializers.old.items interest.now from place labels.old.members
        (length labels.old.members) serializers.new.items labels.new.members) }
    ensures err { OnErr result ((k : ℕ) × HandsSome serializers.old.items interest.now from place labels.old.members
        k serializers.new.items labels.new.members) }
{
    let serializer = &mut serializers[place as usize];
    if let Err(fault) = serializer.handle_all(interest, from, labels) {
        return Err(fault);
    }
    Ok(())
}

/// Lends out what a serializer has for a neighbour.
pub fn lend_box(serializers: &mut Vec<Serializer>, place: u16, to: NodeId) -> Queue<Label>
    requires within { place < length serializers.old.items }
    requires neighbour { (s : SerializerSeen) → slice_get serializers.old.items place ≡ Some s
        → IsNeighbour s.tree s.number to }
    ensures labels { (s : SerializerSeen) → slice_get serializers.old.items place ≡ Some s
        → result.members ≡ outbox s to }
    ensures rest { serializers.new.items ≡ change_at (λ s. with_box s to []) place serializers.old.items }
{
    let serializer = &mut serializers[place as usize];
    serializer.lend(to)
}

/// Gives it back.
pub fn restore_box(serializers: &mut Vec<Serializer>, place: u16, to: NodeId, labels: Queue<Label>)
    requires within { place < length serializers.old.items }
    requires neighbour { (s : SerializerSeen) → slice_get serializers.old.items place ≡ Some s
        → IsNeighbour s.tree s.number to }
    ensures { serializers.new.items ≡ change_at (λ s. with_box s to labels.members) place serializers.old.items }
{
    let serializer = &mut serializers[place as usize];
    serializer.restore(to, labels);
}

/// The oldest label that a serializer has for a neighbour.
pub fn front(serializers: &[Serializer], place: u16, to: NodeId) -> Option<Label>
    requires within { place < length serializers.now }
    requires neighbour { (s : SerializerSeen) → slice_get serializers.now place ≡ Some s
        → IsNeighbour s.tree s.number to }
    ensures { (s : SerializerSeen) → slice_get serializers.now place ≡ Some s → result ≡ slice_get (outbox s to) 0 }
{
    let serializer = &serializers[place as usize];
    serializer.front(to)
}

/// The label at a place of those that a serializer has for a neighbour.
pub fn ahead(serializers: &[Serializer], place: u16, to: NodeId, count: usize) -> Option<Label>
    requires within { place < length serializers.now }
    requires neighbour { (s : SerializerSeen) → slice_get serializers.now place ≡ Some s
        → IsNeighbour s.tree s.number to }
    ensures { (s : SerializerSeen) → slice_get serializers.now place ≡ Some s → result ≡ slice_get (outbox s to) count }
{
    let serializer = &serializers[place as usize];
    serializer.ahead(to, count)
}

/// Takes the oldest label that a serializer has for a neighbour.
pub fn ship(serializers: &mut Vec<Serializer>, place: u16, to: NodeId)
    requires within { place < length serializers.old.items }
    requires neighbour { (s : SerializerSeen) → slice_get serializers.old.items place ≡ Some s
        → IsNeighbour s.tree s.number to }
    ensures { serializers.new.items ≡ change_at (λ s. after_ship s to) place serializers.old.items }
{
    let serializer = &mut serializers[place as usize];
    let _ = serializer.ship(to);
}

/// Kills a serializer.
pub fn kill(serializers: &mut Vec<Serializer>, place: u16)
    requires { place < length serializers.old.items }
    ensures { serializers.new.items ≡ change_at (λ s. record s { killed = true }) place serializers.old.items }
{
    let serializer = &mut serializers[place as usize];
    let _ = serializer.kill();
}

/// The oldest label on a link.
pub fn oldest(links: &[Queue<Label>], place: u16) -> Option<Label>
    requires { place < length links.now }
    ensures { result ≡ slice_get (get_or (map members_of links.now) place []) 0 }
{
    links[place as usize].front()
}

/// The label at a place of a link.
pub fn waiting(links: &[Queue<Label>], place: u16, count: usize) -> Option<Label>
    requires { place < length links.now }
    ensures { result ≡ slice_get (get_or (map members_of links.now) place []) count }
{
    links[place as usize].get(count)
}

/// How many labels stand on a link.
pub fn kept(links: &[Queue<Label>], place: u16) -> u64
    requires { place < length links.now }
    ensures { result ≡ length (get_or (map members_of links.now) place []) }
{
    links[place as usize].len() as u64
}

/// How many labels a serializer has for a node.
pub fn kept_for(serializers: &[Serializer], place: u16, to: NodeId) -> u64
    requires { place < length serializers.now }
    ensures { (s : SerializerSeen) → slice_get serializers.now place ≡ Some s → result ≡ length (outbox s to) }
{
    let serializer = &serializers[place as usize];
    serializer.kept(to)
}

/// Lends out what stands on a link.
pub fn lend_link(links: &mut Vec<Queue<Label>>, place: u16) -> Queue<Label>
    requires { place < length links.old.items }
    ensures labels { result.members ≡ get_or (map members_of links.old.items) place [] }
    ensures rest { map members_of links.new.items ≡ change_at (λ link. []) place (map members_of links.old.items) }
{
    let none = Queue::new(*links.allocator());
    let link = &mut links[place as usize];
    mem::replace(link, none)
}

/// Gives it back.
pub fn restore_link(links: &mut Vec<Queue<Label>>, place: u16, labels: Queue<Label>)
    requires { place < length links.old.items }
    ensures { map members_of links.new.items
        ≡ change_at (λ link. labels.members) place (map members_of links.old.items) }
{
    links[place as usize] = labels;
}

/// Takes the oldest label on a link.
pub fn take_oldest(links: &mut Vec<Queue<Label>>, place: u16)
    requires { place < length links.old.items }
    ensures { map members_of links.new.items ≡ change_at (λ link. drop 1 link) place (map members_of links.old.items) }
{
    let link = &mut links[place as usize];
    let _ = link.take();
}

/// Puts a label behind those of a link. For want of memory the links are as before.
pub fn send(links: &mut Vec<Queue<Label>>, place: u16, label: Label) -> Result<(), AllocError>
    requires { place < length links.old.items }
    ensures ok { OnOk result (map members_of links.new.items
        ≡ change_at (λ link. link ++ label ∷ []) place (map members_of links.old.items)) }
    ensures err { OnErr result (map members_of links.new.items ≡ map members_of links.old.items) }
{
    let link = &mut links[place as usize];
    link.reserve(1)?;
    link.push(label);
    Ok(())
}

//! What may be told of two notes, or of two parts of an act, that are not the same.
ghost use Rattle.std.specs.Prelude.{◌≡◌, ◌<◌, true, None, IfSome};
ghost use Rattle.sat_label.specs.Members.{In};
ghost use Rattle.sat_live.specs.Told.{IsAtNode, IsJointAct, IsNodeOf, IsPartAt};
ghost use Rattle.sat_live.specs.Telling.{CanBeTold, CanPartsBeTold};

use crate::lines::{is_kill, is_site};
use sat_act::{Act, Deployment};
use sat_finish::Joint;
use sat_label::NodeName;
use sat_session::Noted;

fn is_gear(d: &Deployment, site: u16, gear: u16) -> bool
    ensures { result ≡ true → (site < d.now.sites) × (gear < d.now.gears) }
{
    is_site(d, site) && gear < d.gears()
}

// Whether a name is that of a node of the deployment.
fn is_node(d: &Deployment, name: NodeName) -> bool
    ensures { result ≡ true → IsNodeOf d.now name }
{
    match name {
        NodeName::Site(site) => is_site(d, site),
        NodeName::Gear { site, gear } => is_gear(d, site, gear),
        NodeName::Serializer { epoch, number } => is_kill(d, epoch, number),
    }
}

// Whether a note is of an act that stands for itself, at a node of the deployment.
fn is_at_node(d: &Deployment, noted: &Noted) -> bool
    ensures { result ≡ true → IsAtNode d.now noted.now }
{
    let Some(name) = noted.at else {
        return false;
    };
    !noted.entry.inner && is_node(d, name)
}

fn is_at_node_if(d: &Deployment, noted: &Option<Noted>) -> bool
    ensures { result ≡ true → IfSome noted.now (IsAtNode d.now) }
{
    match noted {
        Some(noted) => is_at_node(d, noted),
        None => true,
    }
}

// Whether two acts are one.
fn is_same(a: &Act, b: &Act) -> bool
    ensures { result ≡ true → a.now ≡ b.now }
{
    *a == *b
}

// Whether an act is one of these.
fn is_among(acts: &[Act], act: &Act) -> bool
    ensures { result ≡ true → In acts.now act.now }
{
    for other in acts {
        if is_same(other, act) {
            return true;
        }
    }
    false
}

// Whether the act of a node's note is one of these, where no session has a note beside it.
fn is_of_script(acts: &[Act], node: &Option<Noted>, session: &Option<Noted>) -> bool
    ensures { result ≡ true → session.now ≡ None → IfSome node.now (λ n. In acts.now n.entry.act) }
{
    if session.is_some() {
        return true;
    }
    match node {
        Some(node) => is_among(acts, &node.entry.act),
        None => true,
    }
}

/// Whether two notes can be told: each is of an act at a node of the deployment; and where only the node's is there,
/// its act is one of these. All that nodes and sessions keep is so: a session does only acts of the script, and nodes
/// do no others for it.
pub(crate) fn can_be_told(
    d: &Deployment,
    acts: &[Act],
    node: &Option<Noted>,
    session: &Option<Noted>,
) -> bool
    ensures { result ≡ true → CanBeTold d.now acts.now node.now session.now }
{
    is_at_node_if(d, node) && is_at_node_if(d, session) && is_of_script(acts, node, session)
}

// ---- parts of acts

// Whether a part is of an act that stands for itself, at a node of the deployment.
fn is_part(d: &Deployment, part: &Joint) -> bool
    ensures { result ≡ true → IsPartAt d.now part.now }
{
    !part.entry.inner && is_node(d, part.at)
}

fn is_part_if(d: &Deployment, part: &Option<Joint>) -> bool
    ensures { result ≡ true → IfSome part.now (IsPartAt d.now) }
{
    match part {
        Some(part) => is_part(d, part),
        None => true,
    }
}

// Whether an act is one of several nodes: a gather, a turn or a stamp, or a write of several items that is one of these
// acts.
fn is_joint(acts: &[Act], act: &Act) -> bool
    ensures { result ≡ true → IsJointAct acts.now act.now }
{
    match act {
        Act::Gather { site: _ } => true,
        Act::Turn { site: _ } => true,
        Act::Stamp { site: _ } => true,
        Act::Writes { .. } => is_among(acts, act),
        _ => false,
    }
}

fn is_joint_if(acts: &[Act], part: &Option<Joint>) -> bool
    ensures { result ≡ true → IfSome part.now (λ j. IsJointAct acts.now j.entry.act) }
{
    match part {
        Some(part) => is_joint(acts, &part.entry.act),
        None => true,
    }
}

// Whether the act of another node's part is one of several nodes, where its home has no part beside it.
fn is_joint_alone(acts: &[Act], home: &Option<Joint>, other: &Option<Joint>) -> bool
    ensures { result ≡ true → home.now ≡ None → IfSome other.now (λ j. IsJointAct acts.now j.entry.act) }
{
    if home.is_some() {
        return true;
    }
    is_joint_if(acts, other)
}

/// Whether two parts can be told: each is of an act at a node of the deployment; and the home's, or the other's where
/// the home has none, is of an act of several nodes, one of these where a client did it. All that nodes keep is so.
pub(crate) fn can_parts_be_told(
    d: &Deployment,
    acts: &[Act],
    home: &Option<Joint>,
    other: &Option<Joint>,
) -> bool
    ensures { result ≡ true → CanPartsBeTold d.now acts.now home.now other.now }
{
    is_part_if(d, home)
        && is_part_if(d, other)
        && is_joint_if(acts, home)
        && is_joint_alone(acts, home, other)
}

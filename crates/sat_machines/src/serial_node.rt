//! A serializer as a machine of a node.
ghost use Rattle.std.specs.Prelude.{◌≡◌, ◌<◌, true, false, IfOk, OnOk, OnErr, Some, None, slice_get, length};
ghost use Rattle.std.specs.Prelude.{option_copied};
ghost use Rattle.sat_label.specs.declared.node.NodeName.TheVariants.{Serializer as AtSerializer};
ghost use Rattle.sat_label.specs.Order.{node_eq};
ghost use Rattle.sat_label.specs.Words.{has};
ghost use Rattle.sat_sites.specs.Interested.{IsLabelOf};
ghost use Rattle.sat_tree.specs.Cut.{is_edge, neighbours, IsNode};
ghost use Rattle.sat_act.specs.Parts.{tree_of};
ghost use Rattle.sat_model.specs.Interests.{interest_of};
ghost use Rattle.sat_serial.specs.Routes.{leads};
ghost use Rattle.sat_machines.specs.declared.serial_act.SerialAct.TheVariants as given;
ghost use Rattle.sat_machines.specs.Serials.{SerialStands, IsSerial, answer_in, arrives, goes_to, is_label_of, is_node};

use crate::{Laid, SerialAct, SerialAnswer};
use sat_act::{Answer, Deployment, Refusal};
use sat_label::{Kind, Label, NodeId, NodeName, Nodes};
use sat_node::{Machine, Made};
use sat_serial::Serializer;
use sat_site::interest;
use sat_sites::Interest;
use sat_tree::Tree;
use std::alloc::{AllocError, Global};
use std::marker::{Model, PhantomData};

/// A serializer of a tree of N's deployment as the machine of its node. It puts nothing into the outboxes of its
/// serializer: what a hop sends stands in its answer.
#[derive(Drop)]
pub struct SerialNode<N: Laid> {
    alloc: Global,
    epoch: u16,
    number: u16,
    serializer: Serializer,
    tree: Tree,
    interest: Interest,
    of: PhantomData<N>,
}

impl<N: Laid> Model for SerialNode<N> {
    ghost use Rattle.sat_machines.specs.Serials.{SerialSeen, IsSerial};

    ghost Value = { SerialSeen };

    ghost view = { λ n. record { epoch = n.epoch; serial = n.serializer } };

    ghost invariant = { λ n. IsSerial N.deployment n.epoch n.number n.serializer n.tree n.interest };
}

// Whether it is a node of the tree.
fn is_node(tree: &Tree, node: NodeId) -> bool
    ensures { result ≡ is_node tree.now node }
{
    match node {
        NodeId::Site(site) => site < tree.sites(),
        NodeId::Serializer(z) => z < tree.serializers(),
    }
}

// Whether it is a label of the interest.
fn is_label(interest: &Interest, sites: u16, label: &Label) -> bool
    requires { interest.now.sites ≡ sites }
    ensures { result ≡ is_label_of interest.now label.now }
{
    if label.point.site >= sites {
        return false;
    }
    match label.kind {
        Kind::Update(items) => interest.knows(&items),
        Kind::Move(site) => site < sites,
        Kind::Pulse => true,
        Kind::Close(_) => true,
    }
}

// Whether a target of the label lies beyond the edge from one node to another.
fn leads(tree: &Tree, interest: &Interest, from: NodeId, to: NodeId, label: &Label) -> bool
    requires sites { interest.now.sites ≡ length tree.now.seats }
    requires label { IsLabelOf interest.now label.now }
    requires from { IsNode tree.now from }
    requires to { IsNode tree.now to }
    requires edge { is_edge tree.now from to ≡ true }
    ensures { result ≡ leads interest.now tree.now from to label.now }
{
    let targets = interest.targets(label);
    let beyond = tree.beyond(from, to);
    targets.meets(&beyond)
}

// Whether a serializer may be handed the label by the node.
#[tactic(auto, using(crate::proofs::Serials::not_node, crate::proofs::Serials::not_edge, crate::proofs::Serials::not_label, crate::proofs::Serials::all_arrive, crate::proofs::Serials::node_is, crate::proofs::Serials::label_is))]
fn arrives(tree: &Tree, interest: &Interest, number: u16, from: NodeId, label: &Label) -> bool
    requires number { number < length tree.now.parents }
    requires sites { interest.now.sites ≡ length tree.now.seats }
    ensures { result ≡ arrives interest.now tree.now number from label.now }
{
    let here = NodeId::Serializer(number);
    if !is_node(tree, from) {
        return false;
    }
    if !tree.is_edge(from, here) {
        return false;
    }
    if !is_label(interest, tree.sites(), label) {
        return false;
    }
    leads(tree, interest, from, here, label)
}

// The neighbours, in their order.
fn copy_nodes(alloc: Global, nodes: &[NodeId]) -> Result<Nodes, AllocError>
    ensures { IfOk result (λ copy. copy ≡ nodes.now) }
{
    let mut copy = Nodes::new(alloc);
    for node in nodes {
        copy.push(*node)?;
    }
    Ok(copy)
}

impl<N: Laid> SerialNode<N> {
    /// The machine of a serializer of the tree of an epoch of a deployment, alive.
    pub fn new(
        alloc: Global,
        d: &Deployment,
        epoch: u16,
        tree: &Tree,
        number: u16,
    ) -> Result<SerialNode<N>, AllocError>
        requires deployment { N.deployment ≡ d.now }
        requires tree { tree_of d.now epoch ≡ Some tree.now }
        requires number { number < length tree.now.parents }
        ensures { IfOk result (λ node. SerialStands N.deployment (AtSerializer epoch number) node false) }
    {
        let interest = interest(alloc, d)?;
        let serializer = Serializer::new(alloc, tree, number)?;
        let tree = tree.copy()?;
        Ok(SerialNode {
            alloc,
            epoch,
            number,
            serializer,
            tree,
            interest,
            of: PhantomData,
        })
    }
}

impl<N: Laid> SerialNode<N> {
    /// Whether it was killed.
    pub fn is_dead(&self) -> bool
        ensures { result ≡ self.now.serial.killed }
    {
        self.serializer.is_dead()
    }

    /// The neighbour at the other end of the link of this number, None where there is no such link.
    pub fn neighbour(&self, link: usize) -> Option<NodeId>
        ensures { result ≡ slice_get (neighbours self.now.serial.tree self.now.serial.number) link }
    {
        match self.tree.neighbours(self.number).get(link) {
            Some(node) => Some(*node),
            None => None,
        }
    }

    // What is true of it.
    fn sound(&self)
        ensures deployment { IsSerial N.deployment self.now.epoch self.now.serial.number self.now.serial
            self.now.serial.tree (interest_of N.deployment) }
    {
        let _ = &self.tree;
    }

    // Whether it may be handed a label by a node.
    #[tactic(auto, using(crate::proofs::Serials::same_sites))]
    fn arrives(&self, from: NodeId, label: &Label) -> bool
        ensures { result ≡ arrives (interest_of N.deployment) self.now.serial.tree self.now.serial.number
            from label.now }
    {
        arrives(&self.tree, &self.interest, self.number, from, label)
    }

    // Its neighbours, in their order.
    fn ends(&self) -> Result<Nodes, AllocError>
        ensures { IfOk result (λ ends. ends ≡ neighbours self.now.serial.tree self.now.serial.number) }
    {
        copy_nodes(self.alloc, self.tree.neighbours(self.number))
    }

    // What it answers to a label.
    #[tactic(auto, using(crate::proofs::Serials::arrives_in, crate::proofs::Serials::hop_dead, crate::proofs::Serials::hop_alive))]
    fn hopped(&self, from: NodeId, label: Label) -> Result<Answer, AllocError>
        requires { arrives (interest_of N.deployment) self.now.serial.tree self.now.serial.number from label ≡ true }
        ensures { IfOk result (λ answer. answer ≡ answer_in N.deployment self.now.serial (given.Hop from label)) }
    {
        self.sound();
        if self.serializer.is_dead() {
            return Ok(Answer::Refused(Refusal::Dead));
        }
        let to = self.serializer.route(&self.interest, from, &label)?;
        Ok(Answer::Hopped { label, to })
    }

    // An answer with the neighbours, twice.
    fn twice(&self, answer: Answer) -> Result<(SerialAnswer, SerialAnswer), AllocError>
        ensures first { IfOk result (λ two. (two.0.answer ≡ answer)
            × (two.0.ends ≡ neighbours self.now.serial.tree self.now.serial.number)) }
        ensures second { IfOk result (λ two. two.0 ≡ two.1) }
    {
        let copy = answer.copy()?;
        let ends = self.ends()?;
        let again = self.ends()?;
        Ok((
            SerialAnswer { answer, ends },
            SerialAnswer {
                answer: copy,
                ends: again,
            },
        ))
    }

    // The answers to a kill, made before it.
    #[tactic(auto, using(crate::proofs::Serials::kill_dead, crate::proofs::Serials::kill_alive))]
    fn kill_answer(&self) -> Answer
        ensures { result ≡ answer_in N.deployment self.now.serial given.Kill }
    {
        if self.serializer.is_dead() {
            Answer::Refused(Refusal::Already)
        } else {
            Answer::Killed
        }
    }
}

impl<N: Laid> Machine for SerialNode<N> {
    type Input = SerialAct;

    type Answer = SerialAnswer;

    ghost use Rattle.std.specs.Prelude.{Bool, true};
    ghost use Rattle.sat_machines.specs.Serials.{SerialStands, serial_meaning, serial_takes_in};

    ghost State = { Bool };

    ghost meaning = { serial_meaning N.deployment };

    ghost stands_for = { λ name x dead. SerialStands N.deployment name x dead };

    ghost takes_in = { λ x act. serial_takes_in N.deployment x act };

    ghost may_fail = { λ x act. true };

    fn fits(&self, input: &SerialAct) -> bool {
        match input {
            SerialAct::Hop { from, label } => self.arrives(*from, label),
            SerialAct::Kill => true,
        }
    }

    fn step(&mut self, input: SerialAct) -> Result<(SerialAnswer, SerialAnswer), AllocError> {
        self.sound();
        match input {
            SerialAct::Hop { from, label } => {
                let answer = self.hopped(from, label)?;
                let both = self.twice(answer)?;
                Ok(both)
            }
            SerialAct::Kill => {
                let answer = self.kill_answer();
                let both = self.twice(answer)?;
                let _ = self.serializer.kill();
                Ok(both)
            }
        }
    }

    fn put(
        _alloc: Global,
        _name: NodeName,
        link: usize,
        _input: &SerialAct,
        given: &SerialAnswer,
    ) -> Result<Option<Made>, AllocError> {
        match &given.answer {
            Answer::Hopped { label, to } => Ok(goes_to(
                given.ends.as_slice().get(link),
                *label,
                to,
            )),
            _ => Ok(None),
        }
    }
}

// A label for the node, if it is among these.
fn goes_to(node: Option<&NodeId>, label: Label, to: &Nodes) -> Option<Made>
    ensures { result ≡ goes_to (option_copied node.entry) label to.now }
{
    match node {
        Some(node) if has(to.as_slice(), node) => Some(Made::Label(label)),
        _ => None,
    }
}

// Whether a node is among these.
fn has(nodes: &[NodeId], node: &NodeId) -> bool
    ensures { result ≡ has node_eq nodes.now node.now }
{
    match nodes.split_first() {
        None => false,
        Some((first, rest)) => first.is_same(node) || has(rest, node),
    }
}

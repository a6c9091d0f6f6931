//! All serializers of a deployment, at which nothing happened.
ghost use Rattle.std.specs.Prelude.{◌≡◌, ◌<◌, ◌+◌, ◌-◌, ◌^◌, ◌++◌, length, drop, map, IfOk, OnOk, Some};
ghost use Rattle.std.specs.List.{flat_map};
ghost use Rattle.sat_label.specs.declared.node.NodeName.TheVariants.{Serializer as AtSerializer};
ghost use Rattle.sat_act.specs.Parts.{tree_of};
ghost use Rattle.sat_machines.specs.Layout.{all_links, planted};
ghost use Rattle.sat_opened.specs.Opened.{name_in, serial_names, tree_names};
ghost use Rattle.sat_wires.specs.Wires.{AllNew, IsNew};

use crate::ends::Ends;
use crate::layout::serial_ways;
use crate::ways::Ways;
use sat_act::{Deployment, Plan};
use sat_label::NodeName;
use sat_machines::{Laid, SerialNode};
use sat_node::{Held, Names, Node};
use sat_tree::Tree;
use std::alloc::{AllocError, Global};

// A serializer of the tree of an epoch.
fn make_serial<N: Laid + Names>(
    alloc: Global,
    d: &Deployment,
    all: &Ways,
    ends: &mut Ends<N>,
    epoch: u16,
    tree: &Tree,
    number: u16,
) -> Result<Held<SerialNode<N>, N>, AllocError>
    requires deployment { N.deployment ≡ d.now }
    requires links { all.now ≡ all_links d.now }
    requires tree { tree_of d.now epoch ≡ Some tree.now }
    requires number { number < length tree.now.parents }
    ensures name { IfOk result (λ held. name_in held ≡ AtSerializer epoch number) }
    ensures fresh { IfOk result (λ held. IsNew held) }
{
    let own = serial_ways(alloc, epoch, tree, number)?;
    let outs = ends.outs(alloc, all, &own)?;
    let ins = ends.ins(alloc, all, &own)?;
    let machine = SerialNode::new(alloc, d, epoch, tree, number)?;
    let node = Node::new(alloc, NodeName::Serializer { epoch, number }, machine);
    Ok(Held::new(node, outs, ins))
}

// All serializers of the tree of an epoch, behind those that there are.
#[tactic(auto, using(crate::proofs::Names::serials_start))]
fn add_tree<N: Laid + Names>(
    serials: &mut Vec<Held<SerialNode<N>, N>>,
    alloc: Global,
    d: &Deployment,
    all: &Ways,
    ends: &mut Ends<N>,
    epoch: u16,
    tree: &Tree,
) -> Result<(), AllocError>
    requires deployment { N.deployment ≡ d.now }
    requires links { all.now ≡ all_links d.now }
    requires tree { tree_of d.now epoch ≡ Some tree.now }
    requires fresh { AllNew serials.old.items }
    ensures names { OnOk result (map name_in serials.new.items ≡ map name_in serials.old.items
        ++ tree_names (record { epoch = epoch; tree = tree.now })) }
    ensures fresh { OnOk result (AllNew serials.new.items) }
{
    for number in 0..tree.serializers() {
        let held = make_serial(alloc, d, all, ends, epoch, tree, number)?;
        serials.push(held)?;
    }
    Ok(())
}

// All serializers of the trees of these plans, the last of the deployment's, the first of which is that of this epoch.
#[tactic(auto, using(crate::proofs::Names::plan_here, crate::proofs::Names::plans_left))]
fn add_trees<N: Laid + Names>(
    serials: &mut Vec<Held<SerialNode<N>, N>>,
    alloc: Global,
    d: &Deployment,
    all: &Ways,
    ends: &mut Ends<N>,
    epoch: u16,
    plans: &[Plan],
) -> Result<(), AllocError>
    requires deployment { N.deployment ≡ d.now }
    requires links { all.now ≡ all_links d.now }
    requires epochs { (0 < epoch) × (epoch + length plans.now < 2 ^ 16) }
    requires plans { drop (epoch - 1) d.now.plans ≡ plans.now }
    requires fresh { AllNew serials.old.items }
    ensures names { OnOk result (map name_in serials.new.items ≡ map name_in serials.old.items
        ++ flat_map tree_names (planted epoch plans.now)) }
    ensures fresh { OnOk result (AllNew serials.new.items) }
{
    let Some((plan, rest)) = plans.split_first() else {
        return Ok(());
    };
    match plan {
        Plan::Stamp => add_trees(serials, alloc, d, all, ends, epoch + 1, rest),
        Plan::Tree(tree) => {
            add_tree(serials, alloc, d, all, ends, epoch, tree)?;
            add_trees(serials, alloc, d, all, ends, epoch + 1, rest)
        }
    }
}

/// All serializers of a deployment's trees, in order, at which nothing happened, with their ends of its links.
#[tactic(auto, using(crate::proofs::Places::few_epochs))]
pub fn make_serials<N: Laid + Names>(
    alloc: Global,
    d: &Deployment,
    all: &Ways,
    ends: &mut Ends<N>,
) -> Result<Vec<Held<SerialNode<N>, N>>, AllocError>
    requires deployment { N.deployment ≡ d.now }
    requires links { all.now ≡ all_links d.now }
    ensures names { IfOk result (λ serials. map name_in serials.items ≡ serial_names d.now) }
    ensures fresh { IfOk result (λ serials. AllNew serials.items) }
{
    let mut serials = Vec::new(alloc);
    add_trees(&mut serials, alloc, d, all, ends, 1, d.plans())?;
    Ok(serials)
}

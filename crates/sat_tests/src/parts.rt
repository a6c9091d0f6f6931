//! Parts by themselves: the first thing that is wrong of each, the way of a label through a tree, and a version's copy.
ghost use Rattle.std.specs.Prelude.{◌≡◌, [], ◌∷◌, None, Some};
ghost use Rattle.sat_label.specs.declared.site_set.SiteSet.{SiteSet as SiteSetSeen};

use sat_act::{Deployment, DeploymentFault};
use sat_label::{Items, Kind, Label, Name, NodeId, Nodes, Point, SiteSet, Value, Version};
use sat_serial::Serializer;
use sat_sites::{Interest, InterestFault};
use sat_tree::{Tree, TreeFault};
use std::alloc::{AllocError, Global};
use std::test::Fail;

#[test]
fn a_name_has_a_byte(rt: HostRuntime) -> Result<(), Fail> {
    assert!(rt; Name::of(rt.alloc(), b"")?.is_none());
    Ok(())
}

#[test]
fn a_version_is_copied(rt: HostRuntime) -> Result<(), Fail> {
    let alloc = rt.alloc();
    let Some(value) = Value::of(alloc, b"v")? else {
        return Err("a value of one byte is none".into());
    };
    let label = Label {
        point: Point {
            ts: 7,
            site: 1,
            gear: 0,
        },
        kind: Kind::Update(Items::One(3)),
    };
    let version = Version::new(alloc, label, value)?;
    let copy = version.copy()?;
    drop(version);
    assert_eq!(rt; copy.label(), label);
    assert_eq!(rt; copy.value().bytes(), b"v".as_slice());
    Ok(())
}

#[test]
fn a_serializer_hangs_on_an_earlier_one(rt: HostRuntime) -> Result<(), Fail> {
    let made = Tree::new(rt.alloc(), &[None, Some(1)], &[0, 0]);
    assert!(rt; matches!(made, Err(TreeFault::NotATree(1))));
    Ok(())
}

#[test]
fn a_path_goes_over_the_root(rt: HostRuntime) -> Result<(), Fail> {
    let alloc = rt.alloc();
    let tree = Tree::new(alloc, &[None, Some(0), Some(0)], &[0, 1, 1, 2, 2])?;
    let down = [
        NodeId::Site(0),
        NodeId::Serializer(0),
        NodeId::Serializer(2),
        NodeId::Site(3),
    ];
    if tree.sites() != 5 {
        return Err("a tree of other sites".into());
    }
    assert_eq!(rt; tree.path(0, 3)?.as_slice(), down.as_slice());
    Ok(())
}

// Where the root hands an update of item 0 that came from the first serializer below it. Sites 1 and 3 keep the item,
// and sit below the root at one serializer and at the other.
fn on_from_the_root(alloc: Global, tree: &Tree, interest: &Interest) -> Result<Nodes, AllocError>
    requires tree { tree.now ≡ record { parents = None ∷ Some 0 ∷ Some 0 ∷ []; seats = 0 ∷ 1 ∷ 1 ∷ 2 ∷ 2 ∷ [] } }
    requires interest { interest.now ≡ record { sites = 5; replicas = (record { bits = 10 }) ∷ [] } }
{
    let update = Label {
        point: Point {
            ts: 1,
            site: 1,
            gear: 0,
        },
        kind: Kind::Update(Items::One(0)),
    };
    let root = Serializer::new(alloc, tree, 0)?;
    root.route(interest, NodeId::Serializer(1), &update)
}

#[test]
fn a_label_goes_on_to_where_it_is_wanted(rt: HostRuntime) -> Result<(), Fail> {
    let alloc = rt.alloc();
    let tree = Tree::new(alloc, &[None, Some(0), Some(0)], &[0, 1, 1, 2, 2])?;
    let interest = Interest::new(alloc, 5, &[SiteSet { bits: 10 }])?;
    let nodes = on_from_the_root(alloc, &tree, &interest)?;
    assert_eq!(rt; nodes.as_slice(), [NodeId::Serializer(2)].as_slice());
    Ok(())
}

// The format comes before the sites, and these before the plans, of which there are none.
#[test]
fn a_deployment_has_the_sites_of_its_format(rt: HostRuntime) -> Result<(), Fail> {
    let alloc = rt.alloc();
    for (format, sites, part) in [
        (0, 0, 5),
        (3, 1, 5),
        (1, 0, 0),
        (1, 16, 4),
        (1, 17, 0),
        (2, 64, 4),
        (2, 65, 0),
    ] {
        let made = Deployment::new(
            alloc,
            format,
            sites,
            1,
            Vec::new(alloc),
            Vec::new(alloc),
            Vec::new(alloc),
        );
        assert!(rt;
            matches!(made, Err(DeploymentFault::Size(wrong)) if wrong == part),
            "{sites} sites of format {format}"
        );
    }
    Ok(())
}

#[test]
fn an_item_is_kept_somewhere(rt: HostRuntime) -> Result<(), Fail> {
    let made = Interest::new(rt.alloc(), 2, &[SiteSet { bits: 0 }]);
    assert!(rt; matches!(made, Err(InterestFault::BadItem(0))));
    Ok(())
}

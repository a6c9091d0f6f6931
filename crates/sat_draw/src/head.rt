//! What stands above and behind the rows of a drawing.
ghost use Rattle.std.specs.Prelude.{◌≡◌, ◌≤◌, ◌<◌, ◌+◌, ◌*◌, ◌^◌, ◌++◌, ◌∷◌, [], List, length, OnOk, IfOk, Some};
ghost use Rattle.std.specs.Prelude.{slice_get};
ghost use Rattle.std.specs.Fmt.{decimal};
ghost use Rattle.sat_label.specs.declared.node.NodeId.TheVariants.{Site, Serializer};
ghost use Rattle.sat_label.specs.Text.{node_text};
ghost use Rattle.sat_tree.specs.Cut.{parent_of, seat_of};
ghost use Rattle.sat_draw.specs.Columns.{column_x, rows_top, row_y, site_column, serializer_column};
ghost use Rattle.sat_draw.specs.Head.{name_at, repeats, names, lane, name_for, names_for, first_clients, site_lane};
ghost use Rattle.sat_draw.specs.Head.{site_lanes};
ghost use Rattle.sat_draw.specs.Head.{name_above, name_below, tree_y, serializer_spot, site_spot};
ghost use Rattle.sat_draw.specs.Head.{node, branch, column_name, serializer_elements, serializers_elements};
ghost use Rattle.sat_draw.specs.Head.{seat_elements, seats_elements, epoch_name, tree_elements, plan_elements};
ghost use Rattle.sat_draw.specs.Head.{plans_elements, counted, caption, head};

use crate::columns::{column_x, plan_height, serializer_column, site_column};
use crate::element::{Element, Ink, Spot, Text};
use crate::geometry::{ABOVE, NAMES_APART, NAMES_SPARED, ROW, STEP, TREES};
use sat_act::{ClientLine, Deployment, Plan};
use sat_label::NodeId;
use sat_tree::Tree;
use std::alloc::{AllocError, Global};

fn node_name(alloc: Global, node: NodeId) -> Result<Text, AllocError>
    ensures { IfOk result (λ text. text ≡ node_text node) }
{
    let name = node.text(alloc)?;
    Ok(Text::of(name.into_bytes()))
}

fn push_line(ink: Ink, from: Spot, to: Spot, out: &mut Vec<Element>) -> Result<(), AllocError>
    ensures { OnOk result (out.new.items ≡ out.old.items ++ Element.Line ink from to ∷ []) }
{
    out.push(Element::Line { ink, from, to })?;
    Ok(())
}

// The name of a column.
fn name_at(alloc: Global, column: u64, y: u64, name: &Text) -> Result<Element, AllocError>
    requires { column ≤ 2000000 }
    ensures { IfOk result (λ element. element ≡ name_at column y name.now) }
{
    let bytes = name.bytes().to_vec(alloc)?;
    Ok(Element::Word {
        ink: Ink::Name,
        at: Spot {
            x: column_x(column),
            y,
        },
        text: Text::of(bytes),
    })
}

// How often a column has its name again.
fn repeats(top: u64, bottom: u64) -> u64
    requires top { top ≤ 40000000 }
    requires bottom { bottom ≤ 2 ^ 40 }
    ensures repeats { result ≡ repeats top bottom }
    ensures few { result ≤ 2 ^ 40 }
{
    if bottom < top + NAMES_SPARED {
        0
    } else {
        (bottom - (top + NAMES_SPARED)) / NAMES_APART
    }
}

fn push_names(
    alloc: Global,
    top: u64,
    column: u64,
    name: &Text,
    count: u64,
    out: &mut Vec<Element>,
) -> Result<(), AllocError>
    requires top { top ≤ 40000000 }
    requires column { column ≤ 2000000 }
    requires count { count ≤ 2 ^ 40 }
    ensures { OnOk result (out.new.items ≡ out.old.items ++ names top column name.now count) }
{
    for n in 0..count {
        let again = name_at(alloc, column, top + (n + 1) * NAMES_APART - 8, name)?;
        out.push(again)?;
    }
    Ok(())
}

// A column with its name.
fn push_lane(
    alloc: Global,
    top: u64,
    bottom: u64,
    column: u64,
    name: &Text,
    out: &mut Vec<Element>,
) -> Result<(), AllocError>
    requires top { 30 ≤ top }
    requires low { top ≤ 40000000 }
    requires bottom { bottom ≤ 2 ^ 40 }
    requires column { column ≤ 2000000 }
    ensures { OnOk result (out.new.items ≡ out.old.items ++ lane top bottom column name.now) }
{
    let x = column_x(column);
    push_line(
        Ink::Lane,
        Spot { x, y: top - 24 },
        Spot { x, y: bottom },
        out,
    )?;
    let above = name_at(alloc, column, top - 30, name)?;
    out.push(above)?;
    let below = name_at(alloc, column, bottom + 18, name)?;
    out.push(below)?;
    push_names(alloc, top, column, name, repeats(top, bottom), out)
}

// The name of a client, if its first seat is at this site.
fn push_client(client: &ClientLine, site: u16, out: &mut Vec<u8>) -> Result<(), AllocError>
    ensures { OnOk result (out.new.items ≡ out.old.items ++ name_for site client.now) }
{
    if client.site != site {
        return Ok(());
    }
    out.extend_from_slice(client.name.bytes())?;
    out.push(b' ')?;
    Ok(())
}

fn names_for(alloc: Global, clients: &[ClientLine], site: u16) -> Result<Text, AllocError>
    ensures { IfOk result (λ text. text ≡ names_for clients.now site) }
{
    let mut names = Vec::new(alloc);
    for client in clients {
        push_client(client, site, &mut names)?;
    }
    Ok(Text::of(names))
}

// The column of a site, with its first clients.
fn push_site_lane(
    alloc: Global,
    d: &Deployment,
    top: u64,
    bottom: u64,
    site: u16,
    out: &mut Vec<Element>,
) -> Result<(), AllocError>
    requires top { 30 ≤ top }
    requires low { top ≤ 40000000 }
    requires bottom { bottom ≤ 2 ^ 40 }
    ensures { OnOk result (out.new.items ≡ out.old.items ++ site_lane d.now top bottom site) }
{
    let name = node_name(alloc, NodeId::Site(site))?;
    let column = site_column(d, site);
    push_lane(alloc, top, bottom, column, &name, out)?;
    let clients = names_for(alloc, d.clients(), site)?;
    out.push(Element::Word {
        ink: Ink::Client,
        at: Spot {
            x: column_x(column) + 9,
            y: top - ABOVE,
        },
        text: clients,
    })?;
    Ok(())
}

// The columns of the sites.
fn push_site_lanes(
    alloc: Global,
    d: &Deployment,
    top: u64,
    bottom: u64,
    out: &mut Vec<Element>,
) -> Result<(), AllocError>
    requires top { 30 ≤ top }
    requires low { top ≤ 40000000 }
    requires bottom { bottom ≤ 2 ^ 40 }
    ensures { OnOk result (out.new.items ≡ out.old.items ++ site_lanes d.now top bottom d.now.sites) }
{
    for site in 0..d.sites() {
        push_site_lane(alloc, d, top, bottom, site, out)?;
    }
    Ok(())
}

fn tree_y(y: u64, place: u16) -> u64
    requires { y ≤ 40000000 }
    ensures result_is { result ≡ tree_y y place }
    ensures below { 20 ≤ result }
    ensures high { result ≤ 50000000 }
{
    y + 20 + u64::from(place) * STEP
}

fn serializer_spot(d: &Deployment, epoch: u16, y: u64, z: u16) -> Spot
    requires { y ≤ 40000000 }
    ensures spot { result ≡ serializer_spot d.now epoch y z }
    ensures right { result.x ≤ 400000000 }
    ensures below { 20 ≤ result.y }
{
    Spot {
        x: column_x(serializer_column(d, epoch, z)),
        y: tree_y(y, z),
    }
}

fn site_spot(d: &Deployment, y: u64, tree: &Tree, site: u16) -> Spot
    requires { y ≤ 40000000 }
    ensures spot { result ≡ site_spot d.now y tree.now site }
    ensures right { result.x ≤ 400000000 }
    ensures high { result.y ≤ 50000000 }
{
    Spot {
        x: column_x(site_column(d, site)),
        y: tree_y(y, tree.serializers()),
    }
}

fn name_above(at: Spot) -> Spot
    requires right { at.x ≤ 400000000 }
    requires low { 20 ≤ at.y }
    ensures { result ≡ name_above at }
{
    Spot {
        x: at.x + 7,
        y: at.y - 5,
    }
}

fn name_below(at: Spot) -> Spot
    requires right { at.x ≤ 400000000 }
    requires high { at.y ≤ 50000000 }
    ensures { result ≡ name_below at }
{
    Spot {
        x: at.x + 7,
        y: at.y + 13,
    }
}

// A node and its name, which stands there.
fn push_node(
    alloc: Global,
    at: Spot,
    there: Spot,
    name: Text,
    out: &mut Vec<Element>,
) -> Result<(), AllocError>
    ensures { OnOk result (out.new.items ≡ out.old.items ++ node at there name) }
{
    let title = name.bytes().to_vec(alloc)?;
    out.push(Element::Dot {
        ink: Ink::Node,
        at,
        text: Text::of(title),
    })?;
    out.push(Element::Word {
        ink: Ink::Epoch,
        at: there,
        text: name,
    })?;
    Ok(())
}

// The edge from a serializer to the one that it hangs on.
fn push_branch(
    d: &Deployment,
    epoch: u16,
    y: u64,
    z: u16,
    parent: Option<u16>,
    out: &mut Vec<Element>,
) -> Result<(), AllocError>
    requires { y ≤ 40000000 }
    ensures { OnOk result (out.new.items ≡ out.old.items ++ branch d.now epoch y z parent) }
{
    match parent {
        None => Ok(()),
        Some(p) => push_line(
            Ink::Edge,
            serializer_spot(d, epoch, y, z),
            serializer_spot(d, epoch, y, p),
            out,
        ),
    }
}

// The name of a serializer's column.
fn column_name(alloc: Global, epoch: u16, z: u16) -> Result<Text, AllocError>
    ensures { IfOk result (λ text. text ≡ column_name epoch z) }
{
    let node = NodeId::Serializer(z).text(alloc)?;
    let name = node.as_str();
    let text = format!(in alloc; "{name} of epoch {epoch}")?;
    Ok(Text::of(text.into_bytes()))
}

// The serializer that one hangs on.
#[tactic(auto, unfolding(sat_tree::specs::Cut::parent_of))]
fn parent_of(tree: &Tree, z: u16) -> Option<u16>
    requires { z < length tree.now.parents }
    ensures { result ≡ parent_of tree.now.parents z }
{
    tree.parent(z)
}

#[tactic(auto, unfolding(sat_tree::specs::Cut::seat_of))]
fn seat_of(tree: &Tree, site: u16) -> u16
    requires { site < length tree.now.seats }
    ensures { result ≡ seat_of tree.now site }
{
    tree.seat(site)
}

// What is drawn of a serializer.
fn push_serializer(
    alloc: Global,
    d: &Deployment,
    top: u64,
    bottom: u64,
    epoch: u16,
    y: u64,
    tree: &Tree,
    z: u16,
    out: &mut Vec<Element>,
) -> Result<(), AllocError>
    requires top { 30 ≤ top }
    requires low { top ≤ 40000000 }
    requires bottom { bottom ≤ 2 ^ 40 }
    requires y { y ≤ 40000000 }
    requires z { z < length tree.now.parents }
    ensures { OnOk result (out.new.items ≡ out.old.items ++ serializer_elements d.now top bottom epoch y tree.now z) }
{
    push_branch(d, epoch, y, z, parent_of(tree, z), out)?;
    let name = node_name(alloc, NodeId::Serializer(z))?;
    let at = serializer_spot(d, epoch, y, z);
    push_node(alloc, at, name_above(at), name, out)?;
    let name = column_name(alloc, epoch, z)?;
    push_lane(
        alloc,
        top,
        bottom,
        serializer_column(d, epoch, z),
        &name,
        out,
    )
}

fn push_serializers(
    alloc: Global,
    d: &Deployment,
    top: u64,
    bottom: u64,
    epoch: u16,
    y: u64,
    tree: &Tree,
    out: &mut Vec<Element>,
) -> Result<(), AllocError>
    requires top { 30 ≤ top }
    requires low { top ≤ 40000000 }
    requires bottom { bottom ≤ 2 ^ 40 }
    requires y { y ≤ 40000000 }
    ensures { OnOk result (out.new.items ≡ out.old.items
        ++ serializers_elements d.now top bottom epoch y tree.now (length tree.now.parents)) }
{
    for z in 0..tree.serializers() {
        push_serializer(alloc, d, top, bottom, epoch, y, tree, z, out)?;
    }
    Ok(())
}

// What is drawn of a site in a tree.
fn push_seat(
    alloc: Global,
    d: &Deployment,
    epoch: u16,
    y: u64,
    tree: &Tree,
    site: u16,
    out: &mut Vec<Element>,
) -> Result<(), AllocError>
    requires y { y ≤ 40000000 }
    requires site { site < length tree.now.seats }
    ensures { OnOk result (out.new.items ≡ out.old.items ++ seat_elements d.now epoch y tree.now site) }
{
    let at = site_spot(d, y, tree, site);
    push_line(
        Ink::Edge,
        at,
        serializer_spot(d, epoch, y, seat_of(tree, site)),
        out,
    )?;
    let name = node_name(alloc, NodeId::Site(site))?;
    push_node(alloc, at, name_below(at), name, out)
}

fn push_seats(
    alloc: Global,
    d: &Deployment,
    epoch: u16,
    y: u64,
    tree: &Tree,
    out: &mut Vec<Element>,
) -> Result<(), AllocError>
    requires { y ≤ 40000000 }
    ensures { OnOk result (out.new.items ≡ out.old.items
        ++ seats_elements d.now epoch y tree.now (length tree.now.seats)) }
{
    for site in 0..tree.sites() {
        push_seat(alloc, d, epoch, y, tree, site, out)?;
    }
    Ok(())
}

fn epoch_name(alloc: Global, epoch: u16, plan: &Plan) -> Result<Text, AllocError>
    ensures { IfOk result (λ text. text ≡ epoch_name epoch plan.now) }
{
    let text = match plan {
        Plan::Stamp => format!(in alloc; "epoch {epoch}: by timestamps, without a tree")?,
        Plan::Tree(_) => format!(in alloc; "epoch {epoch}")?,
    };
    Ok(Text::of(text.into_bytes()))
}

fn push_tree(
    alloc: Global,
    d: &Deployment,
    top: u64,
    bottom: u64,
    epoch: u16,
    y: u64,
    plan: &Plan,
    out: &mut Vec<Element>,
) -> Result<(), AllocError>
    requires top { 30 ≤ top }
    requires low { top ≤ 40000000 }
    requires bottom { bottom ≤ 2 ^ 40 }
    requires y { y ≤ 40000000 }
    ensures { OnOk result (out.new.items ≡ out.old.items ++ tree_elements d.now top bottom epoch y plan.now) }
{
    match plan {
        Plan::Stamp => Ok(()),
        Plan::Tree(tree) => {
            push_serializers(alloc, d, top, bottom, epoch, y, tree, out)?;
            push_seats(alloc, d, epoch, y, tree, out)
        }
    }
}

fn push_plan(
    alloc: Global,
    d: &Deployment,
    top: u64,
    bottom: u64,
    epoch: u16,
    y: u64,
    plan: &Plan,
    out: &mut Vec<Element>,
) -> Result<(), AllocError>
    requires top { 30 ≤ top }
    requires low { top ≤ 40000000 }
    requires bottom { bottom ≤ 2 ^ 40 }
    requires y { y ≤ 40000000 }
    ensures { OnOk result (out.new.items ≡ out.old.items ++ plan_elements d.now top bottom epoch y plan.now) }
{
    let text = epoch_name(alloc, epoch, plan)?;
    out.push(Element::Word {
        ink: Ink::Epoch,
        at: Spot { x: 8, y: y + 24 },
        text,
    })?;
    push_tree(alloc, d, top, bottom, epoch, y, plan, out)
}

// The plans from an epoch on.
#[tactic(auto, unfolding(crate::specs::Head::plans_elements))]
fn push_plans(
    alloc: Global,
    d: &Deployment,
    top: u64,
    bottom: u64,
    epoch: u16,
    y: u64,
    plans: &[Plan],
    out: &mut Vec<Element>,
) -> Result<(), AllocError>
    requires top { 30 ≤ top }
    requires low { top ≤ 40000000 }
    requires bottom { bottom ≤ 2 ^ 40 }
    requires epoch { epoch + length plans.now ≤ 17 }
    requires y { y + length plans.now * 2000000 ≤ 40000000 }
    ensures { OnOk result (out.new.items ≡ out.old.items ++ plans_elements d.now top bottom epoch y plans.now) }
{
    let Some((first, rest)) = plans.split_first() else {
        return Ok(());
    };
    push_plan(alloc, d, top, bottom, epoch, y, first, out)?;
    push_plans(
        alloc,
        d,
        top,
        bottom,
        epoch + 1,
        y + plan_height(first),
        rest,
        out,
    )
}

// So many of something.
fn counted(alloc: Global, n: u64, word: &str) -> Result<Text, AllocError>
    ensures { IfOk result (λ text. text ≡ counted n word.now) }
{
    if n == 1 {
        let text = format!(in alloc; "{n} {word}")?;
        return Ok(Text::of(text.into_bytes()));
    }
    let text = format!(in alloc; "{n} {word}s")?;
    Ok(Text::of(text.into_bytes()))
}

/// The title of a drawing with so many rows.
#[tactic(auto, unfolding(crate::specs::Head::caption))]
pub(crate) fn caption(alloc: Global, d: &Deployment, count: u64) -> Result<Text, AllocError>
    ensures { IfOk result (λ text. text ≡ caption d.now count) }
{
    let acts = counted(alloc, count, "act")?;
    let sites = counted(alloc, u64::from(d.sites()), "site")?;
    let clients = counted(alloc, d.clients().len() as u64, "client")?;
    let mut text = b"A run of Saturn: ".to_vec(alloc)?;
    text.extend_from_slice(acts.bytes())?;
    text.extend_from_slice(b", ")?;
    text.extend_from_slice(sites.bytes())?;
    text.extend_from_slice(b", ")?;
    text.extend_from_slice(clients.bytes())?;
    Ok(Text::of(text))
}

/// All that stands above and behind so many rows.
#[tactic(auto, unfolding(crate::specs::Head::head))]
pub(crate) fn head(
    alloc: Global,
    d: &Deployment,
    top: u64,
    count: u64,
) -> Result<Vec<Element>, AllocError>
    requires top { top ≡ rows_top d.now }
    requires low { top ≤ 40000000 }
    requires few { count ≤ 4294967296 }
    ensures { IfOk result (λ all. all.items ≡ head d.now count) }
{
    let bottom = top + count * ROW;
    let title = caption(alloc, d, count)?;
    let mut all = Vec::new(alloc);
    all.push(Element::Word {
        ink: Ink::Title,
        at: Spot { x: 8, y: 22 },
        text: title,
    })?;
    let name = Text::word(alloc, "outside")?;
    push_lane(alloc, top, bottom, 0, &name, &mut all)?;
    push_site_lanes(alloc, d, top, bottom, &mut all)?;
    push_plans(alloc, d, top, bottom, 1, TREES, d.plans(), &mut all)?;
    Ok(all)
}

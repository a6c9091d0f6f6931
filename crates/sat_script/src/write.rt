//! Writing scripts: the one spelling of each.
ghost use Rattle.std.specs.Prelude.{◌≡◌, ◌++◌, ◌∷◌, [], codes, OnOk, OnErr, IfOk};
ghost use Rattle.sat_label.specs.Text.{AppendsFront};
ghost use Rattle.sat_script.specs.Spelled.{items_text, clients_text, plans_text, act_text, header_text, ended};
ghost use Rattle.sat_script.specs.Spelled.{spelling};

use crate::write_lines::{act_line, client_line, item_line, number_line, plan_line, push_line};
use sat_act::{Act, ClientLine, Deployment, Item, Plan};
use std::alloc::{AllocError, Global};

// The lines of items.
fn items_bytes(alloc: Global, items: &[Item]) -> Result<Vec<u8>, AllocError>
    ensures { IfOk result (λ text. text.items ≡ items_text items.now) }
{
    let mut text = Vec::new(alloc);
    for item in items {
        let line = item_line(alloc, item)?;
        push_line(&mut text, line.as_slice())?;
    }
    Ok(text)
}

// The lines of clients.
fn clients_bytes(alloc: Global, clients: &[ClientLine]) -> Result<Vec<u8>, AllocError>
    ensures { IfOk result (λ text. text.items ≡ clients_text clients.now) }
{
    let mut text = Vec::new(alloc);
    for client in clients {
        let line = client_line(alloc, client)?;
        push_line(&mut text, line.as_slice())?;
    }
    Ok(text)
}

// The lines of plans.
fn plans_bytes(alloc: Global, plans: &[Plan]) -> Result<Vec<u8>, AllocError>
    ensures { IfOk result (λ text. text.items ≡ plans_text plans.now) }
{
    let mut text = Vec::new(alloc);
    for plan in plans {
        let line = plan_line(alloc, plan)?;
        push_line(&mut text, line.as_slice())?;
    }
    Ok(text)
}

// The lines of the header.
#[tactic(auto, using(std::proofs::lemmas::List::append_assoc), unfolding(crate::specs::Spelled::header_text))]
fn header_bytes(alloc: Global, d: &Deployment) -> Result<Vec<u8>, AllocError>
    ensures { IfOk result (λ text. text.items ≡ header_text d.now ++ ended (codes "begin" ∷ [])) }
{
    let mut text = Vec::new(alloc);
    let format = number_line(alloc, b"saturn", u64::from(d.format()))?;
    push_line(&mut text, format.as_slice())?;
    let sites = number_line(alloc, b"sites", u64::from(d.sites()))?;
    push_line(&mut text, sites.as_slice())?;
    let gears = number_line(alloc, b"gears", u64::from(d.gears()))?;
    push_line(&mut text, gears.as_slice())?;
    let items = items_bytes(alloc, d.items())?;
    text.extend_from_slice(items.as_slice())?;
    let clients = clients_bytes(alloc, d.clients())?;
    text.extend_from_slice(clients.as_slice())?;
    let plans = plans_bytes(alloc, d.plans())?;
    text.extend_from_slice(plans.as_slice())?;
    push_line(&mut text, b"begin")?;
    Ok(text)
}

// The line of an act and its byte 10.
fn ended_act(alloc: Global, d: &Deployment, act: &Act) -> Result<Vec<u8>, AllocError>
    ensures { IfOk result (λ line. line.items ≡ act_text d.now act.now ++ 10 ∷ []) }
{
    let mut line = act_line(alloc, d, act)?;
    line.push(b'\n')?;
    Ok(line)
}

/// Appends the spelling of a deployment and of acts of it. For want of memory a front of it may stand there.
/// A client or an item that the deployment doesn't have is written with an empty name, and the line is then a bad one.
pub fn write_script(d: &Deployment, acts: &[Act], out: &mut Vec<u8>) -> Result<(), AllocError>
    ensures ok { OnOk result (out.new.items ≡ out.old.items ++ spelling d.now acts.now) }
    ensures err { OnErr result (AppendsFront out.old.items out.new.items (spelling d.now acts.now)) }
{
    let alloc = *out.allocator();
    let header = header_bytes(alloc, d)?;
    out.extend_from_slice(header.as_slice())?;
    for act in acts {
        let line = ended_act(alloc, d, act)?;
        out.extend_from_slice(line.as_slice())?;
    }
    out.extend_from_slice(b"end\n")?;
    Ok(())
}

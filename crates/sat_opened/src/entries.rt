//! Journals of nodes, as the merge of journals takes them.
ghost use Rattle.std.specs.Prelude.{◌≡◌, ◌++◌, map, IfOk, OnOk};
ghost use Rattle.sat_label.specs.declared.items.Items.TheVariants.{One};
ghost use Rattle.sat_act.specs.declared.act.Act.TheVariants.{Writes};
ghost use Rattle.sat_machines.specs.Serials.{epoch_in, serial_in};
ghost use Rattle.sat_machines.specs.Sites.{number_of};
ghost use Rattle.sat_opened.specs.Keeping.{client_in, write_act, site_act, site_kept, serial_act, serial_kept};
ghost use Rattle.sat_opened.specs.Keeping.{kept_under};
ghost use Rattle.sat_stitch.specs.Kept.{entry_of};

use sat_act::{Act, Entry};
use sat_label::{Items, NodeName, Values};
use sat_machines::{Laid, SerialAct, SerialAnswer, SerialNode, SiteAct, SiteAnswer, SiteNode};
use sat_node::{Held, Kept, Names, Node};
use sat_site::SiteInput;
use sat_stitch::KeptEntries;
use std::alloc::{AllocError, Global};

/// All that a site's node took, the oldest first, each entry an act by name under its number.
pub fn site_entries<N: Laid>(
    alloc: Global,
    node: &Node<SiteNode<N>>,
) -> Result<KeptEntries, AllocError>
    ensures { IfOk result (λ list. list ≡ map (kept_under (site_kept (number_of node.now.name))) node.now.entries) }
{
    let site = site_number(node.name());
    let mut list = KeptEntries::new(alloc);
    add_site(&mut list, site, node.journal())?;
    Ok(list)
}

/// All that a serializer's node took, the oldest first, each entry an act by name under its number.
pub fn serial_entries<N: Laid>(
    alloc: Global,
    node: &Node<SerialNode<N>>,
) -> Result<KeptEntries, AllocError>
    ensures { IfOk result (λ list. list
        ≡ map (kept_under (serial_kept (epoch_in node.now.name) (serial_in node.now.name))) node.now.entries) }
{
    let epoch = epoch_number(node.name());
    let number = serial_number(node.name());
    let mut list = KeptEntries::new(alloc);
    add_serial(&mut list, epoch, number, node.journal())?;
    Ok(list)
}

/// The same of a site that is lent with its link ends.
pub fn site_journal<N: Laid, W: Names>(
    alloc: Global,
    held: &Held<SiteNode<N>, W>,
) -> Result<KeptEntries, AllocError>
    ensures { IfOk result (λ list. list ≡ map (kept_under (site_kept (number_of held.now.node.name)))
        held.now.node.entries) }
{
    site_entries(alloc, held.node())
}

/// The same of a serializer that is lent with its link ends.
pub fn serial_journal<N: Laid, W: Names>(
    alloc: Global,
    held: &Held<SerialNode<N>, W>,
) -> Result<KeptEntries, AllocError>
    ensures { IfOk result (λ list. list
        ≡ map (kept_under (serial_kept (epoch_in held.now.node.name) (serial_in held.now.node.name)))
        held.now.node.entries) }
{
    serial_entries(alloc, held.node())
}

fn site_number(name: NodeName) -> u16
    ensures { result ≡ number_of name }
{
    match name {
        NodeName::Site(site) => site,
        NodeName::Serializer { .. } => 0,
        NodeName::Gear { site, .. } => site,
    }
}

fn epoch_number(name: NodeName) -> u16
    ensures { result ≡ epoch_in name }
{
    match name {
        NodeName::Site(_) => 0,
        NodeName::Serializer { epoch, .. } => epoch,
        NodeName::Gear { .. } => 0,
    }
}

fn serial_number(name: NodeName) -> u16
    ensures { result ≡ serial_in name }
{
    match name {
        NodeName::Site(_) => 0,
        NodeName::Serializer { number, .. } => number,
        NodeName::Gear { .. } => 0,
    }
}

fn add_site<N: Laid>(
    list: &mut KeptEntries,
    site: u16,
    journal: &[Kept<SiteAct<N>, SiteAnswer>],
) -> Result<(), AllocError>
    ensures { OnOk result (list.new ≡ list.old ++ map (kept_under (site_kept site)) journal.now) }
{
    for kept in journal {
        let entry = site_entry(site, kept)?;
        list.push(kept.lamport, entry)?;
    }
    Ok(())
}

fn add_serial(
    list: &mut KeptEntries,
    epoch: u16,
    number: u16,
    journal: &[Kept<SerialAct, SerialAnswer>],
) -> Result<(), AllocError>
    ensures { OnOk result (list.new ≡ list.old ++ map (kept_under (serial_kept epoch number)) journal.now) }
{
    for kept in journal {
        let entry = serial_entry(epoch, number, kept)?;
        list.push(kept.lamport, entry)?;
    }
    Ok(())
}

fn site_entry<N: Laid>(site: u16, kept: &Kept<SiteAct<N>, SiteAnswer>) -> Result<Entry, AllocError>
    ensures { IfOk result (λ entry. entry ≡ entry_of (site_kept site kept.now)) }
{
    let client = client_number(kept.input.by());
    let act = act_at(site, client, kept.input.input())?;
    let answer = kept.answer.answer.copy()?;
    Ok(Entry {
        act,
        answer,
        inner: false,
    })
}

fn serial_entry(
    epoch: u16,
    number: u16,
    kept: &Kept<SerialAct, SerialAnswer>,
) -> Result<Entry, AllocError>
    ensures { IfOk result (λ entry. entry ≡ entry_of (serial_kept epoch number kept.now)) }
{
    let act = act_of(epoch, number, &kept.input);
    let answer = kept.answer.answer.copy()?;
    Ok(Entry {
        act,
        answer,
        inner: false,
    })
}

fn client_number(by: Option<u16>) -> u16
    ensures { result ≡ client_in by }
{
    match by {
        Some(client) => client,
        None => 0,
    }
}

// The act of a serializer that an input is.
fn act_of(epoch: u16, number: u16, input: &SerialAct) -> Act
    ensures { result ≡ serial_act epoch number input.now }
{
    match input {
        SerialAct::Hop { from, label: _ } => Act::Hop {
            epoch,
            from: *from,
            to: number,
        },
        SerialAct::Kill => Act::Kill {
            epoch,
            serializer: number,
        },
    }
}

// A write of several items, as an act.
fn writes_of(client: u16, items: Items, values: &Values) -> Result<Act, AllocError>
    ensures { IfOk result (λ act. act ≡ Writes client items values.now) }
{
    let values = values.copy()?;
    Ok(Act::Writes {
        client,
        items,
        values,
    })
}

// A write of one item, as an act. A site is handed one value with it.
#[tactic(auto, using(crate::proofs::Written::write_one, crate::proofs::Written::write_more))]
fn write_of(client: u16, item: u16, values: &Values) -> Result<Act, AllocError>
    ensures { IfOk result (λ act. act ≡ write_act client (One item) values.now) }
{
    let list = values.as_slice();
    if list.len() != 1 {
        return writes_of(client, Items::One(item), values);
    }
    let value = list[0].copy()?;
    Ok(Act::Write {
        client,
        item,
        value,
    })
}

// The act of a client that a write is.
fn written(client: u16, items: Items, values: &Values) -> Result<Act, AllocError>
    ensures { IfOk result (λ act. act ≡ write_act client items values.now) }
{
    match items {
        Items::One(item) => write_of(client, item, values),
        Items::Two(..) => writes_of(client, items, values),
        Items::Three(..) => writes_of(client, items, values),
        Items::Four(..) => writes_of(client, items, values),
    }
}

// The act of a site that an input is.
fn act_at(site: u16, client: u16, input: &SiteInput) -> Result<Act, AllocError>
    ensures { IfOk result (λ act. act ≡ site_act site client input.now) }
{
    match input {
        SiteInput::Tick { gear, ts } => Ok(Act::Tick {
            site,
            gear: *gear,
            ts: *ts,
        }),
        SiteInput::Write {
            carried: _,
            items,
            values,
        } => written(client, *items, values),
        SiteInput::Read { carried: _, item } => Ok(Act::Read {
            client,
            item: *item,
        }),
        SiteInput::Move { carried: _, to } => Ok(Act::Move { client, site: *to }),
        SiteInput::Attach { carried: _ } => Ok(Act::Attach { client, site }),
        SiteInput::Gather => Ok(Act::Gather { site }),
        SiteInput::Emit => Ok(Act::Emit { site }),
        SiteInput::Pulse => Ok(Act::Pulse { site }),
        SiteInput::Turn { front: _ } => Ok(Act::Turn { site }),
        SiteInput::Bulk {
            from,
            gear,
            number,
            payload: _,
        } => Ok(Act::Bulk {
            from: *from,
            gear: *gear,
            to: site,
            number: Some(*number),
        }),
        SiteInput::Beat { to } => Ok(Act::Beat {
            from: site,
            to: *to,
        }),
        SiteInput::BeatIn {
            from,
            number,
            beat: _,
        } => Ok(Act::BeatIn {
            from: *from,
            to: site,
            number: *number,
        }),
        SiteInput::Stamp => Ok(Act::Stamp { site }),
        SiteInput::Close => Ok(Act::Close { site }),
        SiteInput::Fall => Ok(Act::Fall { site }),
        SiteInput::Advance => Ok(Act::Advance { site }),
    }
}

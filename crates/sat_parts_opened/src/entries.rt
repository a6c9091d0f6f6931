//! Journals of hubs and gears, as the merge of journals takes them.
ghost use Rattle.std.specs.Prelude.{◌≡◌, ◌++◌, true, length, map, IfOk, OnOk};
ghost use Rattle.std.specs.List.{flat_map};
ghost use Rattle.sat_label.specs.declared.items.Items.TheVariants.{One};
ghost use Rattle.sat_act.specs.declared.act.Act.TheVariants.{Writes};
ghost use Rattle.sat_stitch.specs.Kept.{entry_of};
ghost use Rattle.sat_hub_laws.specs.Changes.{input_is_own};
ghost use Rattle.sat_hub_laws.specs.Gears.{gear_act, write_act};
ghost use Rattle.sat_hub_laws.specs.Hubs.{hub_act};
ghost use Rattle.sat_parts.specs.Acts.{client_in, gear_handed, hub_handed};
ghost use Rattle.sat_parts_opened.specs.Keeping.{gear_kept, hub_kept, hub_noted, own_noted};

use sat_act::{Act, Entry};
use sat_joint::KeptEntries;
use sat_label::{Items, Values};
use sat_machines::Laid;
use sat_node::Kept;
use sat_parts::{GearAct, GearAnswer, GearInput, HubAct, HubAnswer, HubInput};
use std::alloc::{AllocError, Global};

/// All that the hub of a site took, the oldest first, each entry an act by name under its number. A hub is the home of
/// each.
pub fn hub_entries<N: Laid>(
    alloc: Global,
    site: u16,
    journal: &[Kept<HubAct<N>, HubAnswer>],
) -> Result<KeptEntries, AllocError>
    ensures { IfOk result (λ list. list ≡ map (hub_noted site) journal.now) }
{
    let mut list = KeptEntries::new(alloc);
    add_hub(&mut list, site, journal)?;
    Ok(list)
}

/// What a gear of a site took of its own acts, the oldest first, each entry an act by name under its number. Its parts
/// of other nodes' acts are left out: the merge takes an act from its home.
pub fn gear_entries<N: Laid>(
    alloc: Global,
    site: u16,
    gear: u16,
    journal: &[Kept<GearAct<N>, GearAnswer>],
) -> Result<KeptEntries, AllocError>
    ensures { IfOk result (λ list. list ≡ flat_map (own_noted site gear) journal.now) }
{
    let mut list = KeptEntries::new(alloc);
    add_gear(&mut list, site, gear, journal)?;
    Ok(list)
}

fn add_hub<N: Laid>(
    list: &mut KeptEntries,
    site: u16,
    journal: &[Kept<HubAct<N>, HubAnswer>],
) -> Result<(), AllocError>
    ensures { OnOk result (list.new ≡ list.old ++ map (hub_noted site) journal.now) }
{
    for kept in journal {
        let entry = hub_entry(site, kept)?;
        list.push(kept.lamport, entry, true)?;
    }
    Ok(())
}

#[tactic(auto, using(crate::proofs::Loops::one_more))]
fn add_gear<N: Laid>(
    list: &mut KeptEntries,
    site: u16,
    gear: u16,
    journal: &[Kept<GearAct<N>, GearAnswer>],
) -> Result<(), AllocError>
    ensures { OnOk result (list.new ≡ list.old ++ flat_map (own_noted site gear) journal.now) }
{
    for kept in journal {
        add_own(list, site, gear, kept)?;
    }
    Ok(())
}

// One more entry, if it is an act of the gear's own.
#[tactic(auto, using(crate::proofs::Loops::own_here, crate::proofs::Loops::own_not))]
fn add_own<N: Laid>(
    list: &mut KeptEntries,
    site: u16,
    gear: u16,
    kept: &Kept<GearAct<N>, GearAnswer>,
) -> Result<(), AllocError>
    ensures { OnOk result (list.new ≡ list.old ++ own_noted site gear kept.now) }
{
    if !is_own(kept.input.input()) {
        return Ok(());
    }
    let entry = gear_entry(site, gear, kept)?;
    list.push(kept.lamport, entry, true)
}

fn hub_entry<N: Laid>(site: u16, kept: &Kept<HubAct<N>, HubAnswer>) -> Result<Entry, AllocError>
    ensures { IfOk result (λ entry. entry ≡ entry_of (hub_kept site kept.now)) }
{
    let client = client_number(kept.input.by());
    let act = act_of_hub(site, client, kept.input.input());
    let answer = kept.answer.answer.copy()?;
    Ok(Entry {
        act,
        answer,
        inner: false,
    })
}

fn gear_entry<N: Laid>(
    site: u16,
    gear: u16,
    kept: &Kept<GearAct<N>, GearAnswer>,
) -> Result<Entry, AllocError>
    requires { input_is_own (gear_handed kept.now.input.input) ≡ true }
    ensures { IfOk result (λ entry. entry ≡ entry_of (gear_kept site gear kept.now)) }
{
    let client = client_number(kept.input.by());
    let act = act_of_gear(site, gear, client, kept.input.input())?;
    let answer = kept.answer.answer.copy()?;
    Ok(Entry {
        act,
        answer,
        inner: false,
    })
}

// The client of an act, 0 where it is none's.
fn client_number(by: Option<u16>) -> u16
    ensures { result ≡ client_in by }
{
    match by {
        Some(client) => client,
        None => 0,
    }
}

// Whether an input is an act of the gear's own, and no part of another node's.
fn is_own(input: &GearInput) -> bool
    ensures { result ≡ input_is_own (gear_handed input.now) }
{
    match input {
        GearInput::Tick { ts: _ } => true,
        GearInput::Write { .. } => true,
        GearInput::Read { .. } => true,
        GearInput::Move { .. } => true,
        GearInput::Drain { .. } => false,
        GearInput::Show { .. } => false,
    }
}

// The act that an input of a hub is.
fn act_of_hub(site: u16, client: u16, input: &HubInput) -> Act
    ensures { result ≡ hub_act site client (hub_handed input.now) }
{
    match input {
        HubInput::Attach { carried: _ } => Act::Attach { client, site },
        HubInput::Gather { drained: _ } => Act::Gather { site },
        HubInput::Emit => Act::Emit { site },
        HubInput::Pulse => Act::Pulse { site },
        HubInput::Turn { front: _ } => Act::Turn { site },
        HubInput::Bulk {
            from,
            gear,
            number,
            payload: _,
        } => Act::Bulk {
            from: *from,
            gear: *gear,
            to: site,
            number: Some(*number),
        },
        HubInput::Beat { to } => Act::Beat {
            from: site,
            to: *to,
        },
        HubInput::BeatIn {
            from,
            number,
            beat: _,
        } => Act::BeatIn {
            from: *from,
            to: site,
            number: *number,
        },
        HubInput::Stamp => Act::Stamp { site },
        HubInput::Close => Act::Close { site },
        HubInput::Fall => Act::Fall { site },
        HubInput::Advance => Act::Advance { site },
    }
}

// The act of a gear's own that an input is.
fn act_of_gear(site: u16, gear: u16, client: u16, input: &GearInput) -> Result<Act, AllocError>
    requires { input_is_own (gear_handed input.now) ≡ true }
    ensures { IfOk result (λ act. act ≡ gear_act site gear client (gear_handed input.now)) }
{
    match input {
        GearInput::Tick { ts } => Ok(Act::Tick {
            site,
            gear,
            ts: *ts,
        }),
        GearInput::Write {
            carried: _,
            items,
            values,
        } => written(client, *items, values),
        GearInput::Read { carried: _, item } => Ok(Act::Read {
            client,
            item: *item,
        }),
        GearInput::Move { carried: _, to } => Ok(Act::Move { client, site: *to }),
        GearInput::Drain { .. } => unreachable!(),
        GearInput::Show { .. } => unreachable!(),
    }
}

// A write of several items, as an act.
fn writes_of(client: u16, items: Items, values: &Values) -> Result<Act, AllocError>
    ensures { IfOk result (λ act. act ≡ Writes client items values.now) }
{
    let values = values.copy()?;
    Ok(Act::Writes {
        client,
        items,
        values,
    })
}

// A write of one item, as an act. A gear is handed one value with it.
#[tactic(auto, using(crate::proofs::Written::write_one, crate::proofs::Written::write_more))]
fn write_of(client: u16, item: u16, values: &Values) -> Result<Act, AllocError>
    ensures { IfOk result (λ act. act ≡ write_act client (One item) values.now) }
{
    let list = values.as_slice();
    if list.len() != 1 {
        return writes_of(client, Items::One(item), values);
    }
    let value = list[0].copy()?;
    Ok(Act::Write {
        client,
        item,
        value,
    })
}

// The act of a client that a write is.
fn written(client: u16, items: Items, values: &Values) -> Result<Act, AllocError>
    ensures { IfOk result (λ act. act ≡ write_act client items values.now) }
{
    match items {
        Items::One(item) => write_of(client, item, values),
        Items::Two(..) => writes_of(client, items, values),
        Items::Three(..) => writes_of(client, items, values),
        Items::Four(..) => writes_of(client, items, values),
    }
}

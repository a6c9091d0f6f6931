//! Acts of clients that writes are.
ghost use Rattle.std.specs.Prelude.{◌≡◌, ◌<◌, get_or, length, unwrap_or, None, [], IfOk};
ghost use Rattle.sat_label.specs.declared.items.Items.TheVariants.{One};
ghost use Rattle.sat_act.specs.declared.act.Act.TheVariants.{Writes};
ghost use Rattle.sat_hub_laws.specs.Gears.{shown_act, values_of, write_act, written_act};
ghost use Rattle.sat_parts.specs.Acts.{client_in, shown_in};

use sat_act::Act;
use sat_bulk::Payload;
use sat_label::{Items, Kind, Value, Values};
use sat_parts::ShownBy;
use std::alloc::{AllocError, Global};

/// The client of an act, 0 where it is none's.
pub(crate) fn client_number(by: Option<u16>) -> u16
    ensures { result ≡ client_in by }
{
    match by {
        Some(client) => client,
        None => 0,
    }
}

// A write of several items.
fn writes_of(client: u16, items: Items, values: &Values) -> Result<Act, AllocError>
    ensures { IfOk result (λ act. act ≡ Writes client items values.now) }
{
    let values = values.copy()?;
    Ok(Act::Writes {
        client,
        items,
        values,
    })
}

// A write of one item, with one value.
#[tactic(auto, using(sat_parts_opened::proofs::Written::write_one, sat_parts_opened::proofs::Written::write_more))]
fn write_of(client: u16, item: u16, values: &Values) -> Result<Act, AllocError>
    ensures { IfOk result (λ act. act ≡ write_act client (One item) values.now) }
{
    let list = values.as_slice();
    if list.len() != 1 {
        return writes_of(client, Items::One(item), values);
    }
    let value = list[0].copy()?;
    Ok(Act::Write {
        client,
        item,
        value,
    })
}

/// The act of a client that a write is.
pub(crate) fn written(client: u16, items: Items, values: &Values) -> Result<Act, AllocError>
    ensures { IfOk result (λ act. act ≡ write_act client items values.now) }
{
    match items {
        Items::One(item) => write_of(client, item, values),
        Items::Two(..) => writes_of(client, items, values),
        Items::Three(..) => writes_of(client, items, values),
        Items::Four(..) => writes_of(client, items, values),
    }
}

// The value of a place. No gear shows a write that lacks one.
fn value_at(payload: &Payload, place: usize) -> Result<Value, AllocError>
    requires { place < length payload.now.values }
    ensures { IfOk result (λ value. value ≡ unwrap_or (get_or payload.now.values place None) []) }
{
    match payload.value(place) {
        None => Err(AllocError),
        Some(value) => {
            let copy = value.copy()?;
            Ok(copy)
        }
    }
}

// All values of a payload.
#[tactic(auto, using(crate::proofs::Parted::values_more, crate::proofs::Parted::values_all))]
fn values_of(alloc: Global, payload: &Payload) -> Result<Values, AllocError>
    ensures { IfOk result (λ values. values ≡ values_of payload.now) }
{
    let mut values = Vec::new(alloc);
    for place in 0..payload.len() {
        let value = value_at(payload, place)?;
        values.push(value)?;
    }
    Ok(Values::many(values))
}

// The act of a client whose write a payload is.
fn written_by(alloc: Global, client: u16, payload: &Payload) -> Result<Act, AllocError>
    ensures { IfOk result (λ act. act ≡ written_act client payload.now.label.kind (values_of payload.now)) }
{
    let values = values_of(alloc, payload)?;
    match payload.label().kind {
        Kind::Update(items) => written(client, items, &values),
        Kind::Move(_) => writes_of(client, Items::One(0), &values),
        Kind::Pulse => writes_of(client, Items::One(0), &values),
        Kind::Close(_) => writes_of(client, Items::One(0), &values),
    }
}

/// The act in which a gear shows a payload.
pub(crate) fn shown_act(
    alloc: Global,
    site: u16,
    client: u16,
    by: ShownBy,
    payload: &Payload,
) -> Result<Act, AllocError>
    ensures { IfOk result (λ act. act ≡ shown_act site client (shown_in by) payload.now) }
{
    match by {
        ShownBy::Turn => Ok(Act::Turn { site }),
        ShownBy::Stamp => Ok(Act::Stamp { site }),
        ShownBy::Write => written_by(alloc, client, payload),
    }
}

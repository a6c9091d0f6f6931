//! Acts at one place of a list: a site that is handed something, a client that is told an answer.
ghost use Rattle.std.specs.Prelude.{ℕ, ◌≡◌, ◌≤◌, ◌<◌, true, drop, length, set, slice_get, Some, IfOk, OnErr, IsOk};
ghost use Rattle.sat_label.specs.declared.label.Label.{Label as LabelSeen};
ghost use Rattle.sat_label.specs.Members.{In};
ghost use Rattle.sat_client.specs.declared.client.Client.{Client as ClientSeen};
ghost use Rattle.sat_client.specs.Clients.{after_leave};
ghost use Rattle.sat_site.specs.Seen.{SiteSeen, IsSite};
ghost use Rattle.sat_site.specs.Inputs.{fits_in, takes_none, BulksFit, IsFront};
ghost use Rattle.sat_sink.specs.Sink.{ready_of};
ghost use Rattle.sat_world.specs.Steps.{BulksAt, StepsAt, TurnsAt, told, joined, IsNumber, MayTell};

use sat_act::Answer;
use sat_bulk::Payload;
use sat_client::Client;
use sat_label::{Carried, Items, Label, Value};
use sat_queue::Queue;
use sat_site::{Site, SiteInput};
use std::alloc::AllocError;

/// What is true of a site.
pub fn sound(site: &Site)
    ensures { IsSite site.now }
{
    let _ = site.view();
}

/// Hands a site something that fits, and tells its answer. For want of memory the sites are as before.
pub fn step_at(sites: &mut Vec<Site>, place: u16, input: SiteInput) -> Result<Answer, AllocError>
    requires within { place < length sites.old.items }
    requires fits { (x : SiteSeen) → slice_get sites.old.items place ≡ Some x → IsSite x → fits_in x input ≡ true }
    ensures ok { IfOk result (λ answer. StepsAt sites.old.items place input answer sites.new.items) }
    ensures spare { takes_none input ≡ true → IsOk result }
    ensures err { OnErr result (sites.new.items ≡ sites.old.items) }
{
    let site = &mut sites[place as usize];
    sound(site);
    let answer = site.act(input)?;
    Ok(answer)
}

/// Raises the promise of a gear of a site, and tells it.
pub fn tick_at(sites: &mut Vec<Site>, place: u16, gear: u16, ts: u64) -> Answer
    requires within { place < length sites.old.items }
    requires fits { (x : SiteSeen) → slice_get sites.old.items place ≡ Some x → IsSite x
        → fits_in x (SiteInput.Tick gear ts) ≡ true }
    ensures { StepsAt sites.old.items place (SiteInput.Tick gear ts) result sites.new.items }
{
    let site = &mut sites[place as usize];
    sound(site);
    Answer::Ticked(site.tick(gear, ts))
}

/// Hands a site a client's write of items, each with its value. For want of memory the sites are as before.
pub fn write_at(
    sites: &mut Vec<Site>,
    place: u16,
    carried: Carried,
    items: Items,
    values: &[Value],
) -> Result<Answer, AllocError>
    requires within { place < length sites.old.items }
    requires fits { (x : SiteSeen) → slice_get sites.old.items place ≡ Some x → IsSite x
        → fits_in x (SiteInput.Write carried items values.now) ≡ true }
    ensures ok { IfOk result
        (λ answer. StepsAt sites.old.items place (SiteInput.Write carried items values.now) answer sites.new.items) }
    ensures err { OnErr result (sites.new.items ≡ sites.old.items) }
{
    let site = &mut sites[place as usize];
    sound(site);
    let answer = site.write(carried, items, values)?;
    Ok(answer)
}

/// Lets a site emit the label that it has for that.
pub fn emit_at(sites: &mut Vec<Site>, place: u16, label: Label) -> Answer
    requires within { place < length sites.old.items }
    requires fits { (x : SiteSeen) → slice_get sites.old.items place ≡ Some x → IsSite x
        → fits_in x SiteInput.Emit ≡ true }
    requires next { (x : SiteSeen) → slice_get sites.old.items place ≡ Some x → ready_of x.sink ≡ Some label }
    ensures { StepsAt sites.old.items place SiteInput.Emit result sites.new.items }
{
    let site = &mut sites[place as usize];
    sound(site);
    site.emit_known(label)
}

/// Lets a site gather. For want of memory the sites are as before.
pub fn gather_at(sites: &mut Vec<Site>, place: u16) -> Result<Answer, AllocError>
    requires within { place < length sites.old.items }
    requires fits { (x : SiteSeen) → slice_get sites.old.items place ≡ Some x → IsSite x
        → fits_in x SiteInput.Gather ≡ true }
    ensures ok { IfOk result (λ answer. StepsAt sites.old.items place SiteInput.Gather answer sites.new.items) }
    ensures err { OnErr result (sites.new.items ≡ sites.old.items) }
{
    let site = &mut sites[place as usize];
    sound(site);
    let answer = site.gather()?;
    Ok(answer)
}

/// Lets a site pulse.
pub fn pulse_at(sites: &mut Vec<Site>, place: u16) -> Answer
    requires within { place < length sites.old.items }
    requires fits { (x : SiteSeen) → slice_get sites.old.items place ≡ Some x → IsSite x
        → fits_in x SiteInput.Pulse ≡ true }
    ensures { StepsAt sites.old.items place SiteInput.Pulse result sites.new.items }
{
    let site = &mut sites[place as usize];
    sound(site);
    site.pulse()
}

/// Hands a site the front of the link to it.
pub fn turn_at(sites: &mut Vec<Site>, place: u16, front: Option<Label>) -> Answer
    requires within { place < length sites.old.items }
    requires fits { (x : SiteSeen) → slice_get sites.old.items place ≡ Some x → IsSite x
        → fits_in x (SiteInput.Turn front) ≡ true }
    ensures { StepsAt sites.old.items place (SiteInput.Turn front) result sites.new.items }
{
    let site = &mut sites[place as usize];
    sound(site);
    site.turn(front)
}

/// Hands a site the labels of the link to it, one after another, until it turns no more: how many it turned, and how
/// many of them showed an update.
pub fn turn_all_at(sites: &mut Vec<Site>, place: u16, labels: &mut Queue<Label>) -> (u64, u64)
    requires within { place < length sites.old.items }
    requires fronts { (x : SiteSeen) → slice_get sites.old.items place ≡ Some x → IsSite x
        → (l : LabelSeen) → In labels.old.members l → IsFront x l }
    ensures turns { TurnsAt sites.old.items place labels.old.members result.0 result.1 sites.new.items }
    ensures left { labels.new.members ≡ drop result.0 labels.old.members }
{
    let site = &mut sites[place as usize];
    sound(site);
    site.turn_all(labels)
}

/// Hands a site a payload. For want of memory the sites are as before.
pub fn bulk_at(
    sites: &mut Vec<Site>,
    place: u16,
    from: u16,
    gear: u16,
    number: u64,
    payload: Payload,
) -> Result<Answer, AllocError>
    requires within { place < length sites.old.items }
    requires fits { (x : SiteSeen) → slice_get sites.old.items place ≡ Some x → IsSite x
        → fits_in x (SiteInput.Bulk from gear number payload) ≡ true }
    ensures ok { IfOk result
        (λ answer. StepsAt sites.old.items place (SiteInput.Bulk from gear number payload) answer sites.new.items) }
    ensures err { OnErr result (sites.new.items ≡ sites.old.items) }
{
    let site = &mut sites[place as usize];
    sound(site);
    let answer = site.bulk(from, gear, number, payload)?;
    Ok(answer)
}

/// Hands a site payloads of a lane, with the numbers from `first` on, one after another: how many it took. They are
/// all, or those before the first that is not the next of the lane or for which there was no memory.
pub fn bulk_all_at(
    sites: &mut Vec<Site>,
    place: u16,
    from: u16,
    gear: u16,
    first: u64,
    payloads: Vec<Payload>,
) -> usize
    requires within { place < length sites.old.items }
    requires fits { (x : SiteSeen) → slice_get sites.old.items place ≡ Some x → IsSite x
        → BulksFit x from gear first payloads.items }
    ensures count { result ≤ length payloads.items }
    ensures bulks { BulksAt sites.old.items place from gear first payloads.items result sites.new.items }
{
    let site = &mut sites[place as usize];
    sound(site);
    site.bulk_all(from, gear, first, payloads)
}

/// The number of a payload at its receiver: the one that is asked for, or else that of the next of its lane.
pub fn payload_number(receiver: &Site, from: u16, gear: u16, asked: Option<u64>) -> u64
    requires from { from < receiver.now.shape.sites }
    requires gear { gear < receiver.now.shape.gears }
    ensures number { IsNumber receiver.now from gear asked result }
{
    match asked {
        Some(number) => number,
        None => receiver.front(from, gear),
    }
}

fn tell(client: &mut Client, answer: &Answer)
    requires { MayTell answer.now client.old }
    ensures { client.new ≡ told answer.now client.old }
{
    match answer {
        Answer::Wrote(label) => client.observe(label.point),
        Answer::ReadSome { label, .. } => client.observe(label.point),
        Answer::Moved(label) => client.moved(*label),
        _ => {}
    }
}

/// Tells a client the answer to its write, read or move.
pub fn tell_at(clients: &mut Vec<Client>, place: u16, answer: &Answer)
    requires within { place < length clients.old.items }
    requires may { (x : ClientSeen) → slice_get clients.old.items place ≡ Some x → MayTell answer.now x }
    ensures { (x : ClientSeen) → slice_get clients.old.items place ≡ Some x
        → clients.new.items ≡ set clients.old.items place (told answer.now x) }
{
    tell(&mut clients[place as usize], answer);
}

fn join(client: &mut Client, site: u16, answer: &Answer)
    ensures { client.new ≡ joined answer.now site client.old }
{
    match answer {
        Answer::Attached => client.joined(site),
        _ => {}
    }
}

/// Seats a client at a site, where the site let it attach.
pub fn join_at(clients: &mut Vec<Client>, place: u16, site: u16, answer: &Answer)
    requires { place < length clients.old.items }
    ensures { (x : ClientSeen) → slice_get clients.old.items place ≡ Some x
        → clients.new.items ≡ set clients.old.items place (joined answer.now site x) }
{
    join(&mut clients[place as usize], site, answer);
}

/// Takes a client's seat away.
pub fn leave_at(clients: &mut Vec<Client>, place: u16)
    requires { place < length clients.old.items }
    ensures { (x : ClientSeen) → slice_get clients.old.items place ≡ Some x
        → clients.new.items ≡ set clients.old.items place (after_leave x) }
{
    clients[place as usize].left();
}

//! What stays where it is to the end.
ghost use Rattle.std.specs.Prelude.{◌≡◌, ◌≤◌, ◌++◌, ◌^◌, length, OnOk, IfOk};
ghost use Rattle.sat_act.specs.Parts.{home};
ghost use Rattle.sat_draw.specs.Columns.{rows_top};
ghost use Rattle.sat_draw.specs.Rows.{top_of, first_spot, begin};
ghost use Rattle.sat_draw.specs.Rests.{rest, client_rest, client_rests, site_rest, site_rests, rests_by};
ghost use Rattle.sat_draw.specs.Tracks.{seat_by, spot_by};

use crate::columns::{column_x, rows_top, site_column};
use crate::element::{Element, Ink, Spot};
use crate::geometry::ABOVE;
use crate::tracks::{Tracks, home, seat_by, spot_by};
use crate::trail::{SEATED, Trail, client_at, closing, viewing};
use sat_act::Deployment;
use std::alloc::{AllocError, Global};
use std::collections::BTreeMap;

fn top_of(d: &Deployment, seat: Option<u16>) -> Option<Spot>
    ensures { result ≡ top_of d.now seat }
{
    match seat {
        None => None,
        Some(site) => Some(Spot {
            x: column_x(site_column(d, site)),
            y: rows_top(d) - ABOVE,
        }),
    }
}

// Where a trail begins that no entry left.
#[tactic(auto, unfolding(crate::specs::Rows::first_spot))]
fn first_spot(d: &Deployment, trail: Trail) -> Option<Spot>
    ensures { result ≡ first_spot d.now trail }
{
    if trail.stop == SEATED {
        top_of(d, home(d, trail.ts))
    } else {
        None
    }
}

/// Where a trail was left last, or begins.
pub(crate) fn begin(d: &Deployment, spots: &BTreeMap<Trail, Spot>, trail: Trail) -> Option<Spot>
    ensures { result ≡ begin d.now (spot_by spots.now) trail }
{
    match spot_by(spots, trail) {
        None => first_spot(d, trail),
        Some(there) => Some(there),
    }
}

fn push_rest(
    ink: Ink,
    trail: Trail,
    y: u64,
    there: Option<Spot>,
    out: &mut Vec<Element>,
) -> Result<(), AllocError>
    ensures { OnOk result (out.new.items ≡ out.old.items ++ rest ink trail y there) }
{
    match there {
        None => Ok(()),
        Some(there) => {
            out.push(Element::Rest {
                ink,
                trail,
                from: there,
                to: Spot { x: there.x, y },
            })?;
            Ok(())
        }
    }
}

fn push_client(
    d: &Deployment,
    spots: &BTreeMap<Trail, Spot>,
    y: u64,
    client: u16,
    seat: Option<u16>,
    out: &mut Vec<Element>,
) -> Result<(), AllocError>
    ensures { OnOk result (out.new.items ≡ out.old.items
        ++ client_rest (begin d.now (spot_by spots.now)) y client seat) }
{
    match seat {
        None => Ok(()),
        Some(_) => {
            let trail = client_at(SEATED, client);
            push_rest(Ink::Seat, trail, y, begin(d, spots, trail), out)
        }
    }
}

// The clients at their seats.
fn push_clients(
    d: &Deployment,
    tracks: &Tracks,
    y: u64,
    count: u16,
    out: &mut Vec<Element>,
) -> Result<(), AllocError>
    ensures { OnOk result (out.new.items ≡ out.old.items
        ++ client_rests (seat_by d.now tracks.now.seats) (begin d.now (spot_by tracks.now.spots)) y count) }
{
    for client in 0..count {
        let seat = seat_by(d, &tracks.seats, client);
        push_client(d, &tracks.spots, y, client, seat, out)?;
    }
    Ok(())
}

fn push_site(
    under_way: &BTreeMap<Trail, Spot>,
    y: u64,
    site: u16,
    out: &mut Vec<Element>,
) -> Result<(), AllocError>
    ensures { OnOk result (out.new.items ≡ out.old.items ++ site_rest (spot_by under_way.now) y site) }
{
    let closed = closing(site);
    push_rest(Ink::Switch, closed, y, spot_by(under_way, closed), out)?;
    let advanced = viewing(site);
    push_rest(Ink::View, advanced, y, spot_by(under_way, advanced), out)
}

// The sites that have closed or advanced.
fn push_sites(
    under_way: &BTreeMap<Trail, Spot>,
    y: u64,
    count: u16,
    out: &mut Vec<Element>,
) -> Result<(), AllocError>
    ensures { OnOk result (out.new.items ≡ out.old.items ++ site_rests (spot_by under_way.now) y count) }
{
    for site in 0..count {
        push_site(under_way, y, site, out)?;
    }
    Ok(())
}

/// All of these, down to y.
pub(crate) fn rests(
    alloc: Global,
    d: &Deployment,
    tracks: &Tracks,
    y: u64,
) -> Result<Vec<Element>, AllocError>
    ensures { IfOk result (λ all. all.items ≡ rests_by d.now (seat_by d.now tracks.now.seats) (spot_by tracks.now.spots)
        (spot_by tracks.now.under_way) y) }
{
    let mut all = Vec::new(alloc);
    let clients = d.clients();
    push_clients(d, tracks, y, clients.len() as u16, &mut all)?;
    push_sites(&tracks.under_way, y, d.sites(), &mut all)?;
    Ok(all)
}

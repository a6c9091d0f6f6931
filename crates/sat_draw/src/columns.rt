//! Where the columns and the rows of a drawing stand.
ghost use Rattle.std.specs.Prelude.{◌≡◌, ◌≤◌, ◌*◌, ◌+◌, length, take, ℕ, Option};
ghost use Rattle.sat_act.specs.Limits.{IsDeployment};
ghost use Rattle.sat_draw.specs.Columns.{serializers_of, serializers_in, left_sites, site_column, serializer_column};
ghost use Rattle.sat_draw.specs.Columns.{columns, seat_column, column_x, answers_x, plan_height, plans_height};
ghost use Rattle.sat_draw.specs.Columns.{rows_top, row_y};

use crate::geometry::{ANSWERS, COLUMN, FIRST_COLUMN, NAMES, OUTSIDE, STEP, TREE_MARGINS, TREES};
use sat_act::{Deployment, Plan};

/// How many serializers a plan has.
pub(crate) fn serializers_of(plan: &Plan) -> u16
    ensures { result ≡ serializers_of plan.now }
{
    match plan {
        Plan::Stamp => 0,
        Plan::Tree(tree) => tree.serializers(),
    }
}

// Those of some plans.
fn serializers_in(plans: &[Plan]) -> u64
    requires { length plans.now ≤ 16 }
    ensures sum { result ≡ serializers_in plans.now }
    ensures few { result ≤ length plans.now * 65535 }
{
    let Some((first, rest)) = plans.split_first() else {
        return 0;
    };
    u64::from(serializers_of(first)) + serializers_in(rest)
}

// How many sites stand left of the serializers.
fn left_sites(d: &Deployment) -> u16
    ensures { result ≡ left_sites d.now }
{
    (d.sites() + 1) / 2
}

/// The column of a site.
pub(crate) fn site_column(d: &Deployment, site: u16) -> u64
    ensures column { result ≡ site_column d.now site }
    ensures small { result ≤ 2000000 }
{
    if d.sites() <= site {
        0
    } else if site < left_sites(d) {
        u64::from(site) + 1
    } else {
        serializers_in(d.plans()) + u64::from(site) + 1
    }
}

/// The column of a serializer of an epoch's tree.
pub(crate) fn serializer_column(d: &Deployment, epoch: u16, z: u16) -> u64
    ensures column { result ≡ serializer_column d.now epoch z }
    ensures small { result ≤ 2000000 }
{
    if epoch == 0 {
        return 0;
    }
    let before = epoch as usize - 1;
    let plans = d.plans();
    let Some(plan) = plans.get(before) else {
        return 0;
    };
    if z < serializers_of(plan) {
        u64::from(left_sites(d)) + serializers_in(&plans[..before]) + u64::from(z) + 1
    } else {
        0
    }
}

/// How many columns there are.
pub(crate) fn columns(d: &Deployment) -> u64
    ensures columns { result ≡ columns d.now }
    ensures small { result ≤ 2000000 }
{
    u64::from(d.sites()) + serializers_in(d.plans()) + 1
}

/// The column of a client's seat.
pub(crate) fn seat_column(d: &Deployment, seat: Option<u16>) -> u64
    ensures column { result ≡ seat_column d.now seat }
    ensures small { result ≤ 2000000 }
{
    match seat {
        None => 0,
        Some(site) => site_column(d, site),
    }
}

/// How far from the left a column stands.
pub(crate) fn column_x(column: u64) -> u64
    requires { column ≤ 2000000 }
    ensures x { result ≡ column_x column }
    ensures right { 100 ≤ result }
    ensures small { result ≤ 400000000 }
{
    if column == 0 {
        OUTSIDE
    } else {
        FIRST_COLUMN + (column - 1) * COLUMN
    }
}

/// Where the answers stand: right of the last column.
pub(crate) fn answers_x(d: &Deployment) -> u64
    ensures x { result ≡ answers_x d.now }
    ensures small { result ≤ 500000000 }
{
    column_x(columns(d) - 1) + ANSWERS
}

/// What a plan's tree takes from the top to the bottom.
pub(crate) fn plan_height(plan: &Plan) -> u64
    ensures height { result ≡ plan_height plan.now }
    ensures small { result ≤ 2000000 }
{
    u64::from(serializers_of(plan)) * STEP + TREE_MARGINS
}

fn plans_height(plans: &[Plan]) -> u64
    requires { length plans.now ≤ 16 }
    ensures sum { result ≡ plans_height plans.now }
    ensures small { result ≤ length plans.now * 2000000 }
{
    let Some((first, rest)) = plans.split_first() else {
        return 0;
    };
    plan_height(first) + plans_height(rest)
}

/// Where the rows begin.
pub(crate) fn rows_top(d: &Deployment) -> u64
    ensures top { result ≡ rows_top d.now }
    ensures small { result ≤ 40000000 }
{
    TREES + plans_height(d.plans()) + NAMES
}

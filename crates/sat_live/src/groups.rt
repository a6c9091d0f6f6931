//! Writes of several items that have a line under a deployment's header.
ghost use Rattle.std.specs.Prelude.{◌≡◌, true, nat_lt, length};
ghost use Rattle.std.specs.List.{AllByRecursion, list_all};
ghost use Rattle.sat_label.specs.Grouped.{list_of};
ghost use Rattle.sat_act.specs.Ranges.{IsGroupOf};
ghost use Rattle.sat_live.specs.Naming.{IsSpelled};

use sat_act::Deployment;
use sat_label::{Items, Value, Values, limits_of};

// Tells the prover what the type of each value keeps; it does nothing else when it runs.
#[tactic(auto, using(crate::proofs::Members::all_next, crate::proofs::Members::all_whole))]
fn are_spelled(values: &[Value])
    ensures { AllByRecursion IsSpelled values.now }
{
    'values: for value in values {
        let _ = value.bytes();
    }
}

// Whether each of these is below a number of items.
fn are_known(count: usize, items: &Items) -> bool
    ensures { result ≡ list_all (λ x. nat_lt x count) (list_of items.now) }
{
    match *items {
        Items::One(a) => usize::from(a) < count,
        Items::Two(a, b) => usize::from(a) < count && usize::from(b) < count,
        Items::Three(a, b, c) => {
            usize::from(a) < count && usize::from(b) < count && usize::from(c) < count
        }
        Items::Four(a, b, c, d) => {
            usize::from(a) < count
                && usize::from(b) < count
                && usize::from(c) < count
                && usize::from(d) < count
        }
    }
}

/// Whether these items are a group of the deployment's, with a value for each.
#[tactic(auto, using(crate::proofs::Grouping::all_spelled))]
pub(crate) fn is_group(d: &Deployment, items: &Items, values: &Values) -> bool
    ensures { result ≡ true → IsGroupOf d.now items.now values.now }
{
    let values = values.as_slice();
    are_spelled(values);
    items.len() >= 2
        && items.len() <= limits_of(d.format()).written
        && items.ascend()
        && are_known(d.items().len(), items)
        && values.len() == items.len()
}

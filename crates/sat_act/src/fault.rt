//! Why a header is no deployment.
use thiserror::Error;

/// Why a deployment was not made. Places count from 0.
#[derive(Clone, Copy, Debug, PartialEq, Eq, Drop, Error)]
pub enum DeploymentFault {
    /// A part of a wrong size: 5 for the format, 1 or 2, 0 for the sites, 1 to 16 or to 64 in format 2, 1 for the
    /// gears, 1 to 8, 2 for the items, at most 4,096 or 65,535 in format 2, 3 for the clients, at most 1,024, or 4 for
    /// the plans, 1 to 16.
    #[error("part {0} of the deployment is outside its limit")]
    Size(u16),
    /// The item at this place is kept nowhere or outside the sites, or has an earlier item's name.
    #[error("item {0} is wrong")]
    BadItem(u16),
    /// The client at this place has a site that is none, or has an earlier client's name.
    #[error("client {0} is wrong")]
    BadClient(u16),
    /// The tree at this place has not as many seats as there are sites.
    #[error("plan {0} is wrong")]
    BadPlan(u16),
    /// There was no memory for the checks.
    #[error("out of memory")]
    Memory,
}

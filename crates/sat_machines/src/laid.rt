//! The deployment that nodes are made for.
use std::marker::Brand;

/// Names a deployment, of which all values of a generic type are.
pub trait Laid {
    ghost use Rattle.sat_act.specs.Deployed.{Deployed};

    ghost deployment: { Deployed };
}

impl Laid for Brand {
    ghost use Rattle.std.specs.Prelude.{[]};

    ghost deployment = { record { format = 1; sites = 0; gears = 0; items = []; clients = []; plans = [] } };
}

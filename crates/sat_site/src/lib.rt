//! A site: one machine without the past, which answers each act by what it keeps (Bravo, Rodrigues and Van Roy, EuroSys
//! 2017).
#![tactic(auto)]

ghost use Rattle.sat_site.specs.Laws.{EachClock, EachFits, EachStep};

mod gears;
mod input;
mod output;
mod shape;
mod site;
mod turning;

pub use input::SiteInput;
pub use output::{SiteOutput, SiteView};
pub use shape::interest;
pub use site::Site;

/// Of all that a site keeps and all that it is handed: a site answers as the machine of the model does at each state
/// that it stands for, and then stands for what the machine makes of that state; so does a tick of each gear; and what
/// it asks of an input is what the machine asks, and that its numbers have their sizes.
pub fn site_laws()
    ensures steps { EachStep }
    ensures clocks { EachClock }
    ensures fits { EachFits }
{
    // These bring their laws into the proof; they do nothing when they run.
    sat_gear::lane_laws();
    sat_proxy::proxy_laws();
}

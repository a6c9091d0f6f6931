//! The hub and the gears of a site as machines of running nodes, each under a lock of its own.
#![tactic(auto)]

ghost use Rattle.sat_parts.specs.Lines.{GearsKeep, HubsKeep};
ghost use Rattle.sat_parts.specs.Locals.{GathersAreLocal, PartsAreLocal};

mod drains;
mod gear_act;
mod gear_answer;
mod gear_input;
mod gear_node;
mod gear_step;
mod hub_act;
mod hub_answer;
mod hub_input;
mod hub_node;
mod hub_step;
mod shows;

pub use drains::Drains;
pub use gear_act::GearAct;
pub use gear_answer::GearAnswer;
pub use gear_input::{GearInput, ShownBy};
pub use gear_node::GearNode;
pub use hub_act::HubAct;
pub use hub_answer::HubAnswer;
pub use hub_input::HubInput;
pub use hub_node::HubNode;

/// A journal that a hub's node keeps is one of the model's machine of a hub, and so is that of a gear's node: each
/// input fits, each answer is the machine's, and a gear gives to a gather what is its own. The node's state is what
/// its lines make.
pub fn part_journals()
    ensures hubs { HubsKeep }
    ensures gears { GearsKeep }
{}

/// A gear's part of another node's act, and a hub's gather, take nothing from a link and have an answer that stands, as
/// `take_all` of `sat_node` asks.
pub fn part_inputs()
    ensures parts { PartsAreLocal }
    ensures gathers { GathersAreLocal }
{}

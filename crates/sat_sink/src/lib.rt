//! The label sink of a site: it takes the labels of the gears in, and sends them on in label order (Bravo, Rodrigues
//! and Van Roy, EuroSys 2017). A label may leave once every gear has promised to make none below it.
#![tactic(auto)]

mod given;
mod queue;
mod sink;

pub use sink::LabelSink;

//! Scripts for serializers that are chains of replicas: what each line says, and what a whole text is.
#![tactic(auto)]

mod form;
mod law;
mod line;
mod quick;
mod step;

pub use form::{ChainForm, chain_form};
pub use law::good_chain_texts;
pub use line::{ChainParsed, chain_line};
pub use quick::good_chain_act;

//! Scripts for sites that last: what each line says, what a whole text is, and what is made of it line by line.
#![tactic(auto)]

mod form;
mod law;
mod line;
mod step;

pub use form::{LastingForm, lasting_form};
pub use law::{good_lasting_texts, lasting_lines_make_texts};
pub use line::lasting_line;
pub use sat_own_acts::OwnParsed;

//! Scripts: a reader of lines that says exactly what is wrong and where, and the one spelling of each script.
#![tactic(auto)]

mod act_lines;
mod dialect;
mod fault;
mod form;
mod header;
mod header_lines;
mod limits;
mod line;
mod list;
mod names;
mod nodes;
mod number;
mod place;
mod reader;
mod said;
mod words;
mod write;
mod write_lines;

pub use act_lines::has_shape;
pub use dialect::{Dialect, Limits};
pub use fault::{Cause, ScriptFault};
pub use form::{Form, Kind, act_forms, allows, found_form, kinds_of};
pub use limits::{
    AUDIT_ACTS, LAST_FORMAT, LIVE_ACTS, LIVE_CLIENTS, LIVE_SITES, LONGEST_LINE, MOST_ACTS,
    MOST_CLIENTS, MOST_GEARS, MOST_ITEMS, MOST_PLANS, MOST_SETTLES, MOST_SITES,
};
pub use line::{Line, Parsed};
pub use number::number_up_to;
pub use reader::Reader;
pub use said::{Args, Said};
pub use words::{FirstWords, SHORT_LINE, blanks, first_words, four_words, three_words};
pub use write::write_script;
pub use write_lines::act_line;

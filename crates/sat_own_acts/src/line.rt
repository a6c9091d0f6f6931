//! What a line says.
use sat_script::Parsed;

/// What a good line says.
#[derive(Drop)]
pub enum OwnParsed<A: Drop> {
    /// What a line of any script says.
    Plain(Parsed),
    /// An act of the command's own.
    Own(A),
}

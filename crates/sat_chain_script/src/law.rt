//! What is read of any text with chains.
ghost use Rattle.sat_chain_script.specs.Laws.{EveryChainTextIsGood};

use sat_chain_laws::chains_are_good;

/// What is read of any text with chains, also of one with a fault, is a deployment within its limits and acts of it,
/// and the history of these acts is good: each living replica's list begins with that of each later one, a new tail can
/// tell how much took effect, and the answers of plain acts and of done applies are those of a run for which all holds
/// that holds of every run.
pub fn good_chain_texts()
    ensures { EveryChainTextIsGood }
{
    // Brings this law into the proof; it does nothing when it runs.
    chains_are_good();
}

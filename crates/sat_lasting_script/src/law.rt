//! What is read of any text, and what is made of it.
ghost use Rattle.sat_lasting_script.specs.Laws.{EveryLastingTextIsGood, LinesMakeTexts};

use sat_lasting_laws::lastings_are_good;

/// What is read of any text for sites that last, also of one with a fault, is a deployment within its limits and acts
/// of it, and the history of these acts is good: its plain answers, and those behind a stop, are those of the run of
/// the kept acts, for which all holds that holds of every run.
pub fn good_lasting_texts()
    ensures { EveryLastingTextIsGood }
{
    // Brings this law into the proof; it does nothing when it runs.
    lastings_are_good();
}

/// What is made of a text line by line is what is made of the whole: the answers of the acts before the first bad line,
/// in their one history, and behind them what stands at the end, or that line's fault.
pub fn lasting_lines_make_texts()
    ensures { LinesMakeTexts }
{}

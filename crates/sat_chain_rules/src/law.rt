//! Lines and texts.
ghost use Rattle.sat_chain_rules.specs.Laws.{LinesMakeTexts};

/// What is made of a text with chains line by line is what is made of the whole: the answers of the acts before the
/// first bad line, in their one history, and behind them what stands at the end, or that line's fault.
pub fn chain_lines_make_texts()
    ensures { LinesMakeTexts }
{}

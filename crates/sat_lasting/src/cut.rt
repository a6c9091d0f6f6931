//! A cut that waits at a site.
ghost use Rattle.std.specs.Prelude.{◌≡◌};
ghost use Rattle.sat_lasting_laws.specs.Lastings.{keeps_input};
ghost use Rattle.sat_lasting.specs.Cuts.{cut_seen};

use sat_lasting_laws::MOST_CALLS;

/// So many calls of a disk pass, and the next one fails; and whether what wasn't synced is still there afterwards.
#[derive(Clone, Copy)]
pub(crate) struct Cut {
    pub(crate) calls: u64,
    pub(crate) keep: bool,
}

impl Cut {
    /// Whether an input into which the cut falls is there afterwards.
    pub(crate) fn keeps_input(&self) -> bool
        ensures { result ≡ keeps_input (cut_seen self.now) }
    {
        self.calls == MOST_CALLS && self.keep
    }
}

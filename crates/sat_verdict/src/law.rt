//! Pasts are prefixes of what each client wrote and read, and a history has one verdict.
ghost use Rattle.sat_verdict.specs.Laws.{CountsTellPasts, NosAreTrue, VerdictsAreFound, VerdictsAreUnique};

/// What a client or a point's maker knows is, of each client, what its first entries wrote and read, up to a count.
pub fn counts_tell_pasts()
    ensures { CountsTellPasts }
{}

/// The verdicts on a history are found by tests and one count a client.
pub fn verdicts_are_found()
    ensures { VerdictsAreFound }
{}

/// Where a verdict names entries its law does not hold, so each part is `None` exactly where its law holds.
pub fn nos_are_true()
    ensures { NosAreTrue }
{}

/// Two verdicts on one history are the same.
pub fn verdicts_are_unique()
    ensures { VerdictsAreUnique }
{}

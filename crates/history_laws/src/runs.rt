//! What holds of the histories of runs. This function does nothing.
ghost use Rattle.history_laws.specs.Runs.{CallersLaw, RunLaw};

use crate::laws::chain_law;

/// The history of a run is one of answered exchanges, so all that `chain_law` says holds of it: each entry that is not tainted has
/// its chain, lists the services of its user's line, and goes back to a root with one user; the ticket of each entry opens to its
/// record; and an exchange is an entry exactly where no rule denies its request. It is so whatever the batches of changes, the
/// moments and the callers are, where the run begins with a directory, and the listed blocks of random octets and the callers' bytes
/// are octets.
///
/// That history is the exchanges of one caller after the other, each caller's from the directory, the batches, the moments and the
/// blocks that the callers before it leave.
pub fn runs_keep_chains()
    ensures chains { RunLaw }
    ensures callers { CallersLaw }
{
    chain_law();
}

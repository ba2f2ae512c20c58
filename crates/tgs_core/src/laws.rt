//! What holds of grants.
ghost use Rattle.tgs_core.specs.Laws.{GrantsAreGiven, GrantsAreSound};

/// A ticket can be made of the record of each grant: of what a directory gives to a request of bytes that no rule denies, at
/// a moment, with a random block of 64 bytes. Where no rule denies a request, something is granted to it.
pub fn grants_keep_laws()
    ensures sound { GrantsAreSound }
    ensures given { GrantsAreGiven }
{}

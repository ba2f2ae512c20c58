//! What holds of signed PACs.

ghost use Rattle.pac_sign.specs.Laws.{SignedIsSound, OthersStay, SignedVerifies, BuiltVerifies};

/// What was signed is a PAC with the same other buffers, and verifies.
pub fn signatures_keep_laws()
    ensures ok { SignedIsSound }
    ensures unchanged { OthersStay }
    // A PAC whose signatures are of the types of two keys, with a ticket signature where a part is given.
    ensures value { SignedVerifies }
    // A PAC that was built for these keys.
    ensures built { BuiltVerifies }
{}

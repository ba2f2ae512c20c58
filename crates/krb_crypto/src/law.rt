//! What holds of encryption whatever the key.

ghost use Rattle.krb_crypto.specs.Laws.{CtsUndoes, CtsRedoes, CtsKeepsLength, OpensOnce, OpenedOpens};

/// Encryption with ciphertext stealing is a bijection on the texts of each length from 16 on.
pub fn cts_law()
    ensures undoes { CtsUndoes }
    ensures redoes { CtsRedoes }
    ensures unchanged { CtsKeepsLength }
{}

/// A sealed message opens to itself alone.
pub fn open_law()
    ensures only { OpensOnce }
    ensures exact { OpenedOpens }
{}

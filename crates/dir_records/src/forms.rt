//! The forms of a directory's members.
ghost use Rattle.std.specs.Prelude.{◌≡◌, IfOk, nat_eq, codes};
ghost use Rattle.std.specs.List.{list_all, starts_with};
ghost use Rattle.krb_names.specs.Keys.{is_padded};
ghost use Rattle.krb_names.specs.Pieces.{is_name};
ghost use Rattle.dir_records.specs.Forms.{is_account_name, is_key, is_positive, is_service_name};

use crate::records::KeyRec;
use krb_names::{Etype, Key, NameRefusal, Text, is_name_text, parse_spn};
use std::alloc::{AllocError, Global};

/// Whether a text may be an account's name: one name text other than `krbtgt`.
pub fn is_account_name(name: &str) -> bool
    ensures { result ≡ is_account_name name.now }
{
    is_name_text(name) && name != "krbtgt"
}

/// Whether a number is other than 0.
pub(crate) fn is_positive(number: u32) -> bool
    ensures { result ≡ is_positive number }
{
    number > 0
}

/// Whether a key has a version and zeros behind its octets.
pub(crate) fn is_key(key: KeyRec) -> bool
    ensures { result ≡ is_key key }
{
    is_positive(key.version) && is_padded(&key.key)
}

fn is_padded(key: &Key) -> bool
    ensures { result ≡ is_padded key.now }
{
    match key.etype {
        Etype::Aes128 => key.raw[16..] == [0; 16],
        Etype::Aes256 => true,
    }
}

/// Whether all these texts are names of services that an account may have.
pub(crate) fn are_services(alloc: Global, spns: &[Text]) -> Result<bool, AllocError>
    ensures { IfOk result (λ test. test ≡ list_all is_service_name spns.now) }
{
    for spn in spns {
        if !is_service_name(alloc, spn.as_str())? {
            return Ok(false);
        }
    }
    Ok(true)
}

/// Whether a text is the name of a service that an account may have: two or three name texts joined by `/`, the first
/// not `krbtgt`.
pub fn is_service_name(alloc: Global, spn: &str) -> Result<bool, AllocError>
    ensures { IfOk result (λ test. test ≡ is_service_name spn.now) }
{
    match parse_spn(alloc, spn) {
        Ok(_) => Ok(!begins_with_krbtgt(spn)),
        Err(NameRefusal::NoMemory) => Err(AllocError),
        Err(_) => Ok(false),
    }
}

fn begins_with_krbtgt(spn: &str) -> bool
    ensures { result ≡ starts_with nat_eq spn.now (codes "krbtgt/") }
{
    spn.starts_with("krbtgt/")
}

/// Whether all these texts may stand in a name.
pub(crate) fn are_names(texts: &[Text]) -> bool
    ensures { result ≡ list_all is_name texts.now }
{
    for text in texts {
        if !is_name_text(text.as_str()) {
            return false;
        }
    }
    true
}

//! Realm (RFC 4120, section 5.2.2): `Realm ::= KerberosString`.
ghost use Rattle.std.specs.Prelude.{◌≡◌, Ok, IfOk, true};
ghost use Rattle.krb_names.specs.Pieces.{is_name};

use crate::form::Form;
use crate::read_fault::ReadFault;
use der_core::{DerCause, Reader, Writer};
use krb_names::{Realm, is_name_text, parse_realm};
use std::alloc::{AllocError, Global};

impl Form for Realm {
    ghost use Rattle.der_forms.specs.Names.{realm};
    ghost use Rattle.der_forms.specs.NameLaws.{realm_lawful};

    ghost codec = { realm };

    fn read_from(alloc: Global, from: &mut Reader) -> Result<Realm, ReadFault> {
        let content = from.take(0x1b)?;
        let text = content.content_text()?;
        if !is_name_text(text) {
            return Err(ReadFault::Refused(content.refusal(DerCause::BadText)));
        }
        Ok(realm_of_name(alloc, text)?)
    }

    fn write_to(&self, to: &mut Writer) -> Result<(), AllocError> {
        to.text(self.as_str())
    }

    ghost lawful = { realm_lawful };
}

/// The realm of a name text.
#[tactic(auto, using(crate::specs::NameLaws::realm_of_name))]
fn realm_of_name(alloc: Global, text: &str) -> Result<Realm, AllocError>
    requires { is_name text.now ≡ true }
    ensures { IfOk result (λ realm. realm ≡ text.now) }
{
    match parse_realm(alloc, text) {
        Ok(realm) => Ok(realm),
        Err(_) => Err(AllocError),
    }
}

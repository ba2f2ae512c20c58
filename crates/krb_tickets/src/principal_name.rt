//! PrincipalName (RFC 4120, section 5.2.2):
//! ```text
//! PrincipalName ::= SEQUENCE {
//!     name-type   [0] Int32,
//!     name-string [1] SEQUENCE OF KerberosString    -- 1 to 8
//! }
//! ```
ghost use Rattle.std.specs.Prelude.{◌≡◌, ◌++◌, ◌<◌, ◌^◌, OnOk, IfOk, IfSome, length};
ghost use Rattle.der_core.specs.Elements.{element};
ghost use Rattle.der_forms.specs.Fields.{tag_of, optional_spelling};
ghost use Rattle.krb_tickets.specs.PrincipalName.{principal_name, in_realm, name_of, named, unnamed};

use crate::name_string::{name_string, put_name_string};
use der_core::{Reader, Writer};
use der_forms::{Form, ReadFault, Sequence, field, put_field, put_sequence, read_sequence};
use krb_names::{Principal, Realm, Texts, TryClone};
use std::alloc::{AllocError, Global};

/// A name without its realm, as it stands in messages beside a realm.
#[derive(Debug, Drop)]
pub struct PrincipalName {
    pub name_type: i32,
    pub name_string: Texts,
}

impl PrincipalName {
    /// The principal of this name in this realm.
    pub fn in_realm(self, realm: Realm) -> Principal
        ensures { result ≡ in_realm self realm }
    {
        let PrincipalName {
            name_type,
            name_string,
        } = self;
        Principal {
            kind: name_type,
            parts: name_string,
            realm,
        }
    }
}

/// The principal of a name in this realm, where the name is there.
pub fn named(
    alloc: Global,
    name: Option<PrincipalName>,
    realm: &Realm,
) -> Result<Option<Principal>, AllocError>
    ensures { IfOk result (λ principal. principal ≡ named realm.now name) }
{
    match name {
        Some(name) => Ok(Some(name.in_realm(realm.try_clone(alloc)?))),
        None => Ok(None),
    }
}

/// Writes the field with this number, the name of a principal without its realm.
pub fn put_name(to: &mut Writer, number: u8, name: &Principal) -> Result<(), AllocError>
    requires number { number < 31 }
    requires fits { principal_name.Fits (name_of name.now) }
    requires short { length (principal_name.spelling (name_of name.now)) < 2 ^ 32 }
    ensures ok { OnOk result (to.new ≡ to.old ++ element (tag_of number) (principal_name.spelling (name_of name.now))) }
{
    let mark = to.mark();
    put_field(to, 0, &name.kind)?;
    put_name_string(to, name.kind, &name.parts)?;
    to.wrap(0x30, mark)?;
    to.wrap(0xa0 + number, mark)
}

/// The same, where the principal is there.
pub fn put_optional_name(
    to: &mut Writer,
    number: u8,
    name: &Option<Principal>,
) -> Result<(), AllocError>
    requires number { number < 31 }
    requires fits { IfSome (unnamed name.now) principal_name.Fits }
    requires short { length (optional_spelling number principal_name (unnamed name.now)) < 2 ^ 32 }
    ensures ok { OnOk result (to.new ≡ to.old ++ optional_spelling number principal_name (unnamed name.now)) }
{
    if let Some(name) = name {
        put_name(to, number, name)?;
    }
    Ok(())
}

impl Sequence for PrincipalName {
    ghost use Rattle.krb_tickets.specs.PrincipalName.{fields};
    ghost use Rattle.krb_tickets.specs.Laws.{principal_name_fields};

    ghost fields = { fields };

    fn read_fields(alloc: Global, from: &mut Reader) -> Result<PrincipalName, ReadFault> {
        let name_type = field(alloc, from, 0)?;
        let name_string = name_string(alloc, from, name_type)?;
        from.done()?;
        Ok(PrincipalName {
            name_type,
            name_string,
        })
    }

    fn put_fields(&self, to: &mut Writer) -> Result<(), AllocError> {
        put_field(to, 0, &self.name_type)?;
        put_name_string(to, self.name_type, &self.name_string)
    }

    ghost lawful = { principal_name_fields };
}

impl Form for PrincipalName {
    ghost use Rattle.krb_tickets.specs.PrincipalName.{principal_name};
    ghost use Rattle.krb_tickets.specs.Laws.{principal_name_lawful};

    ghost codec = { principal_name };

    fn read_from(alloc: Global, from: &mut Reader) -> Result<PrincipalName, ReadFault> {
        read_sequence(alloc, from)
    }

    fn write_to(&self, to: &mut Writer) -> Result<(), AllocError> {
        put_sequence(to, self)
    }

    ghost lawful = { principal_name_lawful };
}

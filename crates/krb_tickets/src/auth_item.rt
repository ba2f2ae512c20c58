//! AuthorizationData (RFC 4120, section 5.2.6):
//! ```text
//! AuthorizationData ::= SEQUENCE OF SEQUENCE {
//!     ad-type [0] Int32,
//!     ad-data [1] OCTET STRING
//! }
//! ```

use der_core::{Reader, Writer};
use der_forms::{Form, ReadFault, Sequence, field, put_field, put_sequence, read_sequence};
use krb_names::{Bytes, Items, TryClone};
use std::alloc::{AllocError, Global};

/// One element of authorization data: its ad-type and ad-data.
#[derive(Debug, Drop)]
pub struct AuthItem {
    pub kind: i32,
    pub content: Bytes,
}

/// Authorization data.
pub type AuthItems = Items<AuthItem>;

impl TryClone for AuthItem {
    fn try_clone(&self, alloc: Global) -> Result<AuthItem, AllocError> {
        Ok(AuthItem {
            kind: self.kind,
            content: self.content.try_clone(alloc)?,
        })
    }
}

impl PartialEq for AuthItem {
    ghost use Rattle.std.specs.Cmp.{partial_equiv_from_equiv};
    ghost use Rattle.krb_tickets.specs.SameItem.{same_item, same_item_equiv};

    ghost eq = { same_item };

    ghost laws = { partial_equiv_from_equiv same_item_equiv };

    fn eq(&self, other: &AuthItem) -> bool {
        self.kind == other.kind && self.content.as_slice() == other.content.as_slice()
    }
}

impl Sequence for AuthItem {
    ghost use Rattle.krb_tickets.specs.AuthItem.{fields};
    ghost use Rattle.krb_tickets.specs.Laws.{auth_item_fields};

    ghost fields = { fields };

    fn read_fields(alloc: Global, from: &mut Reader) -> Result<AuthItem, ReadFault> {
        let kind = field(alloc, from, 0)?;
        let content = field(alloc, from, 1)?;
        from.done()?;
        Ok(AuthItem { kind, content })
    }

    fn put_fields(&self, to: &mut Writer) -> Result<(), AllocError> {
        put_field(to, 0, &self.kind)?;
        put_field(to, 1, &self.content)?;
        Ok(())
    }

    ghost lawful = { auth_item_fields };
}

impl Form for AuthItem {
    ghost use Rattle.krb_tickets.specs.AuthItem.{auth_item};
    ghost use Rattle.krb_tickets.specs.Laws.{auth_item_lawful};

    ghost codec = { auth_item };

    fn read_from(alloc: Global, from: &mut Reader) -> Result<AuthItem, ReadFault> {
        read_sequence(alloc, from)
    }

    fn write_to(&self, to: &mut Writer) -> Result<(), AllocError> {
        put_sequence(to, self)
    }

    ghost lawful = { auth_item_lawful };
}

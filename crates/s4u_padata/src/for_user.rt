//! PA-FOR-USER (MS-SFU, section 2.2.1):
//! ```text
//! PA-FOR-USER ::= SEQUENCE {
//!     userName     [0] PrincipalName,
//!     userRealm    [1] Realm,
//!     cksum        [2] Checksum,
//!     auth-package [3] KerberosString
//! }
//! ```

use crate::sum::put_sum;
use der_core::{Reader, Writer};
use der_forms::{Form, ReadFault, Sequence, field, put_field, put_sequence, read_sequence};
use krb_messages::Checksum;
use krb_names::{Bytes, Principal, Realm, Text};
use krb_tickets::{Message, PrincipalName, put_name};
use std::alloc::{AllocError, Global};

/// The user that a service asks for by name, and a checksum.
#[derive(Debug, Drop)]
pub struct ForUser {
    /// userName in userRealm
    pub user: Principal,
    pub sum_type: i32,
    pub sum: Bytes,
    /// auth-package
    pub package: Text,
}

impl Sequence for ForUser {
    ghost use Rattle.s4u_padata.specs.ForUser.{fields};
    ghost use Rattle.s4u_padata.specs.Laws.{for_user_fields};

    ghost fields = { fields };

    fn read_fields(alloc: Global, from: &mut Reader) -> Result<ForUser, ReadFault> {
        let name: PrincipalName = field(alloc, from, 0)?;
        let realm: Realm = field(alloc, from, 1)?;
        let sum: Checksum = field(alloc, from, 2)?;
        let package = field(alloc, from, 3)?;
        from.done()?;
        Ok(ForUser {
            user: name.in_realm(realm),
            sum_type: sum.cksumtype,
            sum: sum.checksum,
            package,
        })
    }

    fn put_fields(&self, to: &mut Writer) -> Result<(), AllocError> {
        put_name(to, 0, &self.user)?;
        put_field(to, 1, &self.user.realm)?;
        put_sum(to, 2, &self.sum_type, &self.sum)?;
        put_field(to, 3, &self.package)?;
        Ok(())
    }

    ghost lawful = { for_user_fields };
}

impl Form for ForUser {
    ghost use Rattle.s4u_padata.specs.ForUser.{for_user};
    ghost use Rattle.s4u_padata.specs.Laws.{for_user_lawful};

    ghost codec = { for_user };

    fn read_from(alloc: Global, from: &mut Reader) -> Result<ForUser, ReadFault> {
        read_sequence(alloc, from)
    }

    fn write_to(&self, to: &mut Writer) -> Result<(), AllocError> {
        put_sequence(to, self)
    }

    ghost lawful = { for_user_lawful };
}

impl Message for ForUser {
    fn allocator(&self) -> Global {
        self.sum.allocator()
    }
}

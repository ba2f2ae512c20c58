//! PA-S4U-X509-USER (MS-SFU, section 2.2.2): `SEQUENCE { user-id [0] S4UUserID, checksum [1] Checksum }`.

use crate::sum::put_sum;
use crate::user_id::UserId;
use der_core::{Reader, Writer};
use der_forms::{
    Form, ReadFault, Sequence, field, kept_field, put_kept, put_sequence, read_sequence,
};
use krb_messages::Checksum;
use krb_names::{Bytes, Principal, Realm};
use krb_tickets::Message;
use std::alloc::{AllocError, Global};

/// The user that a service asks for by name or certificate, the bytes of its user-id as received, and a checksum over these.
#[derive(Debug, Drop)]
pub struct X509User {
    pub nonce: i64,
    pub user: Option<Principal>,
    pub realm: Realm,
    pub options: u32,
    /// Bytes that read as the user-id.
    pub id_bytes: Bytes,
    pub sum_type: i32,
    pub sum: Bytes,
}

impl Sequence for X509User {
    ghost use Rattle.s4u_padata.specs.X509User.{fields};
    ghost use Rattle.s4u_padata.specs.Laws.{x509_user_fields};

    ghost fields = { fields };

    fn read_fields(alloc: Global, from: &mut Reader) -> Result<X509User, ReadFault> {
        let (id, id_bytes): (UserId, Bytes) = kept_field(alloc, from, 0)?;
        let sum: Checksum = field(alloc, from, 1)?;
        from.done()?;
        Ok(X509User {
            nonce: id.nonce,
            user: id.user,
            realm: id.realm,
            options: id.options,
            id_bytes,
            sum_type: sum.cksumtype,
            sum: sum.checksum,
        })
    }

    fn put_fields(&self, to: &mut Writer) -> Result<(), AllocError> {
        put_kept(to, 0, &self.id_bytes)?;
        put_sum(to, 1, &self.sum_type, &self.sum)?;
        Ok(())
    }

    ghost lawful = { x509_user_fields };
}

impl Form for X509User {
    ghost use Rattle.s4u_padata.specs.X509User.{x509_user};
    ghost use Rattle.s4u_padata.specs.Laws.{x509_user_lawful};

    ghost codec = { x509_user };

    fn read_from(alloc: Global, from: &mut Reader) -> Result<X509User, ReadFault> {
        read_sequence(alloc, from)
    }

    fn write_to(&self, to: &mut Writer) -> Result<(), AllocError> {
        put_sequence(to, self)
    }

    ghost lawful = { x509_user_lawful };
}

impl Message for X509User {
    fn allocator(&self) -> Global {
        self.id_bytes.allocator()
    }
}

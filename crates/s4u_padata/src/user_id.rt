//! S4UUserID (MS-SFU, section 2.2.2):
//! ```text
//! S4UUserID ::= SEQUENCE {
//!     nonce               [0] UInt32,                  -- from -2^31 on
//!     cname               [1] PrincipalName OPTIONAL,
//!     crealm              [2] Realm,
//!     subject-certificate [3] OCTET STRING OPTIONAL,   -- read past
//!     options             [4] BIT STRING OPTIONAL      -- 0 where absent
//! }
//! ```

use der_core::{Reader, Writer};
use der_forms::{
    Flags, Form, Nonce, ReadFault, Sequence, field, optional, optional_or, put_field, put_sequence,
    put_unless, read_sequence,
};
use krb_names::{Bytes, Principal, Realm};
use krb_tickets::{Message, PrincipalName, named, put_optional_name};
use std::alloc::{AllocError, Global};

/// The user that a service asks for, as the checksum of a PA-S4U-X509-USER covers it.
#[derive(Debug, Drop)]
pub struct UserId {
    pub nonce: i64,
    pub user: Option<Principal>,
    pub realm: Realm,
    pub options: u32,
}

impl Sequence for UserId {
    ghost use Rattle.s4u_padata.specs.UserId.{fields};
    ghost use Rattle.s4u_padata.specs.Laws.{user_id_fields};

    ghost fields = { fields };

    fn read_fields(alloc: Global, from: &mut Reader) -> Result<UserId, ReadFault> {
        let Nonce(nonce) = field(alloc, from, 0)?;
        let user: Option<PrincipalName> = optional(alloc, from, 1)?;
        let realm: Realm = field(alloc, from, 2)?;
        let _certificate: Option<Bytes> = optional(alloc, from, 3)?;
        let Flags(options) = optional_or(alloc, from, 4, Flags(0))?;
        from.done()?;
        Ok(UserId {
            nonce,
            user: named(alloc, user, &realm)?,
            realm,
            options,
        })
    }

    fn put_fields(&self, to: &mut Writer) -> Result<(), AllocError> {
        put_field(to, 0, &Nonce(self.nonce))?;
        put_optional_name(to, 1, &self.user)?;
        put_field(to, 2, &self.realm)?;
        put_unless(to, 4, &Flags(self.options), self.options == 0)?;
        Ok(())
    }

    ghost lawful = { user_id_fields };
}

impl Form for UserId {
    ghost use Rattle.s4u_padata.specs.UserId.{user_id};
    ghost use Rattle.s4u_padata.specs.Laws.{user_id_lawful};

    ghost codec = { user_id };

    #[tactic(auto, unfolding(crate::specs::UserId::user_id))]
    fn read_from(alloc: Global, from: &mut Reader) -> Result<UserId, ReadFault> {
        read_sequence(alloc, from)
    }

    #[tactic(auto, unfolding(crate::specs::UserId::user_id))]
    fn write_to(&self, to: &mut Writer) -> Result<(), AllocError> {
        put_sequence(to, self)
    }

    ghost lawful = { user_id_lawful };
}

impl Message for UserId {
    fn allocator(&self) -> Global {
        self.realm.allocator()
    }
}

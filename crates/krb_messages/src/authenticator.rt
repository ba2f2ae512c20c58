//! Authenticator (RFC 4120, section 5.5.1):
//! ```text
//! Authenticator ::= [APPLICATION 2] SEQUENCE {
//!     authenticator-vno  [0] INTEGER (5),
//!     crealm             [1] Realm,
//!     cname              [2] PrincipalName,
//!     cksum              [3] Checksum OPTIONAL,
//!     cusec              [4] Microseconds,
//!     ctime              [5] KerberosTime,                 -- at most 250,000,000,000
//!     subkey             [6] EncryptionKey OPTIONAL,
//!     seq-number         [7] UInt32 OPTIONAL,              -- any integer of 1 to 8 bytes
//!     authorization-data [8] AuthorizationData OPTIONAL    -- read past
//! }
//! ```

use crate::checksum::Checksum;
use crate::number::put_micros;
use der_core::{Reader, Writer};
use der_forms::{
    Form, Micros, MomentTime, ReadFault, Sequence, field, number_field, optional, put_field,
    put_number, put_optional, put_tagged, read_tagged,
};
use krb_names::{KTime, Key, Principal, Realm, TryClone};
use krb_tickets::{AuthItems, Message, PrincipalName, put_name};
use std::alloc::{AllocError, Global};

/// What a client says of itself beside its ticket, without authorization-data, which is read past.
#[derive(Debug, Drop)]
pub struct Authenticator {
    /// 5
    pub authenticator_vno: i32,
    pub crealm: Realm,
    /// cname in crealm
    pub cname: Principal,
    pub cksum: Option<Checksum>,
    /// 0 to 999,999.
    pub cusec: i32,
    /// At most 250,000,000,000 seconds.
    pub ctime: KTime,
    pub subkey: Option<Key>,
    pub seq_number: Option<i64>,
}

impl Sequence for Authenticator {
    ghost use Rattle.krb_messages.specs.Authenticator.{fields};
    ghost use Rattle.krb_messages.specs.Laws.{authenticator_fields};

    ghost fields = { fields };

    fn read_fields(alloc: Global, from: &mut Reader) -> Result<Authenticator, ReadFault> {
        number_field(from, 0, 5)?;
        let crealm: Realm = field(alloc, from, 1)?;
        let cname: PrincipalName = field(alloc, from, 2)?;
        let cksum = optional(alloc, from, 3)?;
        let Micros(cusec) = field(alloc, from, 4)?;
        let MomentTime(ctime) = field(alloc, from, 5)?;
        let subkey = optional(alloc, from, 6)?;
        let seq_number = optional(alloc, from, 7)?;
        let _authorization_data: Option<AuthItems> = optional(alloc, from, 8)?;
        from.done()?;
        Ok(Authenticator {
            authenticator_vno: 5,
            cname: cname.in_realm(crealm.try_clone(alloc)?),
            crealm,
            cksum,
            cusec,
            ctime,
            subkey,
            seq_number,
        })
    }

    fn put_fields(&self, to: &mut Writer) -> Result<(), AllocError> {
        put_number(to, 0, 5)?;
        put_field(to, 1, &self.crealm)?;
        put_name(to, 2, &self.cname)?;
        put_optional(to, 3, &self.cksum)?;
        put_micros(to, 4, &self.cusec)?;
        put_field(to, 5, &MomentTime(self.ctime))?;
        put_optional(to, 6, &self.subkey)?;
        put_optional(to, 7, &self.seq_number)?;
        Ok(())
    }

    ghost lawful = { authenticator_fields };
}

impl Form for Authenticator {
    ghost use Rattle.krb_messages.specs.Authenticator.{authenticator};
    ghost use Rattle.krb_messages.specs.Laws.{authenticator_lawful};

    ghost codec = { authenticator };

    #[tactic(auto, unfolding(crate::specs::Authenticator::authenticator))]
    fn read_from(alloc: Global, from: &mut Reader) -> Result<Authenticator, ReadFault> {
        read_tagged(alloc, from, 0x62)
    }

    #[tactic(auto, unfolding(crate::specs::Authenticator::authenticator))]
    fn write_to(&self, to: &mut Writer) -> Result<(), AllocError> {
        put_tagged(to, 0x62, self)
    }

    ghost lawful = { authenticator_lawful };
}

impl Message for Authenticator {
    fn allocator(&self) -> Global {
        self.crealm.allocator()
    }
}

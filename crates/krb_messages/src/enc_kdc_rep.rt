//! EncKDCRepPart, what is sealed in a reply (RFC 4120, section 5.4.2):
//! ```text
//! EncASRepPart  ::= [APPLICATION 25] EncKDCRepPart
//! EncTGSRepPart ::= [APPLICATION 26] EncKDCRepPart
//! EncKDCRepPart ::= SEQUENCE {
//!     key               [0] EncryptionKey,
//!     last-req          [1] LastReq,
//!     nonce             [2] UInt32,                  -- from -2^31 on
//!     key-expiration    [3] KerberosTime OPTIONAL,
//!     flags             [4] TicketFlags,
//!     authtime          [5] KerberosTime,
//!     starttime         [6] KerberosTime OPTIONAL,
//!     endtime           [7] KerberosTime,
//!     renew-till        [8] KerberosTime OPTIONAL,
//!     srealm            [9] Realm,
//!     sname             [10] PrincipalName,
//!     caddr             [11] HostAddresses OPTIONAL,          -- read past
//!     encrypted-pa-data [12] SEQUENCE OF PA-DATA OPTIONAL     -- read past (RFC 6806)
//! }
//! ```
ghost use Rattle.std.specs.Prelude.{◌≡◌};
ghost use Rattle.der_forms.specs.Choices.{tag_in};

use crate::last_req::LastReqs;
use crate::number::put_nonce;
use crate::pa_data::PaItems;
use der_core::{Reader, Writer};
use der_forms::{
    Choice, Flags, Form, Nonce, ReadFault, field, optional, put_choice, put_field, put_optional,
    read_choice,
};
use krb_names::{Items, KTime, Key, Principal, Realm, TryClone};
use krb_tickets::{HostAddress, Message, PrincipalName, put_name};
use std::alloc::{AllocError, Global};

/// What is sealed in a reply, without caddr and encrypted-pa-data, which are read past.
#[derive(Debug, Drop)]
pub struct EncKdcRep {
    /// The tag byte, 0x79 (EncASRepPart) or 0x7a (EncTGSRepPart).
    pub tag: u8,
    /// The session key.
    pub key: Key,
    pub last_req: LastReqs,
    pub nonce: i64,
    pub key_expiration: Option<KTime>,
    /// TicketFlags, bit 0 the highest.
    pub flags: u32,
    pub authtime: KTime,
    pub starttime: Option<KTime>,
    pub endtime: KTime,
    pub renew_till: Option<KTime>,
    pub srealm: Realm,
    /// sname in srealm
    pub sname: Principal,
}

fn tag_in(is_as: bool) -> u8
    ensures { result ≡ tag_in 0x79 0x7a is_as }
{
    if is_as { 0x79 } else { 0x7a }
}

impl Choice for EncKdcRep {
    ghost use Rattle.krb_messages.specs.EncKdcRep.{fields, is_as_part};
    ghost use Rattle.krb_messages.specs.Laws.{enc_kdc_rep_fields};

    ghost first = { is_as_part };

    ghost fields = { fields };

    fn is_first(&self) -> bool {
        self.tag == 0x79
    }

    fn read_fields(
        alloc: Global,
        from: &mut Reader,
        is_first: bool,
    ) -> Result<EncKdcRep, ReadFault> {
        let key = field(alloc, from, 0)?;
        let last_req = field(alloc, from, 1)?;
        let Nonce(nonce) = field(alloc, from, 2)?;
        let key_expiration = optional(alloc, from, 3)?;
        let Flags(flags) = field(alloc, from, 4)?;
        let authtime = field(alloc, from, 5)?;
        let starttime = optional(alloc, from, 6)?;
        let endtime = field(alloc, from, 7)?;
        let renew_till = optional(alloc, from, 8)?;
        let srealm: Realm = field(alloc, from, 9)?;
        let sname: PrincipalName = field(alloc, from, 10)?;
        let _caddr: Option<Items<HostAddress>> = optional(alloc, from, 11)?;
        let _encrypted_pa_data: Option<PaItems> = optional(alloc, from, 12)?;
        from.done()?;
        Ok(EncKdcRep {
            tag: tag_in(is_first),
            key,
            last_req,
            nonce,
            key_expiration,
            flags,
            authtime,
            starttime,
            endtime,
            renew_till,
            sname: sname.in_realm(srealm.try_clone(alloc)?),
            srealm,
        })
    }

    fn put_fields(&self, to: &mut Writer) -> Result<(), AllocError> {
        put_field(to, 0, &self.key)?;
        put_field(to, 1, &self.last_req)?;
        put_nonce(to, 2, &self.nonce)?;
        put_optional(to, 3, &self.key_expiration)?;
        put_field(to, 4, &Flags(self.flags))?;
        put_field(to, 5, &self.authtime)?;
        put_optional(to, 6, &self.starttime)?;
        put_field(to, 7, &self.endtime)?;
        put_optional(to, 8, &self.renew_till)?;
        put_field(to, 9, &self.srealm)?;
        put_name(to, 10, &self.sname)?;
        Ok(())
    }

    ghost lawful = { enc_kdc_rep_fields };
}

impl Form for EncKdcRep {
    ghost use Rattle.krb_messages.specs.EncKdcRep.{enc_kdc_rep};
    ghost use Rattle.krb_messages.specs.Laws.{enc_kdc_rep_lawful};

    ghost codec = { enc_kdc_rep };

    #[tactic(auto, unfolding(crate::specs::EncKdcRep::enc_kdc_rep))]
    fn read_from(alloc: Global, from: &mut Reader) -> Result<EncKdcRep, ReadFault> {
        read_choice(alloc, from, 0x79, 0x7a)
    }

    #[tactic(auto, unfolding(crate::specs::EncKdcRep::enc_kdc_rep))]
    fn write_to(&self, to: &mut Writer) -> Result<(), AllocError> {
        put_choice(to, 0x79, 0x7a, self)
    }

    ghost lawful = { enc_kdc_rep_lawful };
}

impl Message for EncKdcRep {
    fn allocator(&self) -> Global {
        self.srealm.allocator()
    }
}

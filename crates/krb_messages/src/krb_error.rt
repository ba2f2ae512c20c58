//! KRB-ERROR (RFC 4120, section 5.9.1):
//! ```text
//! KRB-ERROR ::= [APPLICATION 30] SEQUENCE {
//!     pvno       [0] INTEGER (5),
//!     msg-type   [1] INTEGER (30),
//!     ctime      [2] KerberosTime OPTIONAL,    -- at most 250,000,000,000
//!     cusec      [3] Microseconds OPTIONAL,
//!     stime      [4] KerberosTime,
//!     susec      [5] Microseconds,             -- any Int32
//!     error-code [6] Int32,
//!     crealm     [7] Realm OPTIONAL,
//!     cname      [8] PrincipalName OPTIONAL,
//!     realm      [9] Realm,
//!     sname      [10] PrincipalName,
//!     e-text     [11] KerberosString OPTIONAL,
//!     e-data     [12] OCTET STRING OPTIONAL
//! }
//! ```
ghost use Rattle.std.specs.Prelude.{◌≡◌, IfOk};
ghost use Rattle.der_forms.specs.Defaults.{or_usual};
ghost use Rattle.krb_tickets.specs.PrincipalName.{named};

use der_core::{Reader, Writer};
use der_forms::{
    Form, ReadFault, Sequence, bare_micros, bare_time, each_micros, each_time, field, number_field,
    optional, put_field, put_number, put_optional, put_tagged, read_tagged,
};
use krb_names::{Bytes, KTime, Principal, Realm, Text, TryClone};
use krb_tickets::{Message, PrincipalName, named, put_name, put_optional_name};
use std::alloc::{AllocError, Global};

/// A refusal.
#[derive(Debug, Drop)]
pub struct KrbError {
    /// 5
    pub pvno: i32,
    /// 30
    pub msg_type: i32,
    /// At most 250,000,000,000 seconds.
    pub ctime: Option<KTime>,
    /// 0 to 999,999.
    pub cusec: Option<i32>,
    pub stime: KTime,
    pub susec: i32,
    pub error_code: i32,
    pub crealm: Option<Realm>,
    /// cname in crealm, or in realm where crealm is absent.
    pub cname: Option<Principal>,
    pub realm: Realm,
    /// sname in realm
    pub sname: Principal,
    pub e_text: Option<Text>,
    pub e_data: Option<Bytes>,
}

/// The client's name in its realm, or in the server's where that is absent.
fn client_of(
    alloc: Global,
    cname: Option<PrincipalName>,
    crealm: &Option<Realm>,
    realm: &Realm,
) -> Result<Option<Principal>, AllocError>
    ensures { IfOk result (λ client. client ≡ named (or_usual realm.now crealm.now) cname) }
{
    match crealm {
        Some(crealm) => named(alloc, cname, crealm),
        None => named(alloc, cname, realm),
    }
}

impl Sequence for KrbError {
    ghost use Rattle.krb_messages.specs.KrbError.{fields};
    ghost use Rattle.krb_messages.specs.Laws.{krb_error_fields};

    ghost fields = { fields };

    fn read_fields(alloc: Global, from: &mut Reader) -> Result<KrbError, ReadFault> {
        number_field(from, 0, 5)?;
        number_field(from, 1, 30)?;
        let ctime = optional(alloc, from, 2)?;
        let cusec = optional(alloc, from, 3)?;
        let stime = field(alloc, from, 4)?;
        let susec = field(alloc, from, 5)?;
        let error_code = field(alloc, from, 6)?;
        let crealm: Option<Realm> = optional(alloc, from, 7)?;
        let cname: Option<PrincipalName> = optional(alloc, from, 8)?;
        let realm: Realm = field(alloc, from, 9)?;
        let sname: PrincipalName = field(alloc, from, 10)?;
        let e_text = optional(alloc, from, 11)?;
        let e_data = optional(alloc, from, 12)?;
        from.done()?;
        Ok(KrbError {
            pvno: 5,
            msg_type: 30,
            ctime: bare_time(ctime),
            cusec: bare_micros(cusec),
            stime,
            susec,
            error_code,
            cname: client_of(alloc, cname, &crealm, &realm)?,
            crealm,
            sname: sname.in_realm(realm.try_clone(alloc)?),
            realm,
            e_text,
            e_data,
        })
    }

    fn put_fields(&self, to: &mut Writer) -> Result<(), AllocError> {
        put_number(to, 0, 5)?;
        put_number(to, 1, 30)?;
        put_optional(to, 2, &each_time(self.ctime))?;
        put_optional(to, 3, &each_micros(self.cusec))?;
        put_field(to, 4, &self.stime)?;
        put_field(to, 5, &self.susec)?;
        put_field(to, 6, &self.error_code)?;
        put_optional(to, 7, &self.crealm)?;
        put_optional_name(to, 8, &self.cname)?;
        put_field(to, 9, &self.realm)?;
        put_name(to, 10, &self.sname)?;
        put_optional(to, 11, &self.e_text)?;
        put_optional(to, 12, &self.e_data)?;
        Ok(())
    }

    ghost lawful = { krb_error_fields };
}

impl Form for KrbError {
    ghost use Rattle.krb_messages.specs.KrbError.{krb_error};
    ghost use Rattle.krb_messages.specs.Laws.{krb_error_lawful};

    ghost codec = { krb_error };

    #[tactic(auto, unfolding(crate::specs::KrbError::krb_error))]
    fn read_from(alloc: Global, from: &mut Reader) -> Result<KrbError, ReadFault> {
        read_tagged(alloc, from, 0x7e)
    }

    #[tactic(auto, unfolding(crate::specs::KrbError::krb_error))]
    fn write_to(&self, to: &mut Writer) -> Result<(), AllocError> {
        put_tagged(to, 0x7e, self)
    }

    ghost lawful = { krb_error_lawful };
}

impl Message for KrbError {
    fn allocator(&self) -> Global {
        self.realm.allocator()
    }
}

//! A PAC with room for its signatures (MS-PAC, sections 2.3 and 2.8).

ghost use Rattle.std.specs.Prelude.{◌≡◌, ◌<◌, ◌≤◌, ◌+◌, ◌-◌, ◌^◌, ◌⊎◌, ◌++◌, ◌&&◌, pos, true, length, take, drop, replicate, option_map, IfOk, IfSome, if◌then◌else◌};
ghost use Rattle.std.specs.Bool.{OnTrue, OnFalse};
ghost use Rattle.std.specs.Int.{w32, to_le_bytes};
ghost use Rattle.pac_buffers.specs.Container.{entry_of};
ghost use Rattle.pac_buffers.specs.Places.{place_of};
ghost use Rattle.pac_buffers.specs.Signature.{natural};
ghost use Rattle.pac_buffers.specs.Buffers.{pac, built, size_of, with_sum, is_signature, has_buffer, IsSound};

use crate::buffer_type::{
    CLIENT_INFO, DELEGATION_INFO, LOGON_INFO, PRIVSVR_CHECKSUM, SERVER_CHECKSUM, TICKET_CHECKSUM,
};
use crate::draft::Draft;
use crate::view::PacView;
use std::alloc::{AllocError, Global};
use std::marker::Model;
use std::ops::Range;

/// A PAC in bytes of its own. Contracts see it as the list of its buffers.
#[derive(Debug, Drop)]
pub struct Pac {
    bytes: Vec<u8>,
}

impl Model for Pac {
    ghost use Rattle.std.specs.Prelude.{◌≡◌, List};
    ghost use Rattle.pac_buffers.specs.Buffers.{Buffer, pac, buffers_of, IsSound};

    ghost Value = { List Buffer };

    ghost view = { λ p. buffers_of p.bytes.items };

    ghost invariant = { λ p. record { spelt : pac (buffers_of p.bytes.items) ≡ p.bytes.items; sound : IsSound (buffers_of p.bytes.items) } };
}

/// A signature's bytes before it is made: the type of its checksum, and zeros.
fn unsigned(sum_type: i32) -> [u8; 16]
    requires { (sum_type ≡ pos 15) ⊎ (sum_type ≡ pos 16) }
    ensures { result ≡ to_le_bytes w32 (natural sum_type) ++ replicate 12 0 }
{
    let [a, b, c, d] = (sum_type as u32).to_le_bytes();
    [a, b, c, d, 0, 0, 0, 0, 0, 0, 0, 0, 0, 0, 0, 0]
}

/// Whether buffers of this type are signatures.
fn is_signature(kind: u32) -> bool
    ensures { result ≡ is_signature kind }
{
    kind == SERVER_CHECKSUM || kind == PRIVSVR_CHECKSUM || kind == TICKET_CHECKSUM
}

/// Writes a checksum in the place of the bytes that stand here.
fn write_sum(bytes: &mut [u8], at: usize, sum: &[u8; 12])
    requires { at + 12 ≤ length bytes.old }
    ensures { bytes.new ≡ take at bytes.old ++ (sum.now ++ drop (at + 12) bytes.old) }
{
    bytes[at..at + 12].copy_from_slice(sum);
}

/// How many buffers a PAC has, with these or without.
fn count_of(delegation: bool, ticket: bool) -> u32
    ensures { result ≡ 4 + (if delegation then 1 else 0) + (if ticket then 1 else 0) }
{
    4 + delegation as u32 + ticket as u32
}

/// The bytes of a PAC of these buffers, in their order, and signatures of these types.
fn spelt(
    alloc: Global,
    logon: &[u8],
    client: &[u8],
    delegation: Option<&[u8]>,
    ticket: bool,
    server_type: i32,
    realm_type: i32,
) -> Result<Vec<u8>, AllocError>
    requires few { length logon.now + length client.now + size_of (option_map (λ x. x.now) delegation) < 2 ^ 32 - 256 }
    requires server { (server_type ≡ pos 15) ⊎ (server_type ≡ pos 16) }
    requires realm { (realm_type ≡ pos 15) ⊎ (realm_type ≡ pos 16) }
    ensures { IfOk result (λ bytes. bytes.items ≡ pac (built logon.now client.now (option_map (λ x. x.now) delegation.entry) ticket server_type realm_type)) }
{
    let server = unsigned(server_type);
    let realm = unsigned(realm_type);
    let mut draft = Draft::new(alloc, count_of(delegation.is_some(), ticket))?;
    draft.add(LOGON_INFO, logon)?;
    draft.add(CLIENT_INFO, client)?;
    draft.add_if(DELEGATION_INFO, delegation)?;
    draft.add(SERVER_CHECKSUM, &server)?;
    draft.add(PRIVSVR_CHECKSUM, &realm)?;
    draft.add_if(TICKET_CHECKSUM, ticket.then_some(realm.as_slice()))?;
    draft.finish()
}

impl Pac {
    /// The PAC of this logon information (type 1), client information (10), delegation information (11), and of a
    /// server (6), a KDC (7) and, for a service ticket, a ticket signature (16), which are still zero. The first
    /// checksum type is the server key's, the other the key distribution centre's. What is given has room for the list,
    /// the signatures and the zeros between, so that the whole is below 2^32 bytes.
    pub fn build(
        alloc: Global,
        logon: &[u8],
        client: &[u8],
        delegation: Option<&[u8]>,
        ticket: bool,
        server_type: i32,
        realm_type: i32,
    ) -> Result<Pac, AllocError>
        requires few { length logon.now + length client.now + size_of (option_map (λ x. x.now) delegation) < 2 ^ 32 - 256 }
        requires server { (server_type ≡ pos 15) ⊎ (server_type ≡ pos 16) }
        requires realm { (realm_type ≡ pos 15) ⊎ (realm_type ≡ pos 16) }
        ensures ok { IfOk result (λ pac. pac ≡ built logon.now client.now (option_map (λ x. x.now) delegation.entry) ticket server_type realm_type) }
    {
        let bytes = spelt(
            alloc,
            logon,
            client,
            delegation,
            ticket,
            server_type,
            realm_type,
        )?;
        Ok(Pac { bytes })
    }

    /// Its bytes.
    pub fn as_slice(&self) -> &[u8]
        ensures value { result.now ≡ pac self.now }
        ensures sound { IsSound self.now }
    {
        self.bytes.as_slice()
    }

    fn view(&self) -> PacView<'_>
        ensures value { result ≡ pac self.now }
        ensures sound { IsSound self.now }
    {
        match PacView::read(self.as_slice()) {
            Ok(view) => view,
            Err(_) => unreachable!(),
        }
    }

    /// Where the buffer of this type lies. A signature's has 16 bytes.
    pub fn place(&self, kind: u32) -> Option<Range<usize>>
        ensures exact { result ≡ option_map place_of (entry_of kind (pac self.now)) }
        ensures within { IfSome result (λ range. (range.start ≤ range.end) × (range.end ≤ length (pac self.now))) }
        ensures whole { is_signature kind ≡ true → IfSome result (λ range. range.start + 16 ≡ range.end) }
    {
        self.view().place(kind)
    }

    /// Writes the checksum of the signature of this type, 6, 7 or 16. Whether there is one.
    pub fn put(&mut self, kind: u32, sum: &[u8; 12]) -> bool
        ensures done { result ≡ (is_signature kind && has_buffer kind self.old) }
        ensures value { OnTrue result (self.new ≡ with_sum kind sum.now self.old) }
        ensures unchanged { OnFalse result (self.new ≡ self.old) }
    {
        if !is_signature(kind) {
            return false;
        }
        let Some(Range { start, .. }) = self.place(kind) else {
            return false;
        };
        write_sum(&mut self.bytes, start + 4, sum);
        true
    }
}

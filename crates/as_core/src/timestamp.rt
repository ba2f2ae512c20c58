//! Reading PA-ENC-TIMESTAMP (RFC 4120, section 5.2.7.2).
ghost use Rattle.std.specs.Prelude.{◌≡◌, ◌<◌, ◌≤◌, ◌^◌, IfOk, IfSome, length, nat_abs, option_map, pos, slice_range, unwrap_or};
ghost use Rattle.std.specs.List.{AllByRecursion};
ghost use Rattle.std.specs.Option.{option_copied};
ghost use Rattle.der_core.specs.Codec.{whole};
ghost use Rattle.krb_crypto.specs.Encryption.{opened};
ghost use Rattle.krb_messages.specs.PaEncTsEnc.{pa_enc_ts_enc};
ghost use Rattle.krb_names.specs.Etypes.{etype_number};
ghost use Rattle.krb_names.specs.Moments.{in_micros};
ghost use Rattle.krb_tickets.specs.EncryptedData.{encrypted_data};
ghost use Rattle.krb_tickets.specs.Pac.{is_number};
ghost use Rattle.as_core.specs.Stamps.{first_timestamp, is_timestamp, items_of, made_at, stamp_of, stamp_of_item, stamp_of_sealed, stamp_of_text, stamp_seen};

use crate::stamp::StampView;
use dir_core::Account;
use krb_crypto::open_in_place;
use krb_messages::{PaData, PaEncTsEnc, PaItems};
use krb_names::{Key, Moment};
use krb_tickets::{EncryptedData, TicketFault, read_message};
use std::alloc::{AllocError, Global};
use std::ops::Range;

/// PA-ENC-TIMESTAMP, a padata-type (RFC 4120, section 7.5.2).
const PA_ENC_TIMESTAMP: i32 = 2;

/// The key usage of a timestamp (RFC 4120, section 7.5.1).
const TIMESTAMP_USAGE: u32 = 1;

fn is_timestamp(item: &PaData) -> bool
    ensures { result ≡ is_timestamp item.now }
{
    item.padata_type == PA_ENC_TIMESTAMP
}

/// The first timestamp of a list.
fn first_timestamp(items: &[PaData]) -> Option<&PaData>
    ensures { option_copied result ≡ first_timestamp items.now }
{
    items.iter().find(|item| is_timestamp(item))
}

/// The padata of a request, if there is some.
fn items_of(padata: Option<&PaItems>) -> &[PaData]
    ensures { result.now ≡ items_of (option_copied padata.entry) }
{
    match padata {
        Some(items) => items.as_slice(),
        None => &[],
    }
}

/// The microseconds of a timestamp; an absent pausec is 0.
fn micros_of(pausec: Option<i32>) -> u32
    ensures { result ≡ nat_abs (unwrap_or pausec (pos 0)) }
{
    match pausec {
        Some(micros) => micros.unsigned_abs(),
        None => 0,
    }
}

/// When a timestamp was made.
fn made_at(stamp: &PaEncTsEnc) -> Moment
    requires { pa_enc_ts_enc.Fits stamp.now }
    ensures { in_micros result ≡ made_at stamp.now }
{
    Moment {
        secs: stamp.patimestamp.secs(),
        micros: micros_of(stamp.pausec),
    }
}

/// The stamp that a text says.
fn read_text(alloc: Global, text: &[u8]) -> Result<StampView, AllocError>
    requires { length text.now < 2 ^ 32 }
    ensures { IfOk result (λ view. stamp_seen view ≡ stamp_of_text (Some text.now)) }
{
    match read_message::<PaEncTsEnc>(alloc, text) {
        Ok(stamp) => Ok(StampView::At(made_at(&stamp))),
        Err(TicketFault::Malformed(_)) => Ok(StampView::Unread),
        Err(TicketFault::NoMemory) => Err(AllocError),
    }
}

/// Opens a timestamp in place, and gives the range of what was sealed.
fn open_stamp(key: &Key, bytes: &mut [u8]) -> Option<Range<usize>>
    ensures value { option_map (λ range. slice_range bytes.new range.start range.end) result ≡ opened key.now 1 bytes.old }
    ensures within { IfSome result (λ range. (range.start ≤ range.end) × (range.end ≤ length bytes.new)) }
    ensures size { length bytes.new ≡ length bytes.old }
{
    open_in_place(key, TIMESTAMP_USAGE, bytes)
}

/// The stamp that a key opens.
fn read_cipher(alloc: Global, key: &Key, cipher: &[u8]) -> Result<StampView, AllocError>
    requires { length cipher.now < 2 ^ 32 }
    ensures { IfOk result (λ view. stamp_seen view ≡ stamp_of_text (opened key.now 1 cipher.now)) }
{
    let mut bytes = Vec::from_slice(alloc, cipher)?;
    let Some(range) = open_stamp(key, bytes.as_mut_slice()) else {
        return Ok(StampView::Unread);
    };
    read_text(alloc, &bytes.as_slice()[range])
}

/// Whether it is sealed with a key of this type.
fn is_of_type(key: &Key, sealed: &EncryptedData) -> bool
    ensures { result ≡ is_number (etype_number key.now.etype) sealed.now.etype }
{
    sealed.etype == key.etype.number()
}

/// The stamp that is sealed with a key.
fn read_sealed(alloc: Global, key: &Key, bytes: &[u8]) -> Result<StampView, AllocError>
    requires { length bytes.now < 2 ^ 32 }
    ensures { IfOk result (λ view. stamp_seen view ≡ stamp_of_sealed key.now (whole encrypted_data bytes.now)) }
{
    match read_message::<EncryptedData>(alloc, bytes) {
        Ok(sealed) => {
            if is_of_type(key, &sealed) {
                read_cipher(alloc, key, sealed.cipher.as_slice())
            } else {
                Ok(StampView::Unread)
            }
        }
        Err(TicketFault::Malformed(_)) => Ok(StampView::Unread),
        Err(TicketFault::NoMemory) => Err(AllocError),
    }
}

fn read_item(alloc: Global, key: &Key, item: Option<&PaData>) -> Result<StampView, AllocError>
    requires { IfSome (option_copied item) (λ item. length item.padata_value < 2 ^ 32) }
    ensures { IfOk result (λ view. stamp_seen view ≡ stamp_of_item key.now (option_copied item.entry)) }
{
    match item {
        Some(item) => read_sealed(alloc, key, item.padata_value.as_slice()),
        None => Ok(StampView::Absent),
    }
}

/// The first PA-ENC-TIMESTAMP of a request, as the key of the account opens it that asks; of no account none is looked
/// for.
#[tactic(auto, unfolding(crate::specs::Stamps::stamp_of))]
pub fn stamp_of(
    alloc: Global,
    account: Option<&Account>,
    padata: Option<&PaItems>,
) -> Result<StampView, AllocError>
    requires short { AllByRecursion (λ item. length item.padata_value < 2 ^ 32) (items_of (option_copied padata)) }
    ensures value { IfOk result (λ view. stamp_seen view ≡ stamp_of (option_copied account.entry) (option_copied padata.entry)) }
{
    match account {
        Some(account) => read_item(alloc, &account.key.key, first_timestamp(items_of(padata))),
        None => Ok(StampView::Absent),
    }
}

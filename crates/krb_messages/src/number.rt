//! Numbers of messages, written by their places.
ghost use Rattle.std.specs.Prelude.{◌≡◌, ◌++◌, ◌<◌, ◌^◌, length, OnOk};
ghost use Rattle.der_core.specs.Elements.{element};
ghost use Rattle.der_forms.specs.Fields.{tag_of};
ghost use Rattle.der_forms.specs.Values.{micros as micros_number, nonce as nonce_number};

use der_core::Writer;
use der_forms::{Micros, Nonce, put_field};
use std::alloc::AllocError;

/// Writes the field with this number, a nonce.
pub(crate) fn put_nonce(to: &mut Writer, number: u8, nonce: &i64) -> Result<(), AllocError>
    requires number { number < 31 }
    requires fits { nonce_number.Fits (record { 0 = nonce.now }) }
    requires short { length (nonce_number.spelling (record { 0 = nonce.now })) < 2 ^ 32 }
    ensures ok { OnOk result (to.new ≡ to.old ++ element (tag_of number) (nonce_number.spelling (record { 0 = nonce.now }))) }
{
    put_field(to, number, &Nonce(*nonce))
}

/// Writes the field with this number, microseconds.
pub(crate) fn put_micros(to: &mut Writer, number: u8, micros: &i32) -> Result<(), AllocError>
    requires number { number < 31 }
    requires fits { micros_number.Fits (record { 0 = micros.now }) }
    requires short { length (micros_number.spelling (record { 0 = micros.now })) < 2 ^ 32 }
    ensures ok { OnOk result (to.new ≡ to.old ++ element (tag_of number) (micros_number.spelling (record { 0 = micros.now }))) }
{
    put_field(to, number, &Micros(*micros))
}

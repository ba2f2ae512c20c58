//! Whole messages.
ghost use Rattle.std.specs.Prelude.{◌≡◌, ◌<◌, ◌≤◌, ◌*◌, ◌^◌, Ok, IfOk, length};
ghost use Rattle.kdc_prelude.specs.Answers.{Answers};
ghost use Rattle.der_core.specs.Codec.{whole};
ghost use Rattle.krb_tickets.specs.Told.{told};

use crate::fault::{Malformed, TicketFault};
use der_forms::{Form, ReadFault, read, write};
use krb_names::{Bytes, Items};
use std::alloc::{AllocError, Global};

/// The value that the bytes are, all of the bytes.
///
/// # Errors
/// `Malformed` with the place of the first fault; `NoMemory`.
pub fn read_message<T: Form>(alloc: Global, bytes: &[u8]) -> Result<T, TicketFault>
    requires { length bytes.now < 2 ^ 32 }
    // What is read is in the grammar.
    ensures found { IfOk result (λ x. T.codec.IsDer bytes.now x) }
    // It can be written, in at most three times as many bytes.
    ensures value { IfOk result (λ x. T.codec.Fits x × (length (T.codec.spelling x) ≤ 3 * length bytes.now)) }
    // What is in the grammar is read, unless memory runs out.
    ensures only { (x : T) → T.codec.IsDer bytes.now x → Answers TicketFault.NoMemory result (Ok x) }
    // Where the first fault is.
    ensures exact { Answers TicketFault.NoMemory result (told (whole T.codec bytes.now)) }
{
    match read(alloc, bytes) {
        Ok(value) => Ok(value),
        Err(ReadFault::Refused(refusal)) => Err(TicketFault::Malformed(Malformed {
            place: refusal.place,
        })),
        Err(ReadFault::NoMemory) => Err(TicketFault::NoMemory),
    }
}

/// A type that is read and written whole, whose values hold memory.
pub trait Message: Form {
    /// What the value takes its memory from.
    fn allocator(&self) -> Global;

    /// The value that the bytes are, all of the bytes.
    ///
    /// # Errors
    /// `Malformed` with the place of the first fault; `NoMemory`.
    fn read(alloc: Global, bytes: &[u8]) -> Result<Self, TicketFault>
        requires { length bytes.now < 2 ^ 32 }
        // What is read is in the grammar.
        ensures found { IfOk result (λ x. Self.codec.IsDer bytes.now x) }
        // It can be written, in at most three times as many bytes.
        ensures value { IfOk result (λ x. Self.codec.Fits x × (length (Self.codec.spelling x) ≤ 3 * length bytes.now)) }
        // What is in the grammar is read, unless memory runs out.
        ensures only { (x : Self) → Self.codec.IsDer bytes.now x → Answers TicketFault.NoMemory result (Ok x) }
        // Where the first fault is.
        ensures exact { Answers TicketFault.NoMemory result (told (whole Self.codec bytes.now)) }
    {
        read_message(alloc, bytes)
    }

    /// The one spelling of the value.
    fn write(&self) -> Result<Bytes, AllocError>
        requires fits { Self.codec.Fits self.now }
        requires short { length (Self.codec.spelling self.now) < 2 ^ 32 }
        ensures ok { IfOk result (λ bytes. bytes ≡ Self.codec.spelling self.now) }
    {
        write(self.allocator(), self)
    }
}

/// A type that is read and written whole, whose values may hold no memory.
pub trait PlainMessage: Form {
    /// The value that the bytes are, all of the bytes.
    ///
    /// # Errors
    /// `Malformed` with the place of the first fault; `NoMemory`.
    fn read(alloc: Global, bytes: &[u8]) -> Result<Self, TicketFault>
        requires { length bytes.now < 2 ^ 32 }
        // What is read is in the grammar.
        ensures found { IfOk result (λ x. Self.codec.IsDer bytes.now x) }
        // It can be written, in at most three times as many bytes.
        ensures value { IfOk result (λ x. Self.codec.Fits x × (length (Self.codec.spelling x) ≤ 3 * length bytes.now)) }
        // What is in the grammar is read, unless memory runs out.
        ensures only { (x : Self) → Self.codec.IsDer bytes.now x → Answers TicketFault.NoMemory result (Ok x) }
        // Where the first fault is.
        ensures exact { Answers TicketFault.NoMemory result (told (whole Self.codec bytes.now)) }
    {
        read_message(alloc, bytes)
    }

    /// The one spelling of the value.
    fn write(&self, alloc: Global) -> Result<Bytes, AllocError>
        requires fits { Self.codec.Fits self.now }
        requires short { length (Self.codec.spelling self.now) < 2 ^ 32 }
        ensures ok { IfOk result (λ bytes. bytes ≡ Self.codec.spelling self.now) }
    {
        write(alloc, self)
    }
}

/// Every list.
impl<T: Form> Message for Items<T> {
    fn allocator(&self) -> Global {
        self.allocator()
    }
}

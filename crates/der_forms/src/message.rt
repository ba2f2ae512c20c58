//! Whole messages, and what each form keeps.
ghost use Rattle.std.specs.Prelude.{◌≡◌, ◌++◌, ◌<◌, ◌≤◌, ◌*◌, ◌^◌, ℕ, List, Ok, IfOk, length};
ghost use Rattle.der_core.specs.Codec.{whole};
ghost use Rattle.der_core.specs.Laws.{IsBytes};
ghost use Rattle.der_forms.specs.Reads.{Reads};

use crate::form::Form;
use crate::read_fault::ReadFault;
use der_core::{Reader, Writer};
use krb_names::{Bytes, Items};
use std::alloc::{AllocError, Global};

/// The value that the bytes are, all of the bytes.
pub fn read<T: Form>(alloc: Global, bytes: &[u8]) -> Result<T, ReadFault>
    requires { length bytes.now < 2 ^ 32 }
    // What is read is in the grammar, and can be written in at most three times as many bytes.
    ensures found { IfOk result (λ x. T.codec.IsDer bytes.now x) }
    ensures value { IfOk result (λ x. T.codec.Fits x × (length (T.codec.spelling x) ≤ 3 * length bytes.now)) }
    // What is in the grammar is read, unless memory runs out.
    ensures only { (x : T) → T.codec.IsDer bytes.now x → Reads result (Ok x) }
    // Which fault it is, and where.
    ensures exact { Reads result (whole T.codec bytes.now) }
{
    read_whole(alloc, bytes)
}

fn read_whole<T: Form>(alloc: Global, bytes: &[u8]) -> Result<T, ReadFault>
    requires { length bytes.now < 2 ^ 32 }
    ensures { Reads result (whole T.codec bytes.now) }
{
    let mut from = Reader::new(bytes);
    let value = T::read_from(alloc, &mut from)?;
    from.done()?;
    Ok(value)
}

/// The bytes of a value, in its one spelling.
pub fn write<T: Form>(alloc: Global, value: &T) -> Result<Bytes, AllocError>
    requires fits { T.codec.Fits value.now }
    requires short { length (T.codec.spelling value.now) < 2 ^ 32 }
    ensures ok { IfOk result (λ bytes. bytes ≡ T.codec.spelling value.now) }
{
    let mut to = Writer::new(alloc);
    value.write_to(&mut to)?;
    Ok(Items::from_vec(to.into_vec()))
}

/// What each form keeps.
pub fn keeps_laws<T: Form>()
    // What is written is in the grammar.
    ensures ok { (x : T) → T.codec.Fits x → length (T.codec.spelling x) < 2 ^ 32 → T.codec.IsDer (T.codec.spelling x) x }
    // And it is read again.
    ensures value { (x : T) → T.codec.Fits x → length (T.codec.spelling x) < 2 ^ 32 → whole T.codec (T.codec.spelling x) ≡ Ok x }
    // No bytes of the form begin with others of it, so no spelling is a front of another, and bytes have at most one reading.
    ensures only { (a b u v : List ℕ) (x y : T) → T.codec.IsDer a x → T.codec.IsDer b y → a ++ u ≡ b ++ v → (a ≡ b) × (x ≡ y) }
{}

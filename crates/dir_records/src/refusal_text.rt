//! Causes and places in words.
ghost use Rattle.std.specs.Prelude.{◌≡◌, ◌++◌, decimal, OnOk, string_bytes};
ghost use Rattle.dir_records.specs.RefusalTexts.{cause_text, place_text};

use crate::refusal::{DirCause, DirPlace};
use krb_names::push_number;
use std::alloc::AllocError;

/// A cause's name, as it is printed.
pub fn cause_text(cause: DirCause) -> &'static str
    ensures { result.now ≡ cause_text cause }
{
    match cause {
        DirCause::NotJson => "NotJson",
        DirCause::MissingField => "MissingField",
        DirCause::BadField => "BadField",
        DirCause::Duplicate => "Duplicate",
        DirCause::SameKey => "SameKey",
        DirCause::UnknownRef => "UnknownRef",
        DirCause::TooMany => "TooMany",
        DirCause::NoMemory => "NoMemory",
    }
}

/// Adds a place, as it is printed: `whole`, `realm I`, `realm I account N`, `realm I trust N` or `line N`.
pub fn push_place(text: &mut String, place: DirPlace) -> Result<(), AllocError>
    ensures { OnOk result (string_bytes text.new ≡ string_bytes text.old ++ place_text place) }
{
    match place {
        DirPlace::Whole => text.push_str("whole"),
        DirPlace::Realm(i) => push_counted(text, "realm ", i),
        DirPlace::Account(i, n) => {
            push_counted(text, "realm ", i)?;
            push_counted(text, " account ", n)
        }
        DirPlace::Trust(i, n) => {
            push_counted(text, "realm ", i)?;
            push_counted(text, " trust ", n)
        }
        DirPlace::Line(n) => push_counted(text, "line ", n),
    }
}

fn push_counted(text: &mut String, what: &str, number: u32) -> Result<(), AllocError>
    ensures { OnOk result (string_bytes text.new ≡ string_bytes text.old ++ (what.now ++ decimal number)) }
{
    text.push_str(what)?;
    push_number(text, u64::from(number))
}

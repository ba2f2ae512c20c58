//! The directory of a text.
ghost use Rattle.std.specs.Prelude.{◌≡◌, ◌≢◌, ◌≤◌, length, Ok, Err, IfOk, MatchResult};
ghost use Rattle.serde_json.specs.View.{items_view, view};
ghost use Rattle.dir_text.specs.DirectoryText.{directory_of, json_of, or_not_json, realms_in, some_of, value_of};
ghost use Rattle.dir_records.specs.IsDirectory.{IsDirectory};
ghost use Rattle.dir_records.specs.WellFormed.{no_memory};
ghost use Rattle.dir_text.specs.Gives.{Gives};

use crate::lists::entries_of;
use crate::members::{check_members, check_object, required};
use crate::realm::realms_of;
use dir_core::{DirCause, DirPlace, DirRefusal, Directory, RealmRec};
use krb_names::Items;
use serde_json::Value;
use std::alloc::{AllocError, Global};

/// The longest text of a directory, in bytes.
const MAX_TEXT: usize = 16_777_216;

/// Reads the text of a directory.
///
/// # Errors
/// The first fault: TooMany at the whole where the text is above 16,777,216 bytes; NotJson at the whole where it is no
/// JSON; then the faults of members from top to bottom; then what `Directory::new` refuses. NoMemory at the whole.
pub fn read_directory(alloc: Global, text: &[u8]) -> Result<Directory, DirRefusal>
    ensures exact { Gives result (directory_of text.now) }
    ensures well { IfOk result IsDirectory }
{
    let directory = directory_of(alloc, text)?;
    directory.keeps_directory();
    Ok(directory)
}

fn directory_of(alloc: Global, text: &[u8]) -> Result<Directory, DirRefusal>
    ensures { Gives result (directory_of text.now) }
{
    let value = value_of(alloc, text)?;
    let realms = realms_in(alloc, &value)?;
    Directory::new(alloc, realms.into_vec())
}

/// The realms of the top object, from top to bottom.
#[tactic(auto, unfolding(crate::specs::DirectoryText::realms_in))]
fn realms_in(alloc: Global, value: &Value) -> Result<Items<RealmRec>, DirRefusal>
    ensures { Gives result (realms_in (view value.now)) }
{
    check_object(DirPlace::Whole, value)?;
    let member = required(DirPlace::Whole, value.get("realms"))?;
    let values = some_of(entries_of(DirPlace::Whole, 64, member)?)?;
    let realms = realms_of(alloc, values)?;
    check_members(alloc, DirPlace::Whole, value, &["realms"])?;
    Ok(realms)
}

fn some_of(values: &[Value]) -> Result<&[Value], DirRefusal>
    ensures few { IfOk result (λ found. length found.now ≤ length values.now) }
    ensures value { let answer = some_of (items_view values.now) in MatchResult result (λ found. answer ≡ Ok (items_view found.now)) (λ refusal. answer ≡ Err refusal) }
{
    if values.is_empty() {
        return Err(DirRefusal {
            cause: DirCause::MissingField,
            place: DirPlace::Whole,
        });
    }
    Ok(values)
}

/// The JSON value of a text.
#[tactic(auto, unfolding(crate::specs::DirectoryText::value_of))]
fn value_of(alloc: Global, text: &[u8]) -> Result<Value, DirRefusal>
    ensures { let answer = value_of text.now in MatchResult result (λ value. answer ≡ Ok (view value)) (λ refusal. refusal ≢ no_memory → answer ≡ Err refusal) }
{
    if text.len() > MAX_TEXT {
        return Err(DirRefusal {
            cause: DirCause::TooMany,
            place: DirPlace::Whole,
        });
    }
    parse_json(alloc, text)
}

fn parse_json(alloc: Global, text: &[u8]) -> Result<Value, DirRefusal>
    ensures { let answer = or_not_json (json_of text.now) in MatchResult result (λ value. answer ≡ Ok (view value)) (λ refusal. refusal ≢ no_memory → answer ≡ Err refusal) }
{
    match str::from_utf8(text) {
        Ok(text) => match Value::from_str(alloc, text) {
            Ok(value) => Ok(value),
            Err(fault) => Err(if fault.is_memory() {
                DirRefusal::from(AllocError)
            } else {
                not_json()
            }),
        },
        Err(_) => Err(not_json()),
    }
}

fn not_json() -> DirRefusal
    ensures { result ≡ record { cause = DirCause.NotJson; place = DirPlace.Whole } }
{
    DirRefusal {
        cause: DirCause::NotJson,
        place: DirPlace::Whole,
    }
}

//! One change line.
ghost use Rattle.std.specs.Prelude.{◌≡◌, ◌∷◌, map, Ok, Err, IfOk, MatchResult};
ghost use Rattle.change_lines.specs.ChangeLines.{add_account, change_by_word, change_by_words, change_of, group_entry, key_in, of_entry, reach_entry, remove_account, service_entry, set_key, set_life, set_mark, setting_in, sid_entry, text_of, words_of};
ghost use Rattle.change_lines.specs.Gives.{Gives};

use crate::fields::{
    account_fields, key_of, mark_of, number_of, realm_of, service_of, sid_of, switch_of, trust_of,
};
use dir_records::{Change, DirCause, KeyRec, Mark};
use krb_names::{Sid, Spn, Text};
use std::alloc::{AllocError, Global};

/// The longest that tickets may last, in seconds.
const MAX_LIFE: u32 = 31_536_000;

/// Reads a line, without its newline: a word and its fields, with exactly one space between.
///
/// # Errors
/// `BadField` where the line is no UTF-8 or says no change; `NoMemory`.
#[tactic(auto, unfolding(crate::specs::ChangeLines::change_of))]
pub fn read_change(alloc: Global, line: &[u8]) -> Result<Change, DirCause>
    ensures { Gives result (change_of line.now) }
{
    let text = text_of(line)?;
    change_by_words(alloc, text)
}

fn text_of(line: &[u8]) -> Result<&str, DirCause>
    ensures { MatchResult result (λ text. text_of line.now ≡ Ok text.now) (λ cause. text_of line.now ≡ Err cause) }
{
    match str::from_utf8(line) {
        Ok(text) => Ok(text),
        Err(_) => Err(DirCause::BadField),
    }
}

#[tactic(auto, unfolding(crate::specs::ChangeLines::change_by_words))]
fn change_by_words(alloc: Global, text: &str) -> Result<Change, DirCause>
    ensures { Gives result (change_by_words (words_of text.now)) }
{
    let words = split_words(alloc, text)?;
    match words.as_slice().split_first() {
        Some((word, fields)) => change_by_word(alloc, word, fields),
        None => Err(DirCause::BadField),
    }
}

fn split_words(alloc: Global, text: &str) -> Result<Vec<&str>, AllocError>
    ensures { IfOk result (λ words. map (λ word. word.now) words.items ≡ words_of text.now) }
{
    text.split(' ').collect(alloc)
}

#[tactic(auto, unfolding(crate::specs::ChangeLines::change_by_word))]
fn change_by_word(alloc: Global, word: &str, fields: &[&str]) -> Result<Change, DirCause>
    ensures { Gives result (change_by_word word.now (map (λ field. field.now) fields.now)) }
{
    match word {
        "add-account" => add_account(alloc, fields),
        "remove-account" => remove_account(alloc, fields),
        "set" => set_mark(alloc, fields),
        "set-key" => set_key(alloc, fields),
        "add-spn" => add_spn(alloc, fields),
        "remove-spn" => remove_spn(alloc, fields),
        "add-classic" => add_classic(alloc, fields),
        "remove-classic" => remove_classic(alloc, fields),
        "add-resource" => add_resource(alloc, fields),
        "remove-resource" => remove_resource(alloc, fields),
        "add-group" => add_group(alloc, fields),
        "remove-group" => remove_group(alloc, fields),
        "set-life" => set_life(alloc, fields),
        "add-reach" => add_reach(alloc, fields),
        "remove-reach" => remove_reach(alloc, fields),
        _ => Err(DirCause::BadField),
    }
}

/// ETYPE KVNO HEX
#[tactic(auto, unfolding(crate::specs::ChangeLines::key_in))]
fn key_in(alloc: Global, fields: &[&str]) -> Result<KeyRec, DirCause>
    ensures { Gives result (key_in (map (λ field. field.now) fields.now)) }
{
    match fields {
        [etype, kvno, hex] => key_of(alloc, etype, kvno, hex),
        _ => Err(DirCause::BadField),
    }
}

/// REALM NAME NUMBER ETYPE KVNO HEX
#[tactic(auto, unfolding(crate::specs::ChangeLines::add_account))]
fn add_account(alloc: Global, fields: &[&str]) -> Result<Change, DirCause>
    ensures { Gives result (add_account (map (λ field. field.now) fields.now)) }
{
    let [realm, name, number, key @ ..] = fields else {
        return Err(DirCause::BadField);
    };
    let (realm, name) = account_fields(alloc, realm, name)?;
    let number = number_of(number, 1, u32::MAX)?;
    let key = key_in(alloc, key)?;
    Ok(Change::AddAccount(realm, name, number, key))
}

/// REALM NAME
#[tactic(auto, unfolding(crate::specs::ChangeLines::remove_account))]
fn remove_account(alloc: Global, fields: &[&str]) -> Result<Change, DirCause>
    ensures { Gives result (remove_account (map (λ field. field.now) fields.now)) }
{
    let [realm, name] = fields else {
        return Err(DirCause::BadField);
    };
    let (realm, name) = account_fields(alloc, realm, name)?;
    Ok(Change::RemoveAccount(realm, name))
}

/// MARK on|off
#[tactic(auto, unfolding(crate::specs::ChangeLines::setting_in))]
fn setting_in(fields: &[&str]) -> Result<(Mark, bool), DirCause>
    ensures { result ≡ setting_in (map (λ field. field.now) fields.now) }
{
    match fields {
        [mark, switch] => Ok((mark_of(mark)?, switch_of(switch)?)),
        _ => Err(DirCause::BadField),
    }
}

/// REALM NAME MARK on|off
#[tactic(auto, unfolding(crate::specs::ChangeLines::set_mark))]
fn set_mark(alloc: Global, fields: &[&str]) -> Result<Change, DirCause>
    ensures { Gives result (set_mark (map (λ field. field.now) fields.now)) }
{
    let [realm, name, setting @ ..] = fields else {
        return Err(DirCause::BadField);
    };
    let (realm, name) = account_fields(alloc, realm, name)?;
    let (mark, on) = setting_in(setting)?;
    Ok(Change::SetMark(realm, name, mark, on))
}

/// REALM NAME ETYPE KVNO HEX
#[tactic(auto, unfolding(crate::specs::ChangeLines::set_key))]
fn set_key(alloc: Global, fields: &[&str]) -> Result<Change, DirCause>
    ensures { Gives result (set_key (map (λ field. field.now) fields.now)) }
{
    let [realm, name, key @ ..] = fields else {
        return Err(DirCause::BadField);
    };
    let (realm, name) = account_fields(alloc, realm, name)?;
    let key = key_in(alloc, key)?;
    Ok(Change::SetKey(realm, name, key))
}

/// REALM SECONDS
#[tactic(auto, unfolding(crate::specs::ChangeLines::set_life))]
fn set_life(alloc: Global, fields: &[&str]) -> Result<Change, DirCause>
    ensures { Gives result (set_life (map (λ field. field.now) fields.now)) }
{
    let [realm, seconds] = fields else {
        return Err(DirCause::BadField);
    };
    let realm = realm_of(alloc, realm)?;
    let seconds = number_of(seconds, 1, MAX_LIFE)?;
    Ok(Change::SetLife(realm, u64::from(seconds)))
}

/// REALM NAME SPN
#[tactic(auto, unfolding(crate::specs::ChangeLines::service_entry))]
fn service_entry(alloc: Global, fields: &[&str]) -> Result<(Text, Text, Spn), DirCause>
    ensures { Gives result (service_entry (map (λ field. field.now) fields.now)) }
{
    let [realm, name, spn] = fields else {
        return Err(DirCause::BadField);
    };
    let (realm, name) = account_fields(alloc, realm, name)?;
    let spn = service_of(alloc, spn)?;
    Ok((realm, name, spn))
}

/// REALM NAME SID
#[tactic(auto, unfolding(crate::specs::ChangeLines::sid_entry))]
fn sid_entry(alloc: Global, fields: &[&str]) -> Result<(Text, Text, Sid), DirCause>
    ensures { Gives result (sid_entry (map (λ field. field.now) fields.now)) }
{
    let [realm, name, sid] = fields else {
        return Err(DirCause::BadField);
    };
    let (realm, name) = account_fields(alloc, realm, name)?;
    let sid = sid_of(sid)?;
    Ok((realm, name, sid))
}

/// REALM NAME NUMBER, of a group
#[tactic(auto, unfolding(crate::specs::ChangeLines::group_entry))]
fn group_entry(alloc: Global, fields: &[&str]) -> Result<(Text, Text, u32), DirCause>
    ensures { Gives result (group_entry (map (λ field. field.now) fields.now)) }
{
    let [realm, name, number] = fields else {
        return Err(DirCause::BadField);
    };
    let (realm, name) = account_fields(alloc, realm, name)?;
    let number = number_of(number, 0, u32::MAX)?;
    Ok((realm, name, number))
}

/// REALM PARTNER REALM
#[tactic(auto, unfolding(crate::specs::ChangeLines::reach_entry))]
fn reach_entry(alloc: Global, fields: &[&str]) -> Result<(Text, Text, Text), DirCause>
    ensures { Gives result (reach_entry (map (λ field. field.now) fields.now)) }
{
    let [realm, partner, reached] = fields else {
        return Err(DirCause::BadField);
    };
    let (realm, partner) = trust_of(alloc, realm, partner)?;
    let reached = realm_of(alloc, reached)?;
    Ok((realm, partner, reached))
}

fn add_spn(alloc: Global, fields: &[&str]) -> Result<Change, DirCause>
    ensures { Gives result (of_entry Change.AddSpn (service_entry (map (λ field. field.now) fields.now))) }
{
    let (realm, name, spn) = service_entry(alloc, fields)?;
    Ok(Change::AddSpn(realm, name, spn))
}

fn remove_spn(alloc: Global, fields: &[&str]) -> Result<Change, DirCause>
    ensures { Gives result (of_entry Change.RemoveSpn (service_entry (map (λ field. field.now) fields.now))) }
{
    let (realm, name, spn) = service_entry(alloc, fields)?;
    Ok(Change::RemoveSpn(realm, name, spn))
}

fn add_classic(alloc: Global, fields: &[&str]) -> Result<Change, DirCause>
    ensures { Gives result (of_entry Change.AddClassic (service_entry (map (λ field. field.now) fields.now))) }
{
    let (realm, name, spn) = service_entry(alloc, fields)?;
    Ok(Change::AddClassic(realm, name, spn))
}

fn remove_classic(alloc: Global, fields: &[&str]) -> Result<Change, DirCause>
    ensures { Gives result (of_entry Change.RemoveClassic (service_entry (map (λ field. field.now) fields.now))) }
{
    let (realm, name, spn) = service_entry(alloc, fields)?;
    Ok(Change::RemoveClassic(realm, name, spn))
}

fn add_resource(alloc: Global, fields: &[&str]) -> Result<Change, DirCause>
    ensures { Gives result (of_entry Change.AddResource (sid_entry (map (λ field. field.now) fields.now))) }
{
    let (realm, name, sid) = sid_entry(alloc, fields)?;
    Ok(Change::AddResource(realm, name, sid))
}

fn remove_resource(alloc: Global, fields: &[&str]) -> Result<Change, DirCause>
    ensures { Gives result (of_entry Change.RemoveResource (sid_entry (map (λ field. field.now) fields.now))) }
{
    let (realm, name, sid) = sid_entry(alloc, fields)?;
    Ok(Change::RemoveResource(realm, name, sid))
}

fn add_group(alloc: Global, fields: &[&str]) -> Result<Change, DirCause>
    ensures { Gives result (of_entry Change.AddGroup (group_entry (map (λ field. field.now) fields.now))) }
{
    let (realm, name, number) = group_entry(alloc, fields)?;
    Ok(Change::AddGroup(realm, name, number))
}

fn remove_group(alloc: Global, fields: &[&str]) -> Result<Change, DirCause>
    ensures { Gives result (of_entry Change.RemoveGroup (group_entry (map (λ field. field.now) fields.now))) }
{
    let (realm, name, number) = group_entry(alloc, fields)?;
    Ok(Change::RemoveGroup(realm, name, number))
}

fn add_reach(alloc: Global, fields: &[&str]) -> Result<Change, DirCause>
    ensures { Gives result (of_entry Change.AddReach (reach_entry (map (λ field. field.now) fields.now))) }
{
    let (realm, partner, reached) = reach_entry(alloc, fields)?;
    Ok(Change::AddReach(realm, partner, reached))
}

fn remove_reach(alloc: Global, fields: &[&str]) -> Result<Change, DirCause>
    ensures { Gives result (of_entry Change.RemoveReach (reach_entry (map (λ field. field.now) fields.now))) }
{
    let (realm, partner, reached) = reach_entry(alloc, fields)?;
    Ok(Change::RemoveReach(realm, partner, reached))
}

//! Question lines: `self SERVICE USER` and `classic SERVICE USER SPN`.
ghost use Rattle.std.specs.Prelude.{◌≡◌, map, ◌∷◌, IfOk, option_map};
ghost use Rattle.krb_names.specs.Principals.{name_reading};
ghost use Rattle.krb_names.specs.Spns.{spn_reading};
ghost use Rattle.kdc_commands.specs.Questions.{classic_names, classic_question, question_by_words, question_of, readable, self_names, self_question, words_of};

use krb_names::{NameRefusal, Principal, Spn, parse_name, parse_spn};
use std::alloc::{AllocError, Global};

/// What a line asks: may this service act for this user there?
#[derive(Debug, Drop)]
pub enum Question {
    /// To itself, by S4U2self: the service and the user.
    ToSelf(Principal, Principal),
    /// To the service with this SPN, by its classic list: the service, the user and the SPN.
    Classic(Principal, Principal, Spn),
}

/// The most bytes of a question.
const MAX_LINE: usize = 4096;

/// Reads a line, which may be no question.
pub fn read_question(alloc: Global, line: &[u8]) -> Result<Option<Question>, AllocError>
    ensures { IfOk result (λ question. question ≡ question_of line.now) }
{
    match text_of(line) {
        None => Ok(None),
        Some(text) => read_text(alloc, text),
    }
}

fn text_of(line: &[u8]) -> Option<&str>
    ensures { option_map (λ text. text.now) result ≡ readable line.now }
{
    if line.len() > MAX_LINE {
        return None;
    }
    match str::from_utf8(line) {
        Err(_) => None,
        Ok(text) => Some(text),
    }
}

fn read_text(alloc: Global, text: &str) -> Result<Option<Question>, AllocError>
    ensures { IfOk result (λ question. question ≡ question_by_words (words_of text.now)) }
{
    let words = split_words(alloc, text)?;
    match words.as_slice().split_first() {
        Some((word, names)) => by_command(alloc, word, names),
        None => Ok(None),
    }
}

fn split_words(alloc: Global, text: &str) -> Result<Vec<&str>, AllocError>
    ensures { IfOk result (λ words. map (λ word. word.now) words.items ≡ words_of text.now) }
{
    text.split(' ').collect(alloc)
}

fn by_command(alloc: Global, word: &str, names: &[&str]) -> Result<Option<Question>, AllocError>
    ensures { IfOk result (λ question. question ≡ question_by_words (word.now ∷ map (λ name. name.now) names.now)) }
{
    if word == "self" {
        self_names(alloc, names)
    } else if word == "classic" {
        classic_names(alloc, names)
    } else {
        Ok(None)
    }
}

fn self_names(alloc: Global, names: &[&str]) -> Result<Option<Question>, AllocError>
    ensures { IfOk result (λ question. question ≡ self_names (map (λ name. name.now) names.now)) }
{
    match names {
        [service, user] => to_self(alloc, service, user),
        _ => Ok(None),
    }
}

fn classic_names(alloc: Global, names: &[&str]) -> Result<Option<Question>, AllocError>
    ensures { IfOk result (λ question. question ≡ classic_names (map (λ name. name.now) names.now)) }
{
    match names {
        [service, user, target] => classic(alloc, service, user, target),
        _ => Ok(None),
    }
}

fn to_self(alloc: Global, service: &str, user: &str) -> Result<Option<Question>, AllocError>
    ensures { IfOk result (λ question. question ≡ self_question (name_reading service.now) (name_reading user.now)) }
{
    match (parse_name(alloc, service), parse_name(alloc, user)) {
        (Ok(service), Ok(user)) => Ok(Some(Question::ToSelf(service, user))),
        (Err(NameRefusal::NoMemory), _) | (_, Err(NameRefusal::NoMemory)) => Err(AllocError),
        _ => Ok(None),
    }
}

fn classic(
    alloc: Global,
    service: &str,
    user: &str,
    target: &str,
) -> Result<Option<Question>, AllocError>
    ensures { IfOk result (λ question. question ≡ classic_question (name_reading service.now) (name_reading user.now) (spn_reading target.now)) }
{
    match (
        parse_name(alloc, service),
        parse_name(alloc, user),
        parse_spn(alloc, target),
    ) {
        (Ok(service), Ok(user), Ok(target)) => Ok(Some(Question::Classic(service, user, target))),
        (Err(NameRefusal::NoMemory), _, _)
        | (_, Err(NameRefusal::NoMemory), _)
        | (_, _, Err(NameRefusal::NoMemory)) => Err(AllocError),
        _ => Ok(None),
    }
}

//! The answers to question lines.
ghost use Rattle.std.specs.Prelude.{◌≡◌, ◌++◌, OnOk, IfOk};
ghost use Rattle.kdc_commands.specs.Questions.{answer_text, answer_to, outcome_of, questions, text_of};

use crate::question::{Question, read_question};
use change_lines::split_lines;
use dir_core::Directory;
use s4u_rules::{Asked, ask_classic, ask_self};
use std::alloc::{AllocError, Global};

/// The answers to all lines of the input, a line each.
pub fn answers(alloc: Global, dir: &Directory, input: &[u8]) -> Result<Vec<u8>, AllocError>
    ensures { IfOk result (λ text. text.items ≡ questions dir.now input.now) }
{
    let lines = split_lines(alloc, input)?;
    let mut text = Vec::new(alloc);
    for line in &lines {
        push_answer(alloc, &mut text, dir, line)?;
    }
    Ok(text)
}

fn push_answer(
    alloc: Global,
    text: &mut Vec<u8>,
    dir: &Directory,
    line: &[u8],
) -> Result<(), AllocError>
    ensures { OnOk result (text.new.items ≡ text.old.items ++ answer_to dir.now line.now) }
{
    let question = read_question(alloc, line)?;
    push_reply(text, dir, question)?;
    text.extend_from_slice(b"\n")
}

fn push_reply(
    text: &mut Vec<u8>,
    dir: &Directory,
    question: Option<Question>,
) -> Result<(), AllocError>
    ensures { OnOk result (text.new.items ≡ text.old.items ++ answer_text dir.now question) }
{
    match question {
        None => text.extend_from_slice(b"bad question"),
        Some(question) => push_outcome(text, answer(dir, &question)),
    }
}

fn push_outcome(text: &mut Vec<u8>, asked: Asked) -> Result<(), AllocError>
    ensures { OnOk result (text.new.items ≡ text.old.items ++ text_of asked) }
{
    match asked {
        Asked::Forwardable => text.extend_from_slice(b"allow forwardable"),
        Asked::Allowed => text.extend_from_slice(b"allow"),
        Asked::Deny(rule) => {
            text.extend_from_slice(b"deny ")?;
            text.extend_from_slice(rule.name().as_bytes())
        }
    }
}

fn answer(dir: &Directory, question: &Question) -> Asked
    ensures { result ≡ outcome_of dir.now question.now }
{
    match question {
        Question::ToSelf(service, user) => ask_self(dir, service, user),
        Question::Classic(service, user, target) => ask_classic(dir, service, user, target),
    }
}

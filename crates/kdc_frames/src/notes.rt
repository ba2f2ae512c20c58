//! The notes of a run.
ghost use Rattle.std.specs.Prelude.{◌≡◌, ◌++◌, OnOk, codes, string_bytes};
ghost use Rattle.kdc_frames.specs.Notes.{branch_text, leave_line, note_line, outcome_text, refusal_line, refusal_text};

use crate::leave::Leave;
use dir_records::{DirRefusal, cause_text, push_place};
use kdc_records::{Branch, Rule};
use std::alloc::AllocError;
use tgs_core::Note;

/// Adds the note of a request: its branch, and `ok` or the rule that denied it.
#[tactic(auto, unfolding(crate::specs::Notes::note_line))]
pub fn push_note(text: &mut String, note: Note) -> Result<(), AllocError>
    ensures { OnOk result (string_bytes text.new ≡ string_bytes text.old ++ note_line note) }
{
    text.push_str(branch_text(note.branch))?;
    text.push_str(" ")?;
    text.push_str(outcome_text(note.rule))?;
    text.push_str("\n")
}

/// Adds the note of a batch of changes that is refused.
pub fn push_refusal(text: &mut String, refusal: DirRefusal) -> Result<(), AllocError>
    ensures { OnOk result (string_bytes text.new ≡ string_bytes text.old ++ refusal_line refusal) }
{
    push_line(text, "changes refused ", refusal)
}

fn push_line(text: &mut String, what: &str, refusal: DirRefusal) -> Result<(), AllocError>
    ensures { OnOk result (string_bytes text.new ≡ string_bytes text.old ++ (what.now ++ refusal_text refusal ++ codes "\n")) }
{
    text.push_str(what)?;
    push_reason(text, refusal)?;
    text.push_str("\n")
}

#[tactic(auto, unfolding(crate::specs::Notes::refusal_text))]
fn push_reason(text: &mut String, refusal: DirRefusal) -> Result<(), AllocError>
    ensures { OnOk result (string_bytes text.new ≡ string_bytes text.old ++ refusal_text refusal) }
{
    text.push_str(cause_text(refusal.cause))?;
    text.push_str(" at ")?;
    push_place(text, refusal.place)
}

/// Adds the note of a caller that is left before its end.
pub fn push_leave(text: &mut String, leave: Leave) -> Result<(), AllocError>
    ensures { OnOk result (string_bytes text.new ≡ string_bytes text.old ++ leave_line leave) }
{
    text.push_str(leave_text(leave))
}

fn leave_text(leave: Leave) -> &'static str
    ensures { result.now ≡ leave_line leave }
{
    match leave {
        Leave::Fault => "caller left: fault\n",
        Leave::FrameCut => "caller left: frame cut\n",
        Leave::FrameTooLong => "caller left: frame too long\n",
        Leave::Budget => "caller left: budget\n",
    }
}

fn branch_text(branch: Option<Branch>) -> &'static str
    ensures { result.now ≡ branch_text branch }
{
    match branch {
        None => "none",
        Some(Branch::Initial) => "as",
        Some(Branch::Ordinary) => "tgs",
        Some(Branch::SelfTicket) => "self",
        Some(Branch::Proxy) => "proxy",
    }
}

fn outcome_text(rule: Option<Rule>) -> &'static str
    ensures { result.now ≡ outcome_text rule }
{
    match rule {
        None => "ok",
        Some(rule) => rule.name(),
    }
}

//! The lines that are printed of a ticket. Each call adds one or more to the end of a text.
ghost use Rattle.std.specs.Prelude.{◌≡◌, ◌++◌, OnOk, string_bytes};
ghost use Rattle.ticket_explain.specs.Lines.{client_line, delegation_line, flags_line, holder_line, record_lines, subject_line, ticket_line, times_line, transited_line};

use crate::words::{flag_names, push_delegation, push_kvno, push_listed, push_time};
use itoa::Buffer;
use kdc_records::TicketRec;
use krb_names::{push_at_realm, push_name, push_number, push_sid};
use krb_tickets::Ticket;
use std::alloc::{AllocError, Global};

/// `ticket NAME@REALM etype E kvno V`.
#[tactic(auto, unfolding(crate::specs::Lines::ticket_line))]
pub(crate) fn push_ticket_line(text: &mut String, ticket: &Ticket) -> Result<(), AllocError>
    ensures { OnOk result (string_bytes text.new ≡ string_bytes text.old ++ ticket_line ticket.now) }
{
    let mut etype = Buffer::new();
    text.push_str("ticket ")?;
    push_name(text, &ticket.sname)?;
    text.push_str(" etype ")?;
    text.push_str(etype.format(ticket.sealed.etype))?;
    text.push_str(" kvno ")?;
    push_kvno(text, ticket.sealed.kvno)?;
    text.push_str("\n")
}

/// `holder HOLDER`.
#[tactic(auto, unfolding(crate::specs::Lines::holder_line))]
pub(crate) fn push_holder_line(text: &mut String, holder: &str) -> Result<(), AllocError>
    ensures { OnOk result (string_bytes text.new ≡ string_bytes text.old ++ holder_line holder.now) }
{
    text.push_str("holder ")?;
    text.push_str(holder)?;
    text.push_str("\n")
}

/// The lines of what the ticket says: client, subject, flags, times, transited, delegation.
#[tactic(auto, unfolding(crate::specs::Lines::record_lines))]
pub(crate) fn push_record_lines(
    alloc: Global,
    text: &mut String,
    rec: &TicketRec,
) -> Result<(), AllocError>
    ensures { OnOk result (string_bytes text.new ≡ string_bytes text.old ++ record_lines rec.now) }
{
    push_client_line(text, rec)?;
    push_subject_line(text, rec)?;
    push_flags_line(alloc, text, rec)?;
    push_times_line(text, rec)?;
    push_transited_line(text, rec)?;
    push_delegation_line(text, rec)
}

/// `client NAME@REALM`.
#[tactic(auto, unfolding(crate::specs::Lines::client_line))]
fn push_client_line(text: &mut String, rec: &TicketRec) -> Result<(), AllocError>
    ensures { OnOk result (string_bytes text.new ≡ string_bytes text.old ++ client_line rec.now) }
{
    text.push_str("client ")?;
    push_name(text, &rec.client)?;
    text.push_str("\n")
}

/// `subject NAME@REALM SID control C`.
#[tactic(auto, unfolding(crate::specs::Lines::subject_line))]
fn push_subject_line(text: &mut String, rec: &TicketRec) -> Result<(), AllocError>
    ensures { OnOk result (string_bytes text.new ≡ string_bytes text.old ++ subject_line rec.now) }
{
    let subject = &rec.subject;
    text.push_str("subject ")?;
    push_at_realm(text, subject.name.as_str(), subject.realm.as_str())?;
    text.push_str(" ")?;
    push_sid(text, &subject.sid)?;
    text.push_str(" control ")?;
    push_number(text, u64::from(subject.control))?;
    text.push_str("\n")
}

/// `flags F`.
#[tactic(auto, unfolding(crate::specs::Lines::flags_line))]
fn push_flags_line(alloc: Global, text: &mut String, rec: &TicketRec) -> Result<(), AllocError>
    ensures { OnOk result (string_bytes text.new ≡ string_bytes text.old ++ flags_line rec.now) }
{
    let names = flag_names(alloc, rec.flags)?;
    text.push_str("flags ")?;
    push_listed(text, ',', names.as_slice())?;
    text.push_str("\n")
}

/// `times AUTH START END`.
#[tactic(auto, unfolding(crate::specs::Lines::times_line))]
fn push_times_line(text: &mut String, rec: &TicketRec) -> Result<(), AllocError>
    ensures { OnOk result (string_bytes text.new ≡ string_bytes text.old ++ times_line rec.now) }
{
    text.push_str("times ")?;
    push_time(text, rec.auth)?;
    text.push_str(" ")?;
    push_time(text, rec.start)?;
    text.push_str(" ")?;
    push_time(text, rec.end)?;
    text.push_str("\n")
}

/// `transited LIST`.
#[tactic(auto, unfolding(crate::specs::Lines::transited_line))]
fn push_transited_line(text: &mut String, rec: &TicketRec) -> Result<(), AllocError>
    ensures { OnOk result (string_bytes text.new ≡ string_bytes text.old ++ transited_line rec.now) }
{
    text.push_str("transited ")?;
    push_listed(text, ',', rec.transited.as_slice())?;
    text.push_str("\n")
}

/// `delegation TARGET via S1 S2`.
#[tactic(auto, unfolding(crate::specs::Lines::delegation_line))]
fn push_delegation_line(text: &mut String, rec: &TicketRec) -> Result<(), AllocError>
    ensures { OnOk result (string_bytes text.new ≡ string_bytes text.old ++ delegation_line rec.now) }
{
    text.push_str("delegation ")?;
    push_delegation(text, &rec.delegation)?;
    text.push_str("\n")
}

//! A ticket in words.
ghost use Rattle.std.specs.Prelude.{◌≡◌, ◌+◌, ◌<◌, ◌^◌, IfOk, length};
ghost use Rattle.kdc_prelude.specs.Answers.{Answers};
ghost use Rattle.kdc_prelude.specs.Lines.{without_last_newline};
ghost use Rattle.der_core.specs.Codec.{whole};
ghost use Rattle.krb_tickets.specs.EncTicketPart.{enc_ticket_part};
ghost use Rattle.krb_tickets.specs.Ticket.{ticket};
ghost use Rattle.ticket_laws.specs.Writable.{IsWritablePart};
ghost use Rattle.ticket_explain.specs.Explained.{denied, explained, explained_reading, explained_ticket, lines, opening_rule, told_of, told_opened};

use crate::fault::ExplainFault;
use crate::holders::{Held, find_holder};
use crate::lines::{push_holder_line, push_record_lines, push_ticket_line};
use dir_core::{Directory, Rule};
use hex::FromHexError;
use kdc_records::TicketRec;
use krb_names::Text;
use krb_tickets::{Ticket, TicketFault, read_ticket};
use std::alloc::{AllocError, Global};
use ticket_codec::{OpenFault, Opened, Unopened, certify, open_held};

/// The lines that are printed of a ticket, which is given as one line of hex, in either case and with or without a newline at
/// its end. It is opened with the key of the one that its realm and name give as the directory is now.
///
/// # Errors
/// `Deny` of the first rule that refuses it: `U3` where the bytes are no hex or no ticket, `P2` where its realm and name give no
/// holder of a key, `P3` where its key version or type is not the holder's, `P4` where it does not open or what was sealed does
/// not read, `P5` where its PAC does not read or a signature is wrong; `NoMemory`.
pub fn explain(alloc: Global, dir: &Directory, bytes: &[u8]) -> Result<Text, ExplainFault>
    requires { length bytes.now < 2 ^ 32 }
    ensures exact { Answers ExplainFault.NoMemory result (denied (explained dir.now bytes.now)) }
{
    match hex::decode(alloc, without_last_newline(bytes)) {
        Ok(ticket) => explain_bytes(alloc, dir, ticket.as_slice()),
        Err(FromHexError::OutOfMemory) => Err(ExplainFault::NoMemory),
        Err(_) => Err(ExplainFault::Deny(Rule::U3)),
    }
}

fn without_last_newline(bytes: &[u8]) -> &[u8]
    ensures { result.now ≡ without_last_newline bytes.now }
{
    match bytes {
        [line @ .., b'\n'] => line,
        _ => bytes,
    }
}

fn explain_bytes(alloc: Global, dir: &Directory, bytes: &[u8]) -> Result<Text, ExplainFault>
    requires { length bytes.now < 2 ^ 31 }
    ensures { Answers ExplainFault.NoMemory result (denied (explained_reading dir.now (whole ticket bytes.now))) }
{
    match read_ticket(alloc, bytes) {
        Ok(ticket) => explain_ticket(alloc, dir, &ticket),
        Err(TicketFault::Malformed(_)) => Err(ExplainFault::Deny(Rule::U3)),
        Err(TicketFault::NoMemory) => Err(ExplainFault::NoMemory),
    }
}

fn explain_ticket(alloc: Global, dir: &Directory, ticket: &Ticket) -> Result<Text, ExplainFault>
    requires { length ticket.now.sealed.cipher < 2 ^ 31 }
    ensures { Answers ExplainFault.NoMemory result (denied (explained_ticket dir.now ticket.now)) }
{
    match find_holder(alloc, dir, ticket)? {
        Some(held) => tell(alloc, dir, ticket, held),
        None => Err(ExplainFault::Deny(Rule::P2)),
    }
}

/// The rule that refuses a ticket that does not open.
fn opening_rule(unopened: Unopened) -> Rule
    ensures { result ≡ opening_rule unopened }
{
    match unopened {
        Unopened::WrongKey => Rule::P3,
        Unopened::Unreadable => Rule::P4,
    }
}

/// What is told of a ticket whose holder is known.
#[tactic(auto, unfolding(crate::specs::Explained::told_of))]
fn tell(alloc: Global, dir: &Directory, ticket: &Ticket, held: Held) -> Result<Text, ExplainFault>
    requires realm { held.realm < length dir.now.realms }
    requires short { length ticket.now.sealed.cipher < 2 ^ 31 }
    ensures { Answers ExplainFault.NoMemory result (denied (told_of dir.now ticket.now held)) }
{
    match open_held(alloc, ticket, held.holding) {
        Ok(opened) => tell_opened(alloc, dir, held.realm, ticket, held.text.as_str(), &opened),
        Err(OpenFault::Unopened(unopened)) => Err(ExplainFault::Deny(opening_rule(unopened))),
        Err(OpenFault::NoMemory) => Err(ExplainFault::NoMemory),
    }
}

/// What is told of a ticket of the realm at an index that was opened.
#[tactic(auto, unfolding(crate::specs::Explained::told_opened))]
fn tell_opened(
    alloc: Global,
    dir: &Directory,
    at: u32,
    ticket: &Ticket,
    holder: &str,
    opened: &Opened,
) -> Result<Text, ExplainFault>
    requires realm { at < length dir.now.realms }
    requires writable { IsWritablePart opened.now.part }
    requires short { length (enc_ticket_part.spelling opened.now.part) + 16 < 2 ^ 32 }
    ensures { Answers ExplainFault.NoMemory result (denied (told_opened dir.now at ticket.now holder.now opened.now)) }
{
    match certify(alloc, dir, at, opened)? {
        Some(certified) => Ok(lines(alloc, ticket, holder, &certified.rec)?),
        None => Err(ExplainFault::Deny(Rule::P5)),
    }
}

#[tactic(auto, unfolding(crate::specs::Explained::lines))]
fn lines(alloc: Global, ticket: &Ticket, holder: &str, rec: &TicketRec) -> Result<Text, AllocError>
    ensures { IfOk result (λ text. text ≡ lines ticket.now holder.now rec.now) }
{
    let mut text = String::new(alloc);
    push_ticket_line(&mut text, ticket)?;
    push_holder_line(&mut text, holder)?;
    push_record_lines(alloc, &mut text, rec)?;
    Ok(Text::from_string(text))
}

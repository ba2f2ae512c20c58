//! What holds of the parts of records. These functions do nothing.

ghost use Rattle.std.specs.Prelude.{◌≡◌, ◌<◌, ◌^◌, Some, None, Ok, length, true};
ghost use Rattle.krb_names.specs.declared.key.Key.{Key};
ghost use Rattle.krb_tickets.specs.declared.enc_ticket_part.EncTicketPart.{EncTicketPart};
ghost use Rattle.krb_tickets.specs.EncTicketPart.{enc_ticket_part};
ghost use Rattle.krb_tickets.specs.Pac.{pac_of, without_pac};
ghost use Rattle.pac_buffers.specs.Buffers.{pac};
ghost use Rattle.pac_sign.specs.Verified.{verified};
ghost use Rattle.ticket_laws.specs.Writable.{IsWritablePart};
ghost use Rattle.kdc_records.specs.declared.holder.Holder.{Holder};
ghost use Rattle.kdc_records.specs.declared.ticket_rec.TicketRec.{TicketRec};
ghost use Rattle.ticket_parts.specs.declared.reading.ReadRecord.{ReadRecord};
ghost use Rattle.ticket_parts.specs.Parts.{is_service, part, signed_pac, signed_part};
ghost use Rattle.ticket_parts.specs.Records.{record_of};
ghost use Rattle.ticket_parts.specs.Sound.{IsSound};

/// Of a sound record's part the same record is told but for its holder, which is the one that is named: whoever that is, and
/// whatever the two keys. The client information agrees.
pub fn record_law()
    ensures value { (t : TicketRec) (held : Holder) (holder realm : Key) → IsSound t → record_of held (part t holder realm) ≡ Some (record { rec = record t { holder = held }; agrees = true }) }
{}

/// A record that is told of a part that can be written is sound, so that a part can be made of it; soundness says nothing of
/// the holder, which may be any. The holder is the one that is named, and another one's record differs in that alone.
pub fn read_law()
    ensures sound { (held : Holder) (p : EncTicketPart) (read : ReadRecord) → IsWritablePart p → record_of held p ≡ Some read → IsSound read.rec }
    ensures holder { (held : Holder) (p : EncTicketPart) (read : ReadRecord) → record_of held p ≡ Some read → read.rec.holder ≡ held }
    ensures others { (held other : Holder) (p : EncTicketPart) (read : ReadRecord) → record_of held p ≡ Some read → record_of other p ≡ Some (record read { rec = record read.rec { holder = other } }) }
{}

/// The signatures of a sound record's part are right, whatever the two keys.
pub fn signatures_law()
    ensures found { (t : TicketRec) (holder realm : Key) → IsSound t → pac_of (part t holder realm) ≡ Some (pac (signed_pac t holder realm)) }
    // All that the ticket has.
    ensures value { (t : TicketRec) (holder realm : Key) → IsSound t → verified holder (Some realm) (signed_part t) (pac (signed_pac t holder realm)) ≡ Ok tt }
    // The server signature alone, which is all that another realm can compare.
    ensures server { (t : TicketRec) (holder realm : Key) → IsSound t → verified holder None None (pac (signed_pac t holder realm)) ≡ Ok tt }
    // A service ticket's ticket signature is over the part without its PAC.
    ensures ticket { (t : TicketRec) (holder realm : Key) → IsSound t → is_service t.holder ≡ true → signed_part t ≡ Some (enc_ticket_part.spelling (without_pac (part t holder realm))) }
{}

/// The part of a sound record can be written, whatever the two keys.
pub fn part_law()
    ensures well { (t : TicketRec) (holder realm : Key) → IsSound t → IsWritablePart (part t holder realm) }
    ensures fits { (t : TicketRec) (holder realm : Key) → IsSound t → enc_ticket_part.Fits (part t holder realm) }
    ensures short { (t : TicketRec) (holder realm : Key) → IsSound t → length (enc_ticket_part.spelling (part t holder realm)) < 2 ^ 24 }
{}

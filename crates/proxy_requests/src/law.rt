//! What is known of a request for S4U2proxy whose evidence keeps its rules.
ghost use Rattle.std.specs.Prelude.{◌≡◌, ℕ, None};
ghost use Rattle.kdc_prelude.specs.Verdicts.{first_failing};
ghost use Rattle.krb_messages.specs.declared.kdc_req.KdcReq.{KdcReq};
ghost use Rattle.kdc_records.specs.declared.ticket_rec.TicketRec.{TicketRec};
ghost use Rattle.dir_records.specs.DirectoryValue.{DirectoryValue};
ghost use Rattle.proxy_requests.specs.Evidences.{evidence_reading_rules, EvidenceKept};

/// A request for S4U2proxy that none of P1 to P5 denies has one additional ticket, and that shows its evidence in the role
/// that the requestor gives it.
pub fn read_evidences_keep_rules()
    ensures kept { (dir : DirectoryValue) (at : ℕ) (message : KdcReq) (header : TicketRec) → first_failing (evidence_reading_rules dir at message header) ≡ None → EvidenceKept dir at message header }
{}

//! What holds of the forms of messages.
ghost use Rattle.der_core.specs.Laws.{IsCodec};
ghost use Rattle.der_forms.specs.Lists.{sequence_of};
ghost use Rattle.krb_messages.specs.ApRep.{ap_rep};
ghost use Rattle.krb_messages.specs.ApReq.{ap_req};
ghost use Rattle.krb_messages.specs.Authenticator.{authenticator};
ghost use Rattle.krb_messages.specs.Checksum.{checksum_form};
ghost use Rattle.krb_messages.specs.EncApRep.{enc_ap_rep};
ghost use Rattle.krb_messages.specs.EncKdcRep.{enc_kdc_rep};
ghost use Rattle.krb_messages.specs.EtypeInfo2Entry.{etype_info2_entry};
ghost use Rattle.krb_messages.specs.KdcRep.{kdc_rep};
ghost use Rattle.krb_messages.specs.KdcReq.{kdc_req};
ghost use Rattle.krb_messages.specs.KdcReqBody.{kdc_req_body};
ghost use Rattle.krb_messages.specs.KrbError.{krb_error};
ghost use Rattle.krb_messages.specs.LastReq.{last_req};
ghost use Rattle.krb_messages.specs.PaData.{pa_data};
ghost use Rattle.krb_messages.specs.PaEncTsEnc.{pa_enc_ts_enc};

/// For each message: what is read is of the form, what is of the form is read, what is written is of the form, and what is of
/// the form can be written.
#[tactic(auto, using(crate::specs::Laws::pa_data_lawful, crate::specs::Laws::pa_items_lawful, crate::specs::Laws::checksum_lawful, crate::specs::Laws::last_req_lawful, crate::specs::Laws::etype_info2_entry_lawful, crate::specs::Laws::etype_info2_lawful, crate::specs::Laws::pa_enc_ts_enc_lawful, crate::specs::Laws::kdc_req_body_lawful, crate::specs::Laws::kdc_req_lawful, crate::specs::Laws::kdc_rep_lawful, crate::specs::Laws::enc_kdc_rep_lawful, crate::specs::Laws::krb_error_lawful, crate::specs::Laws::ap_req_lawful, crate::specs::Laws::authenticator_lawful, crate::specs::Laws::ap_rep_lawful, crate::specs::Laws::enc_ap_rep_lawful))]
pub fn messages_keep_laws()
    ensures pa_data { IsCodec pa_data }
    ensures pa_items { IsCodec (sequence_of pa_data) }
    ensures checksum { IsCodec checksum_form }
    ensures last_req { IsCodec last_req }
    ensures etype_info2_entry { IsCodec etype_info2_entry }
    ensures etype_info2 { IsCodec (sequence_of etype_info2_entry) }
    ensures pa_enc_ts_enc { IsCodec pa_enc_ts_enc }
    ensures kdc_req_body { IsCodec kdc_req_body }
    ensures kdc_req { IsCodec kdc_req }
    ensures kdc_rep { IsCodec kdc_rep }
    ensures enc_kdc_rep { IsCodec enc_kdc_rep }
    ensures krb_error { IsCodec krb_error }
    ensures ap_req { IsCodec ap_req }
    ensures authenticator { IsCodec authenticator }
    ensures ap_rep { IsCodec ap_rep }
    ensures enc_ap_rep { IsCodec enc_ap_rep }
{}

//! What holds of the forms of S4U's padata.
ghost use Rattle.der_core.specs.Laws.{IsCodec};
ghost use Rattle.s4u_padata.specs.ForUser.{for_user};
ghost use Rattle.s4u_padata.specs.PacOptions.{pac_options};
ghost use Rattle.s4u_padata.specs.UserId.{user_id};
ghost use Rattle.s4u_padata.specs.X509User.{x509_user};

/// For each: what is read is of the form, what is of the form is read, what is written is of the form, and what is of the form
/// can be written.
#[tactic(auto, using(crate::specs::Laws::for_user_lawful, crate::specs::Laws::pac_options_lawful, crate::specs::Laws::user_id_lawful, crate::specs::Laws::x509_user_lawful))]
pub fn padata_keep_laws()
    ensures for_user { IsCodec for_user }
    ensures pac_options { IsCodec pac_options }
    ensures user_id { IsCodec user_id }
    ensures x509_user { IsCodec x509_user }
{}

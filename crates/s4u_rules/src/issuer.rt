//! The realm that issued a cross-realm ticket (RFC 4120, section 3.3.3.2). Takes no memory.
ghost use Rattle.std.specs.Prelude.{◌≡◌};
ghost use Rattle.std.specs.Option.{option_copied};
ghost use Rattle.route_rules.specs.Cross.{issuing_realm};
ghost use Rattle.s4u_rules.specs.TgsRules.{issuer_is_appended};

use dir_core::has_text;
use kdc_records::{Holder, TicketRec};
use krb_names::Text;

/// The realm that issued a cross-realm ticket. None of another ticket.
pub fn issuing_realm(holder: &Holder) -> Option<&Text>
    ensures { option_copied result ≡ issuing_realm holder.now }
{
    match holder {
        Holder::Trust { realm, .. } => Some(realm),
        Holder::Krbtgt { .. } | Holder::Account { .. } => None,
    }
}

/// Whether the realm that issued a cross-realm ticket comes behind the realms on its way: it is not the user's, and not
/// among them.
pub fn issuer_is_appended(rec: &TicketRec) -> bool
    ensures { result ≡ issuer_is_appended rec.now }
{
    match issuing_realm(&rec.holder) {
        Some(issuer) => {
            issuer.as_str() != rec.subject.realm.as_str()
                && !has_text(rec.transited.as_slice(), issuer.as_str())
        }
        None => false,
    }
}

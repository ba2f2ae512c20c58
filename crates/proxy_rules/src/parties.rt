//! The requestor (MS-SFU, section 3.2.5.2).
ghost use Rattle.std.specs.Prelude.{◌≡◌, ◌<◌, length};
ghost use Rattle.std.specs.Option.{option_copied};
ghost use Rattle.s4u_rules.specs.TgsRules.{is_local, requestor_record};
ghost use Rattle.proxy_rules.specs.ProxyRules.{requestor_is_local};

use dir_core::{Account, Directory, RealmRec};
use kdc_records::TicketRec;
use route_rules::requestor_account;

/// Whether the requestor, the header's client, is of a realm.
pub(crate) fn is_local(realm: &RealmRec, header: &TicketRec) -> bool
    ensures { result ≡ is_local realm.now header.now }
{
    header.client.realm == realm.name
}

/// Whether it is of the realm at an index.
pub(crate) fn requestor_is_local(dir: &Directory, realm: u32, header: &TicketRec) -> bool
    requires { realm < length dir.now.realms }
    ensures { result ≡ requestor_is_local dir.now realm header.now }
{
    is_local(dir.realm(realm), header)
}

/// The account of a requestor of the realm at an index.
pub(crate) fn requestor_record<'a>(
    dir: &'a Directory,
    realm: u32,
    header: &TicketRec,
) -> Option<&'a Account>
    requires { realm < length dir.now.realms }
    ensures { option_copied result ≡ requestor_record dir.now realm header.now }
{
    match requestor_account(dir, realm, &header.client) {
        Some(account) => dir.account_at(realm, account),
        None => None,
    }
}

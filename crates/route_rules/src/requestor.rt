//! The account that asks (MS-SFU, section 3.2.5).
ghost use Rattle.std.specs.Prelude.{◌≡◌, ◌<◌, IfSome, length};
ghost use Rattle.route_rules.specs.Meanings.{HasAccount};
ghost use Rattle.route_rules.specs.Requestor.{requestor_account};

use dir_core::Directory;
use krb_names::Principal;

/// The account of the realm at an index whose name and realm a client has. Nothing where the client is of another realm,
/// or its name has no one part that is the name of an account. The kind of the name plays no part.
#[tactic(auto, unfolding(crate::specs::Requestor::requestor_account))]
pub fn requestor_account(dir: &Directory, realm: u32, client: &Principal) -> Option<u32>
    requires { realm < length dir.now.realms }
    ensures found { result ≡ requestor_account dir.now realm client.now }
    ensures within { IfSome result (λ account. HasAccount dir.now realm account) }
{
    if client.realm != dir.realm(realm).name {
        return None;
    }
    match client.parts.as_slice() {
        [part] => dir.account_by_name(realm, part.as_str()),
        _ => None,
    }
}

//! For whom a realm seals tickets, and with which key.

ghost use Rattle.std.specs.Prelude.{◌≡◌, ◌<◌, IfOk, IfSome, length, position};
ghost use Rattle.kdc_prelude.specs.Texts.{same_text};
ghost use Rattle.ticket_codec.specs.Holdings.{account_holding, aim_holding, hop_holding, krbtgt_holding, trust_in};

use dir_core::{Account, Aim, Directory, KeyRec, RealmRec, Trust};
use kdc_records::Holder;
use krb_names::Text;
use std::alloc::{AllocError, Global};

/// For whom a ticket is sealed, and the key.
#[derive(Debug, Drop)]
pub struct Holding {
    pub holder: Holder,
    pub key: KeyRec,
}

/// A realm's ticket-granting service.
fn krbtgt_holding(alloc: Global, realm: &RealmRec) -> Result<Holding, AllocError>
    ensures { IfOk result (λ held. held ≡ krbtgt_holding realm.now) }
{
    Ok(Holding {
        holder: Holder::Krbtgt {
            realm: Text::copy(alloc, realm.name.as_str())?,
            version: realm.krbtgt.version,
        },
        key: realm.krbtgt,
    })
}

/// A trust of a realm.
fn hop_holding(alloc: Global, realm: &RealmRec, trust: &Trust) -> Result<Holding, AllocError>
    ensures { IfOk result (λ held. held ≡ hop_holding realm.now trust.now) }
{
    Ok(Holding {
        holder: Holder::Trust {
            realm: Text::copy(alloc, realm.name.as_str())?,
            partner: Text::copy(alloc, trust.partner.as_str())?,
            version: trust.key.version,
        },
        key: trust.key,
    })
}

/// An account of a realm.
fn account_holding(
    alloc: Global,
    realm: &RealmRec,
    account: &Account,
) -> Result<Holding, AllocError>
    ensures { IfOk result (λ held. held ≡ account_holding realm.now account.now) }
{
    Ok(Holding {
        holder: Holder::Account {
            realm: Text::copy(alloc, realm.name.as_str())?,
            number: account.number,
            version: account.key.version,
        },
        key: account.key,
    })
}

/// For whom a ticket is sealed that the realm at an index gives for this aim, and the key: the realm's ticket-granting
/// service, or the trust or account at an index of its lists. None where there is no such trust or account.
#[tactic(auto, unfolding(crate::specs::Holdings::aim_holding))]
pub fn aim_holding(
    alloc: Global,
    dir: &Directory,
    realm: u32,
    aim: Aim,
) -> Result<Option<Holding>, AllocError>
    requires { realm < length dir.now.realms }
    ensures exact { IfOk result (λ held. held ≡ aim_holding dir.now realm aim) }
{
    let realm = dir.realm(realm);
    match aim {
        Aim::Krbtgt => Ok(Some(krbtgt_holding(alloc, realm)?)),
        Aim::Hop(at) => match realm.trusts.get(at as usize) {
            Some(trust) => Ok(Some(hop_holding(alloc, realm, trust)?)),
            None => Ok(None),
        },
        Aim::Account(at) => match realm.accounts.get(at as usize) {
            Some(account) => Ok(Some(account_holding(alloc, realm, account)?)),
            None => Ok(None),
        },
    }
}

/// The index of the trust in a partner, the first of the list of the realm at an index.
#[tactic(auto, unfolding(crate::specs::Holdings::trust_in))]
pub fn find_trust(dir: &Directory, realm: u32, partner: &str) -> Option<u32>
    requires { realm < length dir.now.realms }
    ensures exact { result ≡ trust_in dir.now realm partner.now }
{
    match place_of_partner(dir.realm(realm).trusts.as_slice(), partner) {
        Some(place) => Some(place as u32),
        None => None,
    }
}

fn place_of_partner(trusts: &[Trust], partner: &str) -> Option<usize>
    ensures place { result ≡ position (λ trust. same_text trust.partner partner.now) trusts.now }
    ensures within { IfSome result (λ place. place < length trusts.now) }
{
    trusts
        .iter()
        .position(|trust| trust.partner.as_str() == partner)
}

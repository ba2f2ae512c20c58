//! The verdict on an AS-REQ.
ghost use Rattle.std.specs.Prelude.{◌≡◌, ◌<◌, ◌+◌, ◌&&◌, length, None, Some, true, MatchResult};
ghost use Rattle.std.specs.Option.{option_copied};
ghost use Rattle.dir_core.specs.Lives.{longest_life};
ghost use Rattle.kdc_prelude.specs.Options.{holds_of};
ghost use Rattle.kdc_prelude.specs.Verdicts.{first_failing};
ghost use Rattle.kdc_records.specs.Bits.{bit_if, has_bit};
ghost use Rattle.as_core.specs.AsRules.{as_decision, as_end, as_request, as_rules, client_account, client_index, is_stamped, may_be_delegated, server_aim};
ghost use Rattle.as_core.specs.Stamps.{stamp_seen};

use crate::as_rules::*;
use crate::stamp::StampView;
use dir_core::{Account, Directory};
use kdc_records::{
    Aim, Decision, Rule, Terms, Wish, bit_if, end_by, end_is_later, has_bit, kdc_option, require,
    session_type, start_is_now, ticket_flag,
};
use krb_names::{KTime, Moment, Principal};
use route_rules::{resolve, resolve_account};

/// The account of the realm at an index that a client's name of one part gives: by its name, or as an enterprise name
/// of this realm.
fn client_index(dir: &Directory, realm: u32, name: &Principal) -> Option<u32>
    requires { realm < length dir.now.realms }
    ensures { result ≡ client_index dir.now realm name.now }
{
    let [_] = name.parts.as_slice() else {
        return None;
    };
    match resolve_account(dir, realm, name) {
        Some((at, account)) if at == realm => Some(account),
        _ => None,
    }
}

/// The account that asks.
pub fn client_account<'a>(
    dir: &'a Directory,
    realm: u32,
    client: Option<&Principal>,
) -> Option<&'a Account>
    requires { realm < length dir.now.realms }
    ensures { option_copied result ≡ client_account dir.now realm (option_copied client.entry) }
{
    match client_index(dir, realm, client?) {
        Some(account) => dir.account_at(realm, account),
        None => None,
    }
}

/// What the asked server is to the realm at an index.
fn server_aim(dir: &Directory, realm: u32, server: Option<&Principal>) -> Option<Aim>
    requires { realm < length dir.now.realms }
    ensures { result ≡ server_aim dir.now realm (option_copied server.entry) }
{
    resolve(dir, realm, server?)
}

/// When the ticket ends: as asked for, and within the realm's longest life.
fn as_end(dir: &Directory, realm: u32, now: Moment, wish: &Wish) -> KTime
    requires { realm < length dir.now.realms }
    ensures { result ≡ as_end now (longest_life dir.now realm) wish.now }
{
    end_by(wish.till, KTime::new(now.secs + dir.realm(realm).max_life))
}

/// The first rule that fails.
fn judge(
    account: Option<&Account>,
    aim: Option<Aim>,
    end: KTime,
    wish: &Wish,
    now: Moment,
    stamp: StampView,
) -> Result<(), Rule>
    ensures first { MatchResult result (λ done. first_failing (as_rules (record { account = option_copied account.entry; aim = aim; end = end; wish = wish.now; now = now; stamp = stamp_seen stamp })) ≡ None) (λ rule. first_failing (as_rules (record { account = option_copied account.entry; aim = aim; end = end; wish = wish.now; now = now; stamp = stamp_seen stamp })) ≡ Some rule) }
{
    let Some(account) = account else {
        return Err(Rule::A1);
    };
    require(Rule::A2, client_is_enabled(account))?;
    let Some(aim) = aim else {
        return Err(Rule::A3);
    };
    require(Rule::A3, server_is_krbtgt(aim))?;
    require(Rule::A4, start_is_now(now, wish))?;
    require(Rule::A5, options_are_plain(wish))?;
    require(Rule::A6, key_type_is_listed(wish, account))?;
    require(Rule::A7, stamp_is_there(stamp, account))?;
    require(Rule::A8, stamp_is_read(stamp))?;
    require(Rule::A9, stamp_is_fresh(now, stamp))?;
    require(Rule::A10, end_is_later(now, end))
}

/// The flags of the ticket: initial; forwardable where that is asked for and the account is not marked; pre-authent where
/// a timestamp was opened.
fn as_flags(account: Option<&Account>, wish: &Wish, stamp: StampView) -> u32
    ensures { result ≡ bit_if 1 (has_bit 1 wish.now.options && holds_of may_be_delegated (option_copied account.entry)) + bit_if 9 true + bit_if 10 (is_stamped (stamp_seen stamp)) }
{
    let may_be_forwarded = match account {
        Some(account) => may_be_delegated(account),
        None => false,
    };
    let forwardable = has_bit(wish.options, kdc_option::FORWARDABLE) && may_be_forwarded;
    bit_if(ticket_flag::FORWARDABLE, forwardable)
        + bit_if(ticket_flag::INITIAL, true)
        + bit_if(ticket_flag::PRE_AUTHENT, is_stamped(stamp))
}

/// The verdict on an AS-REQ to the realm at an index: the first of the rules A1 to A10 that fails, or what the ticket
/// has. Takes no memory. `stamp` is the first PA-ENC-TIMESTAMP of the request, as the key of the account opens it that
/// the client's name gives.
pub fn decide_as(
    dir: &Directory,
    realm: u32,
    now: Moment,
    wish: &Wish,
    stamp: &StampView,
) -> Decision
    requires { realm < length dir.now.realms }
    ensures first { result ≡ as_decision (as_request dir.now realm now wish.now (stamp_seen stamp.now)) }
{
    let account = client_account(dir, realm, wish.client.as_ref());
    let end = as_end(dir, realm, now, wish);
    match judge(
        account,
        server_aim(dir, realm, wish.server.as_ref()),
        end,
        wish,
        now,
        *stamp,
    ) {
        Err(rule) => Decision::Deny(rule),
        Ok(()) => Decision::Grant(Terms {
            aim: Aim::Krbtgt,
            flags: as_flags(account, wish, *stamp),
            start: KTime::new(now.secs),
            end,
            session: session_type(wish.etypes.as_slice()),
            append: false,
        }),
    }
}

//! On what a grant stands.
ghost use Rattle.std.specs.Prelude.{◌≡◌, ◌≤◌, [], ◌∷◌, IfOk, if◌then◌else◌, length};
ghost use Rattle.krb_names.specs.declared.principal.Principal.{Principal};
ghost use Rattle.tgs_core.specs.GrantViews.{grounds_seen};
ghost use Rattle.tgs_core.specs.Grants.{IsGrounds, auth_by, client_by, client_for, delegation_by, principal_of_subject, subject_by, transited_by, way_behind};
ghost use Rattle.tgs_core.specs.Replies.{reply_padata};

use crate::account::{key_info, principal_of_account, subject_of_account};
use crate::echo::echo_padata;
use crate::reply_key::tgs_key;
use dir_core::{Account, RealmRec};
use kdc_records::{Aim, Delegation, Holder, Subject, Terms, TicketRec};
use krb_messages::{PaData, PaItems};
use krb_names::{Items, KTime, Key, Principal, Texts, TryClone};
use krb_tickets::EncTicketPart;
use proxy_rules::delegation_made;
use s4u_padata::X509User;
use std::alloc::{AllocError, Global};

/// The header of a TGS-REQ.
#[derive(Drop)]
pub(crate) struct PresentedView<'a> {
    pub(crate) rec: &'a TicketRec,
    /// What was sealed in it.
    pub(crate) part: &'a EncTicketPart,
    /// The subkey of the authenticator.
    pub(crate) subkey: Option<Key>,
}

/// The evidence of a request for S4U2proxy.
#[derive(Drop)]
pub(crate) struct ShownTicketView<'a> {
    pub(crate) rec: &'a TicketRec,
    /// What was sealed in it.
    pub(crate) part: &'a EncTicketPart,
}

/// On what a grant stands.
#[derive(Drop)]
pub(crate) enum GroundsView<'a> {
    /// The account that asks.
    ByAccount(&'a Account),
    /// The header.
    ByHeader(PresentedView<'a>),
    /// S4U2self for a user of the realm: the header, the user's account, and PA-S4U-X509-USER.
    ForUser(PresentedView<'a>, &'a Account, Option<&'a X509User>),
    /// S4U2self for a user of another realm, who is the header's: the header, and PA-S4U-X509-USER.
    ForHeadersUser(PresentedView<'a>, Option<&'a X509User>),
    /// S4U2proxy: the header and the evidence.
    ByEvidence(PresentedView<'a>, ShownTicketView<'a>),
}

/// The principal of a user, of kind 1 (NT-PRINCIPAL) and one part.
fn principal_of_subject(alloc: Global, subject: &Subject) -> Result<Principal, AllocError>
    ensures { IfOk result (λ made. made ≡ principal_of_subject subject.now) }
{
    let mut parts = Items::new(alloc);
    parts.push(subject.name.try_clone(alloc)?)?;
    Ok(Principal {
        kind: 1,
        parts,
        realm: subject.realm.try_clone(alloc)?,
    })
}

/// Whether the ticket is for a service, and no referral.
fn is_for_service(aim: Aim) -> bool
    ensures { (user requestor : Principal) → client_for aim user requestor ≡ (if result then user else requestor) }
{
    matches!(aim, Aim::Account(_))
}

/// The realms on the way of a ticket, and the one that issued it behind them where that is to be appended.
fn way_behind(alloc: Global, append: bool, rec: &TicketRec) -> Result<Texts, AllocError>
    ensures { IfOk result (λ made. made ≡ way_behind append rec.now) }
{
    let mut way: Texts = rec.transited.try_clone(alloc)?;
    if append && let Holder::Trust { realm, .. } = &rec.holder {
        way.push(realm.try_clone(alloc)?)?;
    }
    Ok(way)
}

impl<'a> GroundsView<'a> {
    /// The client of the ticket: the account, or the header's; of S4U2self and S4U2proxy the user, or the header's of a
    /// referral.
    pub(crate) fn client(
        &self,
        alloc: Global,
        realm: &RealmRec,
        aim: Aim,
    ) -> Result<Principal, AllocError>
        ensures { IfOk result (λ made. made ≡ client_by realm.now aim (grounds_seen self.now)) }
    {
        let for_service = is_for_service(aim);
        match self {
            GroundsView::ByAccount(account) => principal_of_account(alloc, realm, account),
            GroundsView::ForUser(_, account, _) if for_service => {
                principal_of_account(alloc, realm, account)
            }
            GroundsView::ForHeadersUser(shown, _) if for_service => {
                principal_of_subject(alloc, &shown.rec.subject)
            }
            GroundsView::ByEvidence(_, evidence) if for_service => {
                principal_of_subject(alloc, &evidence.rec.subject)
            }
            GroundsView::ByHeader(shown)
            | GroundsView::ForUser(shown, _, _)
            | GroundsView::ForHeadersUser(shown, _)
            | GroundsView::ByEvidence(shown, _) => shown.rec.client.try_clone(alloc),
        }
    }

    /// The user of the ticket.
    pub(crate) fn subject(&self, alloc: Global, realm: &RealmRec) -> Result<Subject, AllocError>
        requires { length realm.now.sid.numbers ≤ 14 }
        ensures { IfOk result (λ made. made ≡ subject_by realm.now (grounds_seen self.now)) }
    {
        match self {
            GroundsView::ByAccount(account) | GroundsView::ForUser(_, account, _) => {
                subject_of_account(alloc, realm, account)
            }
            GroundsView::ByHeader(shown) | GroundsView::ForHeadersUser(shown, _) => {
                shown.rec.subject.try_clone(alloc)
            }
            GroundsView::ByEvidence(_, evidence) => evidence.rec.subject.try_clone(alloc),
        }
    }

    /// When the client was authenticated: when an initial ticket starts, or as the header or the evidence says.
    pub(crate) fn auth(&self, terms: &Terms) -> KTime
        ensures { result ≡ auth_by terms.now (grounds_seen self.now) }
    {
        match self {
            GroundsView::ByAccount(_) => terms.start,
            GroundsView::ByHeader(shown)
            | GroundsView::ForUser(shown, _, _)
            | GroundsView::ForHeadersUser(shown, _) => shown.rec.auth,
            GroundsView::ByEvidence(_, evidence) => evidence.rec.auth,
        }
    }

    /// The realms on the ticket's way.
    pub(crate) fn transited(&self, alloc: Global, terms: &Terms) -> Result<Texts, AllocError>
        ensures { IfOk result (λ made. made ≡ transited_by terms.now (grounds_seen self.now)) }
    {
        match self {
            GroundsView::ByAccount(_) | GroundsView::ForUser(_, _, _) => Ok(Items::new(alloc)),
            GroundsView::ByHeader(shown) | GroundsView::ForHeadersUser(shown, _) => {
                way_behind(alloc, terms.append, shown.rec)
            }
            GroundsView::ByEvidence(_, evidence) => way_behind(alloc, terms.append, evidence.rec),
        }
    }

    /// Who delegated the ticket: of S4U2proxy alone, to the name that is asked for.
    pub(crate) fn delegation(
        &self,
        alloc: Global,
        realm: &RealmRec,
        asked: &Principal,
    ) -> Result<Option<Delegation>, AllocError>
        ensures { IfOk result (λ made. made ≡ delegation_by realm.now asked.now (grounds_seen self.now)) }
    {
        match self {
            GroundsView::ByEvidence(shown, evidence) => {
                let made = delegation_made(alloc, realm, asked, shown.rec, evidence.rec)?;
                Ok(Some(made))
            }
            _ => Ok(None),
        }
    }

    /// The padata of the reply: the type and the salt of the key of an account that asks; the echo of S4U2self.
    pub(crate) fn padata(&self, alloc: Global) -> Result<Option<PaItems>, AllocError>
        requires { IsGrounds (grounds_seen self.now) }
        ensures { IfOk result (λ items. items ≡ reply_padata (grounds_seen self.now)) }
    {
        match self {
            GroundsView::ByAccount(account) => Ok(Some(lone_item(
                alloc,
                key_info(alloc, account)?,
            )?)),
            GroundsView::ByHeader(_)
            | GroundsView::ForUser(_, _, None)
            | GroundsView::ForHeadersUser(_, None)
            | GroundsView::ByEvidence(_, _) => Ok(None),
            GroundsView::ForUser(shown, _, Some(asked))
            | GroundsView::ForHeadersUser(shown, Some(asked)) => {
                let item = echo_padata(alloc, &tgs_key(shown).key, asked)?;
                Ok(Some(lone_item(alloc, item)?))
            }
        }
    }
}

/// Padata of one item.
fn lone_item(alloc: Global, item: PaData) -> Result<PaItems, AllocError>
    ensures { IfOk result (λ items. items ≡ item ∷ []) }
{
    let mut items = Items::new(alloc);
    items.push(item)?;
    Ok(items)
}

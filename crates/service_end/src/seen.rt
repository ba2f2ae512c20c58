//! What a service end remembers: the authenticators that it accepted in the last 300 seconds (RFC 4120, section 3.2.3).

ghost use Rattle.std.specs.Prelude.{◌≡◌, ◌≤◌, ◌+◌, OnErr, OnOk, filter, find, length};
ghost use Rattle.std.specs.Option.{option_copied};
ghost use Rattle.kdc_prelude.specs.Answers.{Answers};
ghost use Rattle.krb_names.specs.Moments.{in_micros};
ghost use Rattle.service_end.specs.Accepting.{is_new, is_recent, left_of, same_entry, unless_repeated, with_entry};
ghost use Rattle.service_end.specs.Memory.{nothing_seen};
ghost use Rattle.service_end.specs.Times.{moment_used};

use crate::refusal::{AcceptRule, require};
use krb_names::{Moment, Principal, TryClone};
use std::alloc::{AllocError, Global};
use std::marker::Model;

/// How many entries are kept at most.
const MOST_ENTRIES: usize = 10_000;

/// How long an entry is kept, in microseconds.
const LONGEST: u64 = 300_000_000;

/// An authenticator that was accepted.
#[derive(Debug, Drop)]
pub struct SeenEntry {
    /// The ticket's client.
    pub client: Principal,
    /// When the authenticator was made.
    pub at: Moment,
}

impl Model for SeenEntry {
    ghost use Rattle.krb_names.specs.Moments.{in_micros};
    ghost use Rattle.service_end.specs.Memory.{Entry};

    ghost Value = { Entry };

    ghost view = { λ s. record { client = s.client; at = in_micros s.at } };
}

impl TryClone for SeenEntry {
    fn try_clone(&self, alloc: Global) -> Result<SeenEntry, AllocError> {
        Ok(SeenEntry {
            client: self.client.try_clone(alloc)?,
            at: self.at,
        })
    }
}

/// Whether the two are of the same client and moment.
fn is_same_entry(a: &SeenEntry, b: &SeenEntry) -> bool
    ensures { result ≡ same_entry a.now b.now }
{
    a.client.is_same(&b.client) && a.at.in_micros() == b.at.in_micros()
}

/// Whether it was made at most 300 seconds before a moment.
fn is_recent(moment: Moment, entry: &SeenEntry) -> bool
    ensures { result ≡ is_recent (in_micros moment) entry.now }
{
    moment.in_micros() <= entry.at.in_micros() + LONGEST
}

/// The memory of a service end.
#[derive(Debug, Drop)]
pub struct Seen {
    entries: Vec<SeenEntry>,
    latest: Moment,
}

impl Model for Seen {
    ghost use Rattle.krb_names.specs.Moments.{in_micros};
    ghost use Rattle.service_end.specs.Memory.{Memory};

    ghost Value = { Memory };

    ghost view = { λ s. record { entries = s.entries.items; latest = in_micros s.latest } };
}

impl Seen {
    /// Nothing was accepted yet. Takes no memory.
    pub fn new(alloc: Global) -> Seen
        ensures { result ≡ nothing_seen }
    {
        Seen {
            entries: Vec::new(alloc),
            latest: Moment { secs: 0, micros: 0 },
        }
    }

    /// The moment that a call uses: now, or the latest that one used which accepted, where that is later.
    pub(crate) fn moment_used(&self, now: Moment) -> Moment
        ensures { in_micros result ≡ moment_used self.now (in_micros now) }
    {
        if now.in_micros() < self.latest.in_micros() {
            self.latest
        } else {
            now
        }
    }

    /// The first entry of the same client and moment.
    fn repeated(&self, alloc: Global, entry: &SeenEntry) -> Result<(), AcceptRule>
        ensures { Answers AcceptRule.NoMemory result (unless_repeated (find (same_entry entry.now) self.now.entries)) }
    {
        match find_same(self.entries.as_slice(), entry) {
            Some(kept) => Err(AcceptRule::Repeat(kept.try_clone(alloc)?)),
            None => Ok(()),
        }
    }

    /// How many entries are left where older ones are dropped.
    fn count_left(&self, moment: Moment) -> usize
        ensures { result ≡ length (left_of (in_micros moment) self.now) }
    {
        count_recent(moment, self.entries.as_slice())
    }

    /// Refuses what was accepted before, and what there is no room for.
    pub(crate) fn check_new(
        &self,
        alloc: Global,
        moment: Moment,
        entry: &SeenEntry,
    ) -> Result<(), AcceptRule>
        ensures { Answers AcceptRule.NoMemory result (is_new (in_micros moment) self.now entry.now) }
    {
        self.repeated(alloc, entry)?;
        require(AcceptRule::Full, self.count_left(moment) < MOST_ENTRIES)
    }

    /// Keeps an entry that is no older than 300 seconds, and drops older ones. An `Err` changes nothing.
    pub(crate) fn remember(&mut self, moment: Moment, entry: SeenEntry) -> Result<(), AllocError>
        requires { in_micros moment ≤ entry.at + 300000000 }
        ensures ok { OnOk result (self.new ≡ with_entry (in_micros moment) self.old entry) }
        ensures err { OnErr result (self.new ≡ self.old) }
    {
        self.entries.push(entry)?;
        self.entries.retain(|kept| is_recent(moment, kept));
        self.latest = moment;
        Ok(())
    }
}

fn find_same<'a>(entries: &'a [SeenEntry], entry: &SeenEntry) -> Option<&'a SeenEntry>
    ensures { option_copied result ≡ find (same_entry entry.now) entries.now }
{
    entries.iter().find(|kept| is_same_entry(entry, kept))
}

fn count_recent(moment: Moment, entries: &[SeenEntry]) -> usize
    ensures { result ≡ length (filter (is_recent (in_micros moment)) entries.now) }
{
    entries
        .iter()
        .filter(|kept| is_recent(moment, kept))
        .count()
}

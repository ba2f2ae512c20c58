//! Callers in memory, one after the other.
ghost use Rattle.std.specs.Prelude.{◌≡◌, ◌≤◌, ℕ, [], Some, None, Ok, Result, IfOk, IfSome, OnOk, OnErr, IsSome, is_some, length, option_map, slice_get};
ghost use Rattle.kb_base.specs.Callers.{ReadsCaller, WritesCaller, arrived, failed_callers, next_of};
ghost use Rattle.kb_base.specs.Counts.{one_more};
ghost use Rattle.kb_base.specs.declared.fault.Failed.{Failed};

use crate::caller::Caller;
use krb_names::Bytes;
use std::alloc::{AllocError, Global};
use std::collections::VecDeque;
use std::marker::Model;

/// Those that were left, with room for all, the current one, and those that did not come yet.
#[derive(Debug, Drop)]
pub(crate) struct Callers {
    alloc: Global,
    gone: Vec<Caller>,
    current: Option<Caller>,
    waiting: VecDeque<Bytes>,
}

impl Model for Callers {
    ghost use Rattle.std.specs.Prelude.{ℕ, ◌+◌, ◌≤◌, length, option_to_list, vec_len, vec_capacity};
    ghost use Rattle.kb_base.specs.Callers.{CallersValue};

    ghost Value = { CallersValue };

    ghost view = { λ s. record { gone = s.gone.items; current = s.current; waiting = s.waiting.items } };

    ghost invariant = { λ s. vec_len s.gone + length (option_to_list s.current) + length s.waiting.items ≤ vec_capacity s.gone };
}

impl Callers {
    /// Callers with these bytes, none of whom came yet.
    pub(crate) fn new(alloc: Global, waiting: Vec<Bytes>) -> Result<Callers, AllocError>
        ensures { IfOk result (λ callers. callers ≡ record { gone = []; current = None; waiting = waiting.items }) }
    {
        Ok(Callers {
            alloc,
            gone: Vec::with_capacity(alloc, waiting.len())?,
            current: None,
            waiting: VecDeque::from_vec(waiting),
        })
    }

    /// What the caller at this index, from 0, was sent, if it came.
    pub(crate) fn sent(&self, index: usize) -> Option<&[u8]>
        ensures { option_map (λ sent. sent.now) result ≡ option_map (λ caller. caller.sent) (slice_get (arrived self.now) index) }
    {
        if index == self.gone.len() {
            return match &self.current {
                Some(caller) => Some(caller.sent()),
                None => None,
            };
        }
        match self.gone.get(index) {
            Some(caller) => Some(caller.sent()),
            None => None,
        }
    }

    /// Whether there is a current caller.
    pub(crate) fn has_current(&self) -> bool
        ensures { result ≡ is_some self.now.current }
    {
        self.current.is_some()
    }

    /// Leaves the current caller and takes the next one; tells whether there is one.
    pub(crate) fn next(&mut self) -> bool
        ensures next { self.new ≡ next_of self.old }
        ensures more { result ≡ is_some self.new.current }
    {
        if let Some(caller) = self.current.take() {
            self.gone.push_reserved(caller);
        }
        match self.waiting.pop_front() {
            Some(bytes) => {
                self.current = Some(Caller::new(self.alloc, bytes));
                true
            }
            None => false,
        }
    }

    /// Reads bytes of the current caller.
    pub(crate) fn read(&mut self, buf: &mut [u8]) -> usize
        ensures bound { result ≤ length buf.new }
        ensures bytes { let given : Result ℕ Failed = Ok result in ReadsCaller (Some self.old) (Some self.new) given buf.new }
    {
        match &mut self.current {
            Some(caller) => caller.read(buf),
            None => 0,
        }
    }

    /// Sends the piece to the current caller.
    pub(crate) fn write(&mut self, piece: &[u8]) -> Result<(), AllocError>
        requires { IsSome self.old.current }
        ensures ok { OnOk result (WritesCaller (Some self.old) (Some self.new) (Ok (length piece.now)) piece.now) }
        ensures err { OnErr result (self.new ≡ self.old) }
    {
        match &mut self.current {
            Some(caller) => caller.write(piece),
            None => Ok(()),
        }
    }

    /// Counts a call of the current caller that failed.
    pub(crate) fn fail(&mut self)
        ensures counted { self.new ≡ failed_callers self.old }
        ensures later { IfSome self.old.current (λ caller. caller.faults ≤ one_more caller.faults) }
    {
        if let Some(caller) = &mut self.current {
            caller.fail();
        }
    }
}

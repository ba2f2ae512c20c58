//! Security identifiers, MS-DTYP, section 2.4.2.
ghost use Rattle.std.specs.Prelude.{◌≡◌, ◌<◌, ◌≤◌, ◌^◌, length};
ghost use Rattle.krb_names.specs.SidValue.{domain_of, followed_by, number_of};

use crate::items::{Items, TryClone};
use std::alloc::{AllocError, Global};
use std::marker::Model;

/// A security identifier: an authority below 2^48, and 1 to 15 sub-authorities.
#[derive(Clone, Copy, Debug, PartialEq, Eq)]
pub struct Sid {
    authority: u64,
    count: u8,
    subs: [u32; 15],
}

/// Security identifiers.
pub type Sids = Items<Sid>;

impl Model for Sid {
    ghost use Rattle.krb_names.specs.SidValue.{SidValue, IsSid};

    ghost Value = { SidValue };

    ghost use Rattle.krb_names.specs.SidFields.{value_of, fields_of, fields_again};

    ghost view = { value_of };

    ghost invariant = { λ s. IsSid s.authority s.count s.subs };

    ghost inverse = { fields_of };

    ghost inverse_ok = { fields_again };
}

impl Sid {
    /// The identifier with this authority and these sub-authorities.
    pub fn new(authority: u64, numbers: &[u32]) -> Sid
        requires low { authority < 2 ^ 48 }
        requires some { 1 ≤ length numbers.now }
        requires few { length numbers.now ≤ 15 }
        ensures { result ≡ record { authority = authority; numbers = numbers.now } }
    {
        let mut subs = [0; 15];
        subs[..numbers.len()].copy_from_slice(numbers);
        Sid {
            authority,
            count: numbers.len() as u8,
            subs,
        }
    }

    /// Its identifier authority.
    pub fn authority(&self) -> u64
        ensures value { result ≡ self.now.authority }
        ensures low { self.now.authority < 2 ^ 48 }
    {
        self.authority
    }

    /// The identifier with one sub-authority more, as an account's is made of its realm's and its number.
    pub fn followed_by(&self, number: u32) -> Sid
        requires { length self.now.numbers ≤ 14 }
        ensures { result ≡ followed_by self.now number }
    {
        let count = self.numbers().len();
        let mut numbers = [0; 15];
        numbers[..count].copy_from_slice(self.numbers());
        numbers[count] = number;
        Sid::new(self.authority, &numbers[..count + 1])
    }

    /// The identifier without its last sub-authority, and that number: an account's realm and its number there.
    pub fn apart(&self) -> (Sid, u32)
        requires { 2 ≤ length self.now.numbers }
        ensures { result ≡ (domain_of self.now, number_of self.now) }
    {
        let numbers = self.numbers();
        let last = numbers.len() - 1;
        (Sid::new(self.authority, &numbers[..last]), numbers[last])
    }

    /// Its sub-authorities, 1 to 15.
    pub fn numbers(&self) -> &[u32]
        ensures value { result.now ≡ self.now.numbers }
        ensures some { 1 ≤ length self.now.numbers }
        ensures few { length self.now.numbers ≤ 15 }
    {
        &self.subs[..self.count as usize]
    }
}

impl TryClone for Sid {
    fn try_clone(&self, _alloc: Global) -> Result<Sid, AllocError> {
        Ok(*self)
    }
}

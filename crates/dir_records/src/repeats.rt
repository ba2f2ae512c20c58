//! What stands twice among marks, and where.
ghost use Rattle.std.specs.Prelude.{◌≡◌, IfOk, map, nat_eq};
ghost use Rattle.std.specs.Ordering.{eq_by_cmp};
ghost use Rattle.kdc_prelude.specs.Texts.{same_text};
ghost use Rattle.dir_records.specs.Marks.{now_of};
ghost use Rattle.dir_records.specs.Repeats.{first_repeat};

use crate::refusal::DirPlace;
use std::alloc::{AllocError, Global};
use std::collections::BTreeSet;

/// The place of the first mark that is equal to one before it.
pub(crate) fn find_repeat<K: Ord + Copy>(
    alloc: Global,
    marks: &[(DirPlace, K)],
) -> Result<Option<DirPlace>, AllocError>
    ensures { IfOk result (λ place. place ≡ first_repeat (eq_by_cmp K.cmp) marks.now) }
{
    let mut seen = BTreeSet::new(alloc);
    for mark in marks {
        if !seen.insert(mark.1)? {
            return Ok(Some(mark.0));
        }
    }
    Ok(None)
}

/// The place of the first octets that are equal to some before them.
pub(crate) fn find_repeated_octets(
    alloc: Global,
    marks: &[(DirPlace, &[u8])],
) -> Result<Option<DirPlace>, AllocError>
    ensures { IfOk result (λ place. place ≡ first_repeat same_text (map now_of marks.now)) }
{
    find_repeat(alloc, marks)
}

/// The place of the first number that is equal to one before it.
pub(crate) fn find_repeated_number(
    alloc: Global,
    marks: &[(DirPlace, u32)],
) -> Result<Option<DirPlace>, AllocError>
    ensures { IfOk result (λ place. place ≡ first_repeat nat_eq marks.now) }
{
    find_repeat(alloc, marks)
}

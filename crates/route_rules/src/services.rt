//! The account that has a service principal name which is told in parts.
ghost use Rattle.std.specs.Prelude.{◌≡◌, ◌++◌, ◌+◌, ◌<◌, ◌≤◌, ℕ, IfNone, IfSome, List, None, length, take};
ghost use Rattle.std.specs.List.{join_with_byte};
ghost use Rattle.std.specs.Str.{IsUtf8};
ghost use Rattle.dir_core.specs.Lookups.{spn_place};
ghost use Rattle.route_rules.specs.Meanings.{HasAccount};

use dir_core::Directory;
use krb_names::Text;
use std::str;

/// As long as a service principal name of a directory can be: three pieces of at most 255 bytes, and the slashes
/// between them.
const LONGEST_SPN: usize = 767;

/// Where the account stands that has the parts, joined by `/`, as a service principal name.
pub(crate) fn place_of_service(dir: &Directory, parts: &[Text]) -> Option<(u32, u32)>
    ensures found { result ≡ spn_place dir.now (join_with_byte 47 parts.now) }
    ensures within { IfSome result (λ place. HasAccount dir.now place.0 place.1) }
{
    let mut buffer = [0; LONGEST_SPN];
    spns_are_short(dir);
    let end = put_joined(&mut buffer, 0, parts)?;
    match str::from_utf8(&buffer[..end]) {
        Ok(spn) => dir.account_by_spn(spn),
        Err(_) => unreachable!(),
    }
}

/// No account of a directory has a longer service principal name.
fn spns_are_short(dir: &Directory)
    ensures { (spn : List ℕ) → 767 < length spn → spn_place dir.now spn ≡ None }
{
    dir.realm_count();
}

/// Puts the parts, joined by `/`, behind the first bytes of a buffer, and gives how many there are then, if they fit.
fn put_joined(buffer: &mut [u8], end: usize, parts: &[Text]) -> Option<usize>
    requires { end ≤ length buffer.old }
    ensures found { IfSome result (λ end_now. (end_now ≤ length buffer.new) × (take end_now buffer.new ≡ take end buffer.old ++ join_with_byte 47 parts.now)) }
    ensures cause { IfNone result (length buffer.old < end + length (join_with_byte 47 parts.now)) }
    ensures text { IfSome result (λ _. IsUtf8 (join_with_byte 47 parts.now)) }
{
    match parts {
        [] => Some(end),
        [part] => put(buffer, end, part.as_str()),
        [part, others @ ..] => {
            let behind_part = put(buffer, end, part.as_str())?;
            let behind_slash = put(buffer, behind_part, "/")?;
            put_joined(buffer, behind_slash, others)
        }
    }
}

/// Puts a text behind the first bytes of a buffer, and gives how many there are then, if it fits.
fn put(buffer: &mut [u8], end: usize, text: &str) -> Option<usize>
    requires { end ≤ length buffer.old }
    ensures found { IfSome result (λ end_now. (end_now ≤ length buffer.new) × (take end_now buffer.new ≡ take end buffer.old ++ text.now)) }
    ensures cause { IfNone result (length buffer.old < end + length text.now) }
    ensures text { IsUtf8 text.now }
{
    let text = text.as_bytes();
    if buffer.len() - end < text.len() {
        return None;
    }
    let end_now = end + text.len();
    buffer[end..end_now].copy_from_slice(text);
    Some(end_now)
}

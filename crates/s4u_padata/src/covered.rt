//! What the checksum of a PA-FOR-USER covers (MS-SFU, section 2.2.1).
ghost use Rattle.std.specs.Prelude.{◌≡◌, ◌++◌, IfOk, OnOk};
ghost use Rattle.std.specs.List.{flat_map};
ghost use Rattle.s4u_padata.specs.Covered.{for_user_bytes};

use krb_names::{Bytes, Items, Principal, Text};
use std::alloc::{AllocError, Global};

/// The bytes that the checksum of a PA-FOR-USER covers: the user's name type in four bytes, little-endian, the parts of the
/// name, its realm and the package.
pub fn for_user_bytes(
    alloc: Global,
    user: &Principal,
    auth_package: &str,
) -> Result<Bytes, AllocError>
    ensures { IfOk result (λ bytes. bytes ≡ for_user_bytes user.now auth_package.now) }
{
    let mut bytes = Vec::new(alloc);
    bytes.extend_from_slice(&user.kind.to_le_bytes())?;
    push_parts(&mut bytes, user.parts.as_slice())?;
    bytes.extend_from_slice(user.realm.as_str().as_bytes())?;
    bytes.extend_from_slice(auth_package.as_bytes())?;
    Ok(Items::from_vec(bytes))
}

fn push_parts(bytes: &mut Vec<u8>, parts: &[Text]) -> Result<(), AllocError>
    ensures { OnOk result (bytes.new.items ≡ bytes.old.items ++ flat_map (λ part. part) parts.now) }
{
    for part in parts {
        bytes.extend_from_slice(part.as_str().as_bytes())?;
    }
    Ok(())
}

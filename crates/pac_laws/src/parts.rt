//! The contents of a PAC's buffers (MS-PAC, sections 2.5 to 2.9).

ghost use Rattle.std.specs.Prelude.{◌≡◌, ℕ, ◌<◌, ◌≤◌, ◌^◌, ◌⊎◌, ℤ, pos, Bool, List, length, Option, option_map, IfSome, Ok};
ghost use Rattle.ndr_core.specs.Laws.{IsBytes};
ghost use Rattle.ndr_core.specs.Object.{object, spelling, packed, packed_spelling};
ghost use Rattle.pac_logon.specs.declared.logon_info.LogonInfo.{LogonInfo};
ghost use Rattle.pac_logon.specs.Logon.{logon, IsWritable};
ghost use Rattle.pac_buffers.specs.declared.client_info.ClientInfo.{ClientInfo};
ghost use Rattle.pac_buffers.specs.declared.delegation_info.DelegationInfo.{DelegationInfo};
ghost use Rattle.pac_buffers.specs.Client.{client};
ghost use Rattle.pac_buffers.specs.Delegation.{delegation};
ghost use Rattle.pac_buffers.specs.Signature.{signature, front_of};
ghost use Rattle.pac_buffers.specs.Buffers.{unsigned, with_value, pac, built};
ghost use Rattle.pac_laws.specs.Writable.{IsWritableClient, IsWritableDelegation};

/// What can be written is read again. It takes few bytes, each below 256.
pub fn pac_parts_read_back()
    ensures logon { (info : LogonInfo) → IsWritable info → object logon (spelling logon info) ≡ Ok info }
    ensures logon_short { (info : LogonInfo) → IsWritable info → length (spelling logon info) ≤ 2 ^ 18 }
    ensures logon_fits { (info : LogonInfo) → IsWritable info → IsBytes (spelling logon info) }
    ensures client { (c : ClientInfo) → IsWritableClient c → packed client (packed_spelling client c) ≡ Ok c }
    ensures client_short { (c : ClientInfo) → IsWritableClient c → length (packed_spelling client c) < 2 ^ 17 }
    ensures client_fits { (c : ClientInfo) → IsWritableClient c → IsBytes (packed_spelling client c) }
    ensures delegation { (d : DelegationInfo) → IsWritableDelegation d → object delegation (spelling delegation d) ≡ Ok d }
    ensures delegation_short { (d : DelegationInfo) → IsWritableDelegation d → length (spelling delegation d) ≤ 2 ^ 22 }
    ensures delegation_fits { (d : DelegationInfo) → IsWritableDelegation d → IsBytes (spelling delegation d) }
    // A signature buffer whose 12 zeros became a checksum is read as its type and the checksum.
    ensures signature { (kind : ℕ) (sum_type : ℤ) (sum : List ℕ) → (sum_type ≡ pos 15) ⊎ (sum_type ≡ pos 16) → length sum ≡ 12
        → front_of signature (with_value kind sum (unsigned kind sum_type)).content ≡ Ok (record { sum_type = sum_type; sum = sum }) }
    // A PAC of these has fewer than 2^23 bytes.
    ensures short { (info : LogonInfo) (c : ClientInfo) (d : Option DelegationInfo) (ticket : Bool) (server_type realm_type : ℤ) → IsWritable info → IsWritableClient c → IfSome d (λ d. IsWritableDelegation d)
        → length (pac (built (spelling logon info) (packed_spelling client c) (option_map (spelling delegation) d) ticket server_type realm_type)) < 2 ^ 23 }
{}

/// What was read from numbers below 256 can be written.
pub fn what_was_read_can_be_written()
    ensures logon { (bytes : List ℕ) (info : LogonInfo) → IsBytes bytes → object logon bytes ≡ Ok info → IsWritable info }
    ensures client { (bytes : List ℕ) (c : ClientInfo) → IsBytes bytes → packed client bytes ≡ Ok c → IsWritableClient c }
    ensures delegation { (bytes : List ℕ) (d : DelegationInfo) → IsBytes bytes → object delegation bytes ≡ Ok d → IsWritableDelegation d }
{}

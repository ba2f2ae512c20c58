//! What holds of the bytes of a PAC.

ghost use Rattle.std.specs.Prelude.{◌≡◌, ℕ, ◌+◌, ◌-◌, ◌<◌, ◌^◌, ℤ, Bool, List, [], ◌++◌, Option, None, length};
ghost use Rattle.ndr_core.specs.Forms.{HasOneReading, IsForm, IsObjectForm, IsPackedForm};
ghost use Rattle.ndr_core.specs.Object.{packed_spelling};
ghost use Rattle.pac_buffers.specs.Client.{client};
ghost use Rattle.pac_buffers.specs.Container.{pac_fault, buffer_of};
ghost use Rattle.pac_buffers.specs.Delegation.{delegation};
ghost use Rattle.pac_buffers.specs.Requestor.{requestor};
ghost use Rattle.pac_buffers.specs.Signature.{signature, front_of, BeginsWith};
ghost use Rattle.pac_buffers.specs.Buffers.{Buffer, pac, built, size_of, content_of, IsSound};

/// What holds of a PAC that is spelt from its buffers.
pub fn pac_keeps_laws()
    // What is built is sound.
    ensures ok { (logon client : List ℕ) (delegation : Option (List ℕ)) (ticket : Bool) (server_type realm_type : ℤ) → length logon + length client + size_of delegation < 2 ^ 32 - 256
        → IsSound (built logon client delegation ticket server_type realm_type) }
    // What is sound is read.
    ensures found { (bs : List Buffer) → IsSound bs → pac_fault (pac bs) ≡ None }
    // And each of its buffers is the one that was given.
    ensures exact { (bs : List Buffer) (kind : ℕ) → IsSound bs → buffer_of kind (pac bs) ≡ content_of kind bs }
    // Bytes are spelt from one list of buffers at most.
    ensures only { (bs cs : List Buffer) → IsSound bs → IsSound cs → pac bs ≡ pac cs → bs ≡ cs }
    // No spelling is a proper prefix of another.
    ensures whole { (bs cs : List Buffer) (rest : List ℕ) → IsSound bs → IsSound cs → pac bs ++ rest ≡ pac cs → rest ≡ [] }
{}

/// What holds of the structures in the buffers: what is written in fewer than 2^31 bytes is of the form, and is read
/// again; bytes have at most one reading, and none are a proper prefix of others.
pub fn buffers_keep_laws()
    ensures client { IsPackedForm client }
    ensures delegation { IsObjectForm delegation }
    ensures requestor { IsPackedForm requestor }
    // A signature is read from the front of its buffer.
    ensures signature { IsForm signature.Fits (packed_spelling signature) (λ bytes x. signature.IsNdr 0 bytes x) (front_of signature) }
    ensures front { HasOneReading (BeginsWith signature) }
{}

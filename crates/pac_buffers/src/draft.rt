//! Putting a PAC together: its list, and the buffers behind it (MS-PAC, section 2.3).

ghost use Rattle.std.specs.Prelude.{◌≡◌, ℕ, ◌<◌, ◌^◌, List, [], ◌∷◌, ◌++◌, length, option_map, IfOk, OnOk};
ghost use Rattle.std.specs.Option.{ForSome};
ghost use Rattle.ndr_core.specs.Object.{padded};
ghost use Rattle.pac_buffers.specs.Buffers.{Buffer, entry_bytes, if_there, pac};

use crate::info_buffer::InfoBuffer;
use std::alloc::{AllocError, Global};

/// The header and the list so far, the buffers so far, and where the first buffer starts.
#[derive(Drop)]
pub struct Draft {
    list: Vec<u8>,
    body: Vec<u8>,
    start: usize,
}

/// Writes an entry of the list.
fn put_entry(list: &mut Vec<u8>, entry: InfoBuffer) -> Result<(), AllocError>
    ensures { OnOk result (list.new.items ≡ list.old.items ++ entry_bytes entry) }
{
    list.extend_from_slice(&entry.kind.to_le_bytes())?;
    list.extend_from_slice(&entry.size.to_le_bytes())?;
    list.extend_from_slice(&entry.offset.to_le_bytes())?;
    Ok(())
}

/// Writes a buffer, and zeros up to the next multiple of 8.
fn put_padded(body: &mut Vec<u8>, content: &[u8]) -> Result<(), AllocError>
    ensures { OnOk result (body.new.items ≡ body.old.items ++ padded content.now) }
{
    body.extend_from_slice(content)?;
    let gap = (8 - content.len() % 8) % 8;
    body.extend_from_slice(&[0; 8][..gap])?;
    Ok(())
}

impl Draft {
    ghost use Rattle.pac_buffers.specs.Drafts.{Holds};

    /// No buffer yet, of so many.
    pub fn new(alloc: Global, count: u32) -> Result<Draft, AllocError>
        ensures ok { IfOk result (λ draft. Holds draft count []) }
    {
        let mut list = Vec::new(alloc);
        list.extend_from_slice(&count.to_le_bytes())?;
        list.extend_from_slice(&[0; 4])?;
        Ok(Draft {
            list,
            body: Vec::new(alloc),
            start: 8 + 16 * count as usize,
        })
    }

    /// Adds a buffer behind the others.
    pub fn add(&mut self, kind: u32, content: &[u8]) -> Result<(), AllocError>
        requires start { self.old.start < 2 ^ 37 }
        requires short { length content.now < 2 ^ 32 }
        ensures ok { (count : ℕ) (bs : List Buffer) → Holds self.old count bs
            → OnOk result (Holds self.new count (bs ++ record { kind = kind; content = content.now } ∷ [])) }
        ensures unchanged { self.new.start ≡ self.old.start }
    {
        let entry = InfoBuffer {
            kind,
            size: content.len() as u32,
            offset: (self.start + self.body.len()) as u64,
        };
        put_entry(&mut self.list, entry)?;
        put_padded(&mut self.body, content)?;
        Ok(())
    }

    /// Adds a buffer, where there is one.
    pub fn add_if(&mut self, kind: u32, content: Option<&[u8]>) -> Result<(), AllocError>
        requires start { self.old.start < 2 ^ 37 }
        requires short { ForSome content (λ x. length x.now < 2 ^ 32) }
        ensures ok { (count : ℕ) (bs : List Buffer) → Holds self.old count bs
            → OnOk result (Holds self.new count (bs ++ if_there kind (option_map (λ x. x.now) content.entry))) }
        ensures unchanged { self.new.start ≡ self.old.start }
    {
        match content {
            Some(content) => self.add(kind, content),
            None => Ok(()),
        }
    }

    /// The PAC, once it has as many buffers as were said.
    pub fn finish(self) -> Result<Vec<u8>, AllocError>
        ensures ok { (bs : List Buffer) → Holds self (length bs) bs → IfOk result (λ bytes. bytes.items ≡ pac bs) }
    {
        let Draft {
            mut list,
            body,
            start: _,
        } = self;
        list.extend_from_slice(body.as_slice())?;
        Ok(list)
    }
}

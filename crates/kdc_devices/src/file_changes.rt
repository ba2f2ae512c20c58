//! A file that grows, as changes.
ghost use Rattle.std.specs.Prelude.{◌≡◌, ◌≤◌, ◌++◌, None, IfOk, codes, length, string_bytes};
ghost use Rattle.kb_base.specs.Batches.{GivesBatch};
ghost use Rattle.kb_base.specs.Faults.{HasDeviceCause};
ghost use Rattle.kdc_devices.specs.Batches.{HasWholeLines, place_after};

use crate::batch::read_batch;
use kb_base::{Changes, DeviceFault};
use krb_names::Bytes;
use std::alloc::{AllocError, Global};
use std::fs::{self, Files};
use std::io::ErrorKind;

/// The lines of the file beside the directory's, in batches. It is read from its first byte, and is opened where a batch
/// is taken and it is there; while it is not, there are no lines. A failure to open or to read it is a fault, and so is a
/// line of more than 1,048,576 bytes. What follows the last newline is left until its line ends.
#[derive(Drop)]
pub struct FileChanges<'a, R: Files> {
    alloc: Global,
    files: &'a R,
    path: String,
    file: Option<R::File>,
    /// How many bytes were taken.
    at: u64,
    faults: u64,
}

impl<'a, R: Files> FileChanges<'a, R> {
    /// The file with the directory's path and `.changes` after it, not opened yet.
    pub fn new(alloc: Global, files: &'a R, dir: &str) -> Result<FileChanges<'a, R>, AllocError>
        ensures path { IfOk result (λ changes. string_bytes changes.path ≡ dir.now ++ codes ".changes") }
        ensures start { IfOk result (λ changes. (changes.at ≡ 0) × (changes.faults ≡ 0)) }
    {
        let mut path = String::from_str(alloc, dir)?;
        path.push_str(".changes")?;
        Ok(FileChanges {
            alloc,
            files,
            path,
            file: None,
            at: 0,
            faults: 0,
        })
    }

    /// The next batch. Neither takes it nor counts a fault.
    fn next_batch(&mut self) -> Result<Vec<u8>, DeviceFault>
        ensures batch { IfOk result (λ batch. HasWholeLines batch.items) }
        ensures unchanged { (self.new.at ≡ self.old.at) × (self.new.faults ≡ self.old.faults) }
    {
        let mut file = match self.file.take() {
            Some(file) => file,
            None => match fs::open(self.files, self.path.as_str()) {
                Ok(file) => file,
                Err(error) if error.kind() == ErrorKind::NotFound => {
                    return Ok(Vec::new(self.alloc));
                }
                Err(_) => return Err(DeviceFault::Failed),
            },
        };
        let batch = read_batch(self.alloc, &mut file, self.at);
        self.file = Some(file);
        batch
    }
}

impl<'a, R: Files> Changes for FileChanges<'a, R> {
    ghost batches = { λ _. None };

    ghost faults = { λ s. s.faults };

    fn take(&mut self) -> Result<Bytes, DeviceFault>
        ensures within { IfOk result (λ batch. length batch ≤ 1048576) }
        ensures batch { GivesBatch None None result }
        ensures cause { HasDeviceCause self.old.faults self.new.faults result }
        ensures lines { IfOk result HasWholeLines }
        ensures taken { self.new.at ≡ place_after self.old.at result }
    {
        match self.next_batch() {
            Ok(batch) => {
                self.at = self.at.saturating_add(batch.len() as u64);
                Ok(Bytes::from_vec(batch))
            }
            Err(DeviceFault::NoMemory) => Err(DeviceFault::NoMemory),
            Err(DeviceFault::Failed) => {
                self.faults = self.faults.saturating_add(1);
                Err(DeviceFault::Failed)
            }
        }
    }
}

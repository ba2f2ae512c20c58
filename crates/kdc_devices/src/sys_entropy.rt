//! The random octets of the system.
ghost use Rattle.std.specs.Prelude.{◌≡◌, None, IfSome};
ghost use Rattle.std.specs.Io.KnownBytes.{Consumes};

use kb_base::{Entropy, Failed};
use std::fs::{self, Files};
use std::io::Read;

/// The file that gives random octets.
const SOURCE: &str = "/dev/urandom";

/// The octets of `/dev/urandom`, which is opened at the first call. A failure to open it is a fault, and so is a block that
/// does not come whole.
#[derive(Drop)]
pub struct SysEntropy<'a, R: Files> {
    files: &'a R,
    file: Option<R::File>,
    faults: u64,
}

impl<'a, R: Files> SysEntropy<'a, R> {
    /// The octets of the system, not opened yet.
    pub fn new(files: &'a R) -> SysEntropy<'a, R>
        ensures { result.faults ≡ 0 }
    {
        SysEntropy {
            files,
            file: None,
            faults: 0,
        }
    }

    /// The next block. Counts no fault.
    fn next_block(&mut self) -> Option<[u8; 64]>
        ensures { self.new.faults ≡ self.old.faults }
    {
        let mut file = match self.file.take() {
            Some(file) => file,
            None => fs::open(self.files, SOURCE).ok()?,
        };
        let block = read_block(&mut file);
        self.file = Some(file);
        block
    }
}

/// The next 64 octets; none where there are fewer or a read fails.
fn read_block<F: Read>(file: &mut F) -> Option<[u8; 64]>
    ensures { IfSome result (λ block. Consumes (F.remaining file.old) (F.remaining file.new) block) }
{
    let mut block = [0; 64];
    match file.read_exact(&mut block) {
        Ok(()) => Some(block),
        Err(_) => None,
    }
}

impl<'a, R: Files> Entropy for SysEntropy<'a, R> {
    ghost blocks = { λ _. None };

    ghost faults = { λ s. s.faults };

    fn fill(&mut self, block: &mut [u8; 64]) -> Result<(), Failed> {
        match self.next_block() {
            Some(octets) => {
                *block = octets;
                Ok(())
            }
            None => {
                self.faults = self.faults.saturating_add(1);
                Err(Failed)
            }
        }
    }
}

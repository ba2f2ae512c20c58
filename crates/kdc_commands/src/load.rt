//! Loading the directory.
ghost use Rattle.std.specs.Prelude.{◌≡◌, IfOk, IfErr, IfSome};
ghost use Rattle.dir_text.specs.DirectoryText.{directory_of};
ghost use Rattle.kb_base.specs.Faults.{HasDeviceCause};
ghost use Rattle.kdc_commands.specs.Loading.{reading_of};

use dir_core::{DirCause, DirPlace, DirRefusal, Directory};
use dir_text::read_directory;
use kb_base::{DeviceFault, ReadEnd, Source, read_whole};
use std::alloc::Global;

/// The longest text of a directory, in bytes. What is longer is read as far as shows that.
const MAX_DIRECTORY: usize = 16_777_216;

/// The refusal that says that memory is wanted.
const NO_MEMORY: DirRefusal = DirRefusal {
    cause: DirCause::NoMemory,
    place: DirPlace::Whole,
};

/// A directory, or why its text gives none.
#[derive(Debug, Drop)]
pub enum Loaded {
    Directory(Directory),
    Refused(DirRefusal),
}

/// Reads the directory, whose text may be refused.
pub fn load<D: Source>(alloc: Global, dir: &mut D) -> Result<Loaded, DeviceFault>
    ensures value { IfOk result (λ loaded. IfSome (D.left dir.old) (λ text. reading_of loaded ≡ directory_of text)) }
    ensures cause { HasDeviceCause (D.faults dir.old) (D.faults dir.new) result }
{
    match read_whole(alloc, dir, MAX_DIRECTORY)? {
        ReadEnd::TooLong => Ok(Loaded::Refused(too_long())),
        ReadEnd::Whole(text) => load_text(alloc, text.as_slice()),
    }
}

fn load_text(alloc: Global, text: &[u8]) -> Result<Loaded, DeviceFault>
    ensures value { IfOk result (λ loaded. reading_of loaded ≡ directory_of text.now) }
    ensures memory { IfErr result (λ fault. fault ≡ DeviceFault.NoMemory) }
{
    match read_directory(alloc, text) {
        Ok(dir) => Ok(Loaded::Directory(dir)),
        Err(refusal) if refusal == NO_MEMORY => Err(DeviceFault::NoMemory),
        Err(refusal) => Ok(Loaded::Refused(refusal)),
    }
}

/// The refusal of a text above its limit.
fn too_long() -> DirRefusal
    ensures { result ≡ record { cause = DirCause.TooMany; place = DirPlace.Whole } }
{
    DirRefusal {
        cause: DirCause::TooMany,
        place: DirPlace::Whole,
    }
}

//! A file as a source.
ghost use Rattle.std.specs.Prelude.{◌≡◌, None};

use kb_base::{Failed, Source};
use std::fs::{self, Files};
use std::io::Read;

/// The bytes of a file, which is opened at the first read. A failure to open it is a fault.
#[derive(Drop)]
pub struct FileSource<'a, R: Files> {
    files: &'a R,
    path: &'a str,
    file: Option<R::File>,
    faults: u64,
}

impl<'a, R: Files> FileSource<'a, R> {
    /// The file at this path, not opened yet.
    pub fn new(files: &'a R, path: &'a str) -> FileSource<'a, R>
        ensures { result.faults ≡ 0 }
    {
        FileSource {
            files,
            path,
            file: None,
            faults: 0,
        }
    }
}

impl<'a, R: Files> Source for FileSource<'a, R> {
    ghost left = { λ _. None };

    ghost faults = { λ s. s.faults };

    fn read(&mut self, buf: &mut [u8]) -> Result<usize, Failed> {
        if self.file.is_none() {
            match fs::open(self.files, self.path) {
                Ok(file) => self.file = Some(file),
                Err(_) => {
                    self.faults = self.faults.saturating_add(1);
                    return Err(Failed);
                }
            }
        }
        match &mut self.file {
            Some(file) => match file.read(buf) {
                Ok(count) => Ok(count),
                Err(_) => {
                    self.faults = self.faults.saturating_add(1);
                    Err(Failed)
                }
            },
            None => Ok(0),
        }
    }
}

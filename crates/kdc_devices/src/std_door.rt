//! One caller, at a reader and a writer.
ghost use Rattle.std.specs.Prelude.{◌≡◌, ◌<◌, None, false, Err, IfOk, length};
ghost use Rattle.std.specs.Io.{ReadsAtMost, WritesAtMost};
ghost use Rattle.kdc_prelude.specs.Causes.{HasCause};
ghost use Rattle.kb_base.specs.Faults.{HasDeviceCause};

use kb_base::{DeviceFault, Door, Failed};
use std::io::{Read, Write};

/// Whether the caller came, and whether it was left.
#[derive(Clone, Copy, Debug, PartialEq, Eq)]
enum Visit {
    Awaited,
    Here,
    Left,
}

/// One caller, who writes what the reader gives and is sent what the writer takes, such as standard input and output. A
/// write that takes no byte is a fault.
#[derive(Drop)]
pub struct StdDoor<R: Read + Drop, W: Write + Drop> {
    reader: R,
    writer: W,
    visit: Visit,
    faults: u64,
}

impl<R: Read + Drop, W: Write + Drop> StdDoor<R, W> {
    /// A door at which one caller waits.
    pub fn new(reader: R, writer: W) -> StdDoor<R, W>
        ensures { result.faults ≡ 0 }
    {
        StdDoor {
            reader,
            writer,
            visit: Visit::Awaited,
            faults: 0,
        }
    }
}

impl<R: Read + Drop, W: Write + Drop> Door for StdDoor<R, W> {
    ghost callers = { λ _. None };

    ghost accept_faults = { λ _. 0 };

    ghost faults = { λ s. s.faults };

    fn next_caller(&mut self) -> Result<bool, Failed> {
        let is_awaited = self.visit == Visit::Awaited;
        self.visit = if is_awaited { Visit::Here } else { Visit::Left };
        Ok(is_awaited)
    }

    fn read(&mut self, buf: &mut [u8]) -> Result<usize, Failed> {
        if self.visit != Visit::Here {
            return Ok(0);
        }
        match self.reader.read(buf) {
            Ok(count) => Ok(count),
            Err(_) => {
                self.faults = self.faults.saturating_add(1);
                Err(Failed)
            }
        }
    }

    fn write(&mut self, piece: &[u8]) -> Result<usize, DeviceFault> {
        if self.visit == Visit::Here
            && let Ok(count) = self.writer.write(piece)
            && (count > 0 || piece.is_empty())
        {
            return Ok(count);
        }
        self.faults = self.faults.saturating_add(1);
        Err(DeviceFault::Failed)
    }
}

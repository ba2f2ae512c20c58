//! A peer over TCP.
ghost use Rattle.std.specs.Prelude.{◌≡◌, None, OnOk, IsSome};

use kb_base::{DeviceFault, Failed, Link};
use std::io::{self, Read, Write};
use std::net::{Net, TcpStream};

/// The peer at a port of a host, to whom the first call connects. A failure to connect is a fault, and so is a write that
/// takes no byte.
#[derive(Drop)]
pub struct TcpLink<'a, R: Net> {
    net: &'a R,
    host: &'a str,
    port: u16,
    stream: Option<R::Stream>,
    faults: u64,
}

impl<'a, R: Net> TcpLink<'a, R> {
    /// The peer at this port of the host, a name or an address, who is not connected yet.
    pub fn new(net: &'a R, host: &'a str, port: u16) -> TcpLink<'a, R>
        ensures { result.faults ≡ 0 }
    {
        TcpLink {
            net,
            host,
            port,
            stream: None,
            faults: 0,
        }
    }

    /// Connects, where that was not done.
    fn connect(&mut self) -> io::Result<()>
        ensures connected { OnOk result (IsSome self.new.stream) }
        ensures unchanged { self.new.faults ≡ self.old.faults }
    {
        if self.stream.is_none() {
            self.stream = Some(TcpStream::connect(self.net, (self.host, self.port))?);
        }
        Ok(())
    }
}

impl<'a, R: Net> Link for TcpLink<'a, R> {
    ghost left = { λ _. None };

    ghost sent = { λ _. None };

    ghost faults = { λ s. s.faults };

    fn read(&mut self, buf: &mut [u8]) -> Result<usize, Failed> {
        if self.connect().is_ok()
            && let Some(stream) = &mut self.stream
            && let Ok(count) = stream.read(buf)
        {
            return Ok(count);
        }
        self.faults = self.faults.saturating_add(1);
        Err(Failed)
    }

    fn write(&mut self, piece: &[u8]) -> Result<usize, DeviceFault> {
        if self.connect().is_ok()
            && let Some(stream) = &mut self.stream
            && let Ok(count) = stream.write(piece)
            && (count > 0 || piece.is_empty())
        {
            return Ok(count);
        }
        self.faults = self.faults.saturating_add(1);
        Err(DeviceFault::Failed)
    }
}

//! Callers over TCP.
ghost use Rattle.std.specs.Prelude.{◌≡◌, None, OnOk, IsSome};
ghost use Rattle.kdc_prelude.specs.Causes.{HasCause};

use kb_base::{DeviceFault, Door, Failed};
use std::io::{self, Read, Write};
use std::net::{Ipv4Addr, Net, OpenListener, OpenStream, Shutdown, SocketAddrV4, TcpListener};

/// Those who connect to a port of this machine, at any of its IPv4 addresses. It is bound by `bind`, or else by the first
/// call for a caller. There is always a next caller, for whom that call waits. A write that takes no byte is a fault.
#[derive(Drop)]
pub struct TcpDoor<'a, R: Net> {
    net: &'a R,
    port: u16,
    listener: Option<R::Listener>,
    current: Option<R::Stream>,
    accept_faults: u64,
    faults: u64,
}

impl<'a, R: Net> TcpDoor<'a, R> {
    /// The callers at this port, which is not bound yet.
    pub fn new(net: &'a R, port: u16) -> TcpDoor<'a, R>
        ensures { (result.accept_faults ≡ 0) × (result.faults ≡ 0) }
    {
        TcpDoor {
            net,
            port,
            listener: None,
            current: None,
            accept_faults: 0,
            faults: 0,
        }
    }

    /// Binds `0.0.0.0:PORT`, where that was not done: from then on callers may connect, and wait for their turn. A failure
    /// is one of accepting.
    pub fn bind(&mut self) -> Result<(), Failed>
        ensures bound { OnOk result (IsSome self.new.listener) }
        ensures cause { HasCause self.old.accept_faults self.new.accept_faults result }
        ensures unchanged { self.new.faults ≡ self.old.faults }
    {
        match self.take_listener() {
            Ok(listener) => {
                self.listener = Some(listener);
                Ok(())
            }
            Err(_) => {
                self.accept_faults = self.accept_faults.saturating_add(1);
                Err(Failed)
            }
        }
    }

    /// The listener, bound where it was not.
    fn take_listener(&mut self) -> io::Result<R::Listener>
        ensures { (self.new.accept_faults ≡ self.old.accept_faults) × (self.new.faults ≡ self.old.faults) }
    {
        match self.listener.take() {
            Some(listener) => Ok(listener),
            None => {
                TcpListener::bind(
                    self.net,
                    SocketAddrV4::new(Ipv4Addr::UNSPECIFIED, self.port),
                )
            }
        }
    }

    /// Waits for the next caller's connection.
    fn accept(&mut self) -> io::Result<R::Stream>
        ensures { (self.new.accept_faults ≡ self.old.accept_faults) × (self.new.faults ≡ self.old.faults) }
    {
        let listener = self.take_listener()?;
        // The current caller need not wait for the next one to see that no more is sent to it.
        if let Some(stream) = &self.current {
            let _ = stream.shutdown(Shutdown::Write);
        }
        let accepted = listener.accept();
        self.listener = Some(listener);
        let (stream, _) = accepted?;
        Ok(stream)
    }
}

impl<'a, R: Net> Door for TcpDoor<'a, R> {
    ghost callers = { λ _. None };

    ghost accept_faults = { λ s. s.accept_faults };

    ghost faults = { λ s. s.faults };

    fn next_caller(&mut self) -> Result<bool, Failed> {
        match self.accept() {
            Ok(stream) => {
                self.current = Some(stream);
                Ok(true)
            }
            Err(_) => {
                self.accept_faults = self.accept_faults.saturating_add(1);
                Err(Failed)
            }
        }
    }

    fn read(&mut self, buf: &mut [u8]) -> Result<usize, Failed> {
        let Some(stream) = &mut self.current else {
            return Ok(0);
        };
        match stream.read(buf) {
            Ok(count) => Ok(count),
            Err(_) => {
                self.faults = self.faults.saturating_add(1);
                Err(Failed)
            }
        }
    }

    fn write(&mut self, piece: &[u8]) -> Result<usize, DeviceFault> {
        if let Some(stream) = &mut self.current
            && let Ok(count) = stream.write(piece)
            && (count > 0 || piece.is_empty())
        {
            return Ok(count);
        }
        self.faults = self.faults.saturating_add(1);
        Err(DeviceFault::Failed)
    }
}

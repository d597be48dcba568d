//! Connections over TCP that are made, taken and given back.
ghost use Rattle.std.specs.Prelude.{None};

use crate::console::Console;
use crate::faults::{counted, told_fault};
use crate::time_limits::TimeLimits;
use crate::wire::{TcpWire, socket_addr};
use ed2k_outside::{Addr, Failed, Net};
use std::io::ErrorKind;
use std::net::{SocketAddr, TcpListener, TcpStream};
use std::rt::Clock;
use std::time::Duration;
use std::{io, net, thread};

/// How many milliseconds `accept` waits where the system has nothing left for a connection.
const PAUSE: u64 = 100;

/// The errors of Linux that tell of a connection or a network, and not of the socket that listens: a firewall's
/// refusal, no protocol, a network or a host that is down or isn't reached, a connection that was aborted.
const PASSING: [i32; 11] = [1, 64, 70, 71, 92, 95, 100, 101, 103, 112, 113];

/// The errors of Linux that tell that memory, or the descriptors of the system or of the process, are used up.
const USED_UP: [i32; 4] = [12, 23, 24, 105];

/// What follows on a connection that wasn't taken.
#[derive(Clone, Copy, Debug, PartialEq, Eq)]
pub(crate) enum Next {
    /// The next one is waited for.
    Again,
    /// The same, after a moment.
    AgainLater,
    /// No further one will come.
    Fails,
}

impl Next {
    pub(crate) fn after(error: &io::Error) -> Self {
        match error.raw_os_error() {
            Some(code) if PASSING.contains(&code) => Next::Again,
            Some(code) if USED_UP.contains(&code) => Next::AgainLater,
            _ => Next::Fails,
        }
    }
}

/// TCP over IPv4. It tells nothing of its wires.
#[derive(Drop)]
pub(crate) struct TcpNet<'a, R> {
    console: &'a Console<'a, R>,
    limits: TimeLimits,
    listener: Option<TcpListener>,
    faults: u64,
}

impl<'a, R> TcpNet<'a, R> {
    pub(crate) fn new(console: &'a Console<'a, R>, limits: TimeLimits) -> Self {
        TcpNet {
            console,
            limits,
            listener: None,
            faults: 0,
        }
    }
}

/// The next connection of a listener. One that was aborted, and one that there is no room for now, isn't the end.
fn next_connection<R: Clock>(
    rt: &R,
    listener: &TcpListener,
) -> io::Result<(TcpStream, SocketAddr)> {
    for _ in 0..u64::MAX {
        match listener.accept() {
            Ok(connection) => return Ok(connection),
            Err(error) => match Next::after(&error) {
                Next::Again => {}
                Next::AgainLater => thread::sleep(rt, Duration::from_millis(PAUSE)),
                Next::Fails => return Err(error),
            },
        }
    }
    Err(io::Error::from(ErrorKind::TimedOut))
}

/// The address of an IPv4 socket.
fn ipv4_addr(addr: SocketAddr) -> io::Result<Addr> {
    match addr {
        SocketAddr::V4(addr) => Ok(Addr {
            ip: addr.ip().octets(),
            port: addr.port(),
        }),
        SocketAddr::V6(_) => Err(io::Error::from(ErrorKind::Unsupported)),
    }
}

/// The next wire of a listener, with the address that it comes from.
fn next_wire<'a, R: Clock>(
    console: &'a Console<'a, R>,
    listener: &TcpListener,
    limits: TimeLimits,
) -> io::Result<(TcpWire<'a, R>, Addr)> {
    let (stream, from) = next_connection(console.rt, listener)?;
    let from = ipv4_addr(from)?;
    let wire = TcpWire::new(console, stream, from, limits)?;
    Ok((wire, from))
}

/// A wire to an address, if one is made in time.
fn connected<'a, R: net::Net<Stream = TcpStream>>(
    console: &'a Console<'a, R>,
    to: Addr,
    limits: TimeLimits,
) -> io::Result<TcpWire<'a, R>> {
    let stream = TcpStream::connect_timeout(console.rt, &socket_addr(to), limits.connect)?;
    TcpWire::new(console, stream, to, limits)
}

/// The name of the listener in what is told.
const LISTENER: &str = "listener";

impl<'a, R: net::Net<Stream = TcpStream, Listener = TcpListener> + Clock + Eprint> Net
    for TcpNet<'a, R> {
    type Wire = TcpWire<'a, R>;

    ghost told = { λ _. None };

    ghost net_faults = { λ net. net.faults };

    ghost handed_first = { λ _. tt };

    /// It listens on all addresses of the machine.
    fn listen(&mut self, port: u16) -> Result<(), Failed> {
        let any = socket_addr(Addr { ip: [0; 4], port });
        let bound = TcpListener::bind(self.console.rt, any);
        let listener = counted(self.console, &mut self.faults, &any, bound)?;
        self.listener = Some(listener);
        Ok(())
    }

    fn connect(&mut self, to: Addr) -> Result<TcpWire<'a, R>, Failed> {
        let wire = connected(self.console, to, self.limits);
        counted(self.console, &mut self.faults, &socket_addr(to), wire)
    }

    fn accept(&mut self) -> Result<Option<(TcpWire<'a, R>, Addr)>, Failed> {
        let Some(listener) = &self.listener else {
            let why = io::Error::other("no port was named");
            return Err(told_fault(self.console, &mut self.faults, &LISTENER, &why));
        };
        let wire = next_wire(self.console, listener, self.limits);
        let pair = counted(self.console, &mut self.faults, &LISTENER, wire)?;
        Ok(Some(pair))
    }

    fn close(&mut self, wire: TcpWire<'a, R>) {
        wire.finish();
    }
}

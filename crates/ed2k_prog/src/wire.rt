//! A connection over TCP.
ghost use Rattle.std.specs.Prelude.{None, refl};
ghost use Rattle.std.specs.Io.{ReadsAtMost, WritesAtMost};

use crate::console::Console;
use crate::faults::{counted, told_fault};
use crate::time_limits::TimeLimits;
use ed2k_outside::{Addr, Failed, Sink, Source, Wire};
use std::io::{ErrorKind, Read, Write};
use std::net::{Ipv4Addr, Shutdown, SocketAddr, SocketAddrV4, TcpStream};
use std::{io, net};

/// So many bytes since the last write are more than the answers that a peer gives while it lets one wait, so it
/// is in the middle of pieces.
const MIDDLE: u64 = 10_240;

/// How often a call is made again that a signal came into.
const TRIES: u32 = 1_000;

/// How many pieces of what has come already are taken before a wire is closed.
const LAST_READS: u32 = 1_024;

/// The address of a socket.
pub(crate) fn socket_addr(addr: Addr) -> SocketAddr {
    let [a, b, c, d] = addr.ip;
    SocketAddr::V4(SocketAddrV4::new(Ipv4Addr::new(a, b, c, d), addr.port))
}

/// A TCP connection. It tells nothing of its bytes.
#[derive(Drop)]
pub(crate) struct TcpWire<'a, R> {
    console: &'a Console<'a, R>,
    stream: TcpStream,
    /// The other side.
    peer: Addr,
    limits: TimeLimits,
    /// The bytes that came since the last write.
    came: u64,
    /// Whether a read is held to the limit of a stall.
    is_in_middle: bool,
    read_faults: u64,
    write_faults: u64,
}

impl<'a, R> TcpWire<'a, R> {
    /// A wire over a connection: small messages go at once, and what waits too long fails.
    pub(crate) fn new(
        console: &'a Console<'a, R>,
        stream: TcpStream,
        peer: Addr,
        limits: TimeLimits,
    ) -> io::Result<Self> {
        stream.set_nodelay(true)?;
        stream.set_read_timeout(limits.silence)?;
        stream.set_write_timeout(limits.silence)?;
        Ok(TcpWire {
            console,
            stream,
            peer,
            limits,
            came: 0,
            is_in_middle: false,
            read_faults: 0,
            write_faults: 0,
        })
    }

    /// Sends what is on its way, and closes the connection.
    pub(crate) fn finish(self) {
        let mut stream = self.stream;
        // A socket that is closed with bytes unread drops what it was to send: so these are taken, without
        // waiting for more.
        if stream.shutdown(Shutdown::Write).is_ok() && stream.set_nonblocking(true).is_ok() {
            take_rest(&mut stream);
        }
    }
}

/// Takes what has come already.
fn take_rest(stream: &mut TcpStream) {
    let mut buf = [0; 16_384];
    for _ in 0..LAST_READS {
        match stream.read(&mut buf) {
            Ok(0) | Err(_) => return,
            Ok(_) => {}
        }
    }
}

/// Says of a wait that it was too long.
fn timed(error: io::Error) -> io::Error {
    match error.kind() {
        ErrorKind::WouldBlock => io::Error::new(ErrorKind::TimedOut, "timed out"),
        _ => error,
    }
}

/// Reads once, and again where a signal came.
fn read_some(stream: &mut TcpStream, buf: &mut [u8]) -> io::Result<usize>
    ensures { ReadsAtMost result buf.new }
{
    for _ in 0..TRIES {
        match stream.read(buf) {
            Err(error) if error.kind() == ErrorKind::Interrupted => {}
            Err(error) => return Err(timed(error)),
            Ok(n) => return Ok(n),
        }
    }
    Err(io::Error::from(ErrorKind::Interrupted))
}

/// Writes once, and again where a signal came.
fn write_some(stream: &mut TcpStream, piece: &[u8]) -> io::Result<usize>
    ensures { WritesAtMost result piece.now }
{
    for _ in 0..TRIES {
        match stream.write(piece) {
            Err(error) if error.kind() == ErrorKind::Interrupted => {}
            Err(error) => return Err(timed(error)),
            Ok(n) => return Ok(n),
        }
    }
    Err(io::Error::from(ErrorKind::Interrupted))
}

/// Holds reads to one limit or the other.
fn limit_reads(stream: &TcpStream, limits: TimeLimits, is_in_middle: bool) -> io::Result<()> {
    stream.set_read_timeout(if is_in_middle {
        limits.stall
    } else {
        limits.silence
    })
}

impl<R: Eprint> Source for TcpWire<'_, R> {
    ghost left = { λ _. None };

    ghost read_faults = { λ wire. wire.read_faults };

    ghost beside_left = { λ wire. record { bytes = None; ports = None; half_faults = wire.write_faults; port_faults = 0 } };

    fn read(&mut self, buf: &mut [u8]) -> Result<usize, Failed> {
        let of = socket_addr(self.peer);
        let is_in_middle = self.came > MIDDLE;
        if is_in_middle != self.is_in_middle {
            let limited = limit_reads(&self.stream, self.limits, is_in_middle);
            counted(self.console, &mut self.read_faults, &of, limited)?;
            self.is_in_middle = is_in_middle;
        }
        let taken = read_some(&mut self.stream, buf);
        let n = counted(self.console, &mut self.read_faults, &of, taken)?;
        self.came = self.came.saturating_add(n as u64);
        Ok(n)
    }
}

impl<R: Eprint> Sink for TcpWire<'_, R> {
    ghost sent = { λ _. None };

    ghost write_faults = { λ wire. wire.write_faults };

    ghost beside_sent = { λ wire. record { bytes = None; ports = None; half_faults = wire.read_faults; port_faults = 0 } };

    fn write(&mut self, piece: &[u8]) -> Result<usize, Failed> {
        let of = socket_addr(self.peer);
        let given = write_some(&mut self.stream, piece);
        let n = counted(self.console, &mut self.write_faults, &of, given)?;
        if n == 0 && !piece.is_empty() {
            let why = io::Error::from(ErrorKind::WriteZero);
            return Err(told_fault(self.console, &mut self.write_faults, &of, &why));
        }
        self.came = 0;
        Ok(n)
    }
}

impl<R: net::Net + Eprint> Wire for TcpWire<'_, R> {
    ghost ports = { λ _. None };

    ghost reach_faults = { λ _. 0 };

    ghost left_beside = { λ _. refl };

    ghost sent_beside = { λ _. refl };

    ghost tells_ports = { λ _. tt };

    /// A port that can't be connected in time isn't reached, whatever the cause.
    fn reach(&mut self, port: u16) -> Result<bool, Failed> {
        let addr = socket_addr(Addr {
            ip: self.peer.ip,
            port,
        });
        let connected = TcpStream::connect_timeout(self.console.rt, &addr, self.limits.connect);
        Ok(connected.is_ok())
    }
}

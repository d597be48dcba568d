//! Wires over the loopback.

use crate::console::{Console, Reader};
use crate::net::{Next, TcpNet};
use crate::test_same::{assert_same, assert_that};
use crate::time_limits::TimeLimits;
use ed2k_outside::{Addr, Net, Sink, Source, Wire};
use std::io;
use std::net::TcpListener;
use std::test::Fail;
use std::time::{Duration, Instant};

/// A port of this machine that nobody listens at.
fn free_port(rt: &HostRuntime) -> Result<u16, Fail> {
    let listener = TcpListener::bind(rt, "127.0.0.1:0")?;
    Ok(listener.local_addr()?.port())
}

fn here(port: u16) -> Addr {
    Addr {
        ip: [127, 0, 0, 1],
        port,
    }
}

/// Limits of a fraction of a second.
fn short_limits(silence: u64, stall: u64) -> TimeLimits {
    TimeLimits {
        connect: Duration::from_millis(200),
        silence: Some(Duration::from_millis(silence)),
        stall: Some(Duration::from_millis(stall)),
    }
}

#[test]
fn bytes_cross_a_connection(rt: HostRuntime) -> Result<(), Fail> {
    let port = free_port(&rt)?;
    let console = Console::new(&rt, Reader::Script);
    let mut net = TcpNet::new(&console, TimeLimits::standard());
    assert_that(&rt, net.accept().is_err(), "no port was named");
    assert_that(&rt, net.connect(here(port)).is_err(), "nobody listens yet");
    net.listen(port)?;
    let mut other = TcpNet::new(&console, TimeLimits::standard());
    assert_that(&rt, other.listen(port).is_err(), "the port is taken");
    let mut near = net.connect(here(port))?;
    let (mut far, from) = net.accept()?.ok_or("no connection came")?;
    assert_same(&rt, &from.ip, &[127, 0, 0, 1], "address");
    assert_that(
        &rt,
        from.port > 0 && from.port != port,
        "the other side's own port",
    );
    assert_same(&rt, &near.write(b"abc")?, &3, "bytes written");
    let mut buf = [0u8; 8];
    assert_same(&rt, &far.read(&mut buf)?, &3, "bytes read");
    assert_that(&rt, buf.starts_with(b"abc"), "buffer");
    net.close(near);
    assert_same(&rt, &far.read(&mut buf)?, &0, "the other side is closed");
    net.close(far);
    Ok(())
}

#[test]
fn an_open_port_is_reached(rt: HostRuntime) -> Result<(), Fail> {
    let port = free_port(&rt)?;
    let console = Console::new(&rt, Reader::Script);
    let mut net = TcpNet::new(&console, TimeLimits::standard());
    net.listen(port)?;
    let near = net.connect(here(port))?;
    let (mut far, _) = net.accept()?.ok_or("no connection came")?;
    assert_that(&rt, far.reach(port)?, "open");
    let closed = free_port(&rt)?;
    assert_that(&rt, !far.reach(closed)?, "closed");
    net.close(near);
    net.close(far);
    Ok(())
}

#[test]
fn a_silent_peer_fails_the_read(rt: HostRuntime) -> Result<(), Fail> {
    let port = free_port(&rt)?;
    let console = Console::new(&rt, Reader::Script);
    let mut net = TcpNet::new(&console, short_limits(300, 100));
    net.listen(port)?;
    let mut near = net.connect(here(port))?;
    let (far, _) = net.accept()?.ok_or("no connection came")?;
    let began = Instant::now(&rt)?;
    let mut buf = [0u8; 8];
    assert_that(&rt, near.read(&mut buf).is_err(), "nothing comes");
    assert_that(
        &rt,
        began.elapsed(&rt)? >= Duration::from_millis(250),
        "it waits",
    );
    net.close(near);
    net.close(far);
    Ok(())
}

#[test]
fn a_peer_that_takes_nothing_fails_the_write(rt: HostRuntime) -> Result<(), Fail> {
    let port = free_port(&rt)?;
    let console = Console::new(&rt, Reader::Script);
    let mut net = TcpNet::new(&console, short_limits(200, 100));
    net.listen(port)?;
    let mut near = net.connect(here(port))?;
    let (far, _) = net.accept()?.ok_or("no connection came")?;
    let piece = [7u8; 65_536];
    let mut failed = false;
    for _ in 0..1_000 {
        failed = near.write(&piece).is_err();
        if failed {
            break;
        }
    }
    assert_that(&rt, failed, "no buffer is so large");
    net.close(near);
    net.close(far);
    Ok(())
}

/// How long a read waits after these bytes came, with 600 ms for a silence and 100 for a stall.
fn wait_after(rt: &HostRuntime, piece: &[u8], answers: bool) -> Result<Duration, Fail> {
    let port = free_port(rt)?;
    let console = Console::new(rt, Reader::Script);
    let mut net = TcpNet::new(&console, short_limits(600, 100));
    net.listen(port)?;
    let mut near = net.connect(here(port))?;
    let (mut far, _) = net.accept()?.ok_or("no connection came")?;
    let mut buf = [0u8; 16_384];
    far.write(piece)?;
    let mut left = piece.len();
    for _ in 0..piece.len() {
        if left == 0 {
            break;
        }
        left = left.saturating_sub(near.read(&mut buf)?);
    }
    if answers {
        near.write(b"next")?;
    }
    let began = Instant::now(rt)?;
    if near.read(&mut buf).is_ok() {
        return Err(Fail::from("something came"));
    }
    let waited = began.elapsed(rt)?;
    net.close(near);
    net.close(far);
    Ok(waited)
}

#[test]
fn a_peer_may_stall_in_the_middle_for_a_moment_alone(rt: HostRuntime) -> Result<(), Fail> {
    let half = Duration::from_millis(500);
    assert_that(
        &rt,
        wait_after(&rt, &[7; 10_241], false)? < half,
        "it stalls",
    );
    assert_that(
        &rt,
        wait_after(&rt, &[7; 10_240], false)? >= half,
        "that may be its queue",
    );
    assert_that(
        &rt,
        wait_after(&rt, &[7; 10_241], true)? >= half,
        "it was asked again",
    );
    Ok(())
}

#[test]
fn what_was_written_last_arrives(rt: HostRuntime) -> Result<(), Fail> {
    let port = free_port(&rt)?;
    let console = Console::new(&rt, Reader::Script);
    let mut net = TcpNet::new(&console, TimeLimits::standard());
    net.listen(port)?;
    let mut near = net.connect(here(port))?;
    let (mut far, _) = net.accept()?.ok_or("no connection came")?;
    assert_same(&rt, &far.write(b"unread")?, &6, "bytes written");
    assert_same(&rt, &near.write(b"last")?, &4, "bytes written");
    net.close(near);
    let mut buf = [0u8; 8];
    assert_same(&rt, &far.read(&mut buf)?, &4, "bytes read");
    assert_same(&rt, &far.read(&mut buf)?, &0, "end");
    net.close(far);
    Ok(())
}

#[test]
fn an_aborted_connection_is_not_the_end(rt: HostRuntime) {
    let after = |code: i32| Next::after(&io::Error::from_raw_os_error(code));
    assert_same(&rt, &after(103), &Next::Again, "ECONNABORTED");
    assert_same(&rt, &after(101), &Next::Again, "ENETUNREACH");
    assert_same(&rt, &after(24), &Next::AgainLater, "EMFILE");
    assert_same(&rt, &after(23), &Next::AgainLater, "ENFILE");
    assert_same(&rt, &after(22), &Next::Fails, "EINVAL");
}

#[test]
fn seconds_of_the_environment_set_the_limits(rt: HostRuntime) {
    let standard = TimeLimits::standard();
    assert_same(&rt, &standard.connect, &Duration::from_secs(5), "connect");
    assert_same(
        &rt,
        &standard.silence,
        &Some(Duration::from_secs(600)),
        "silence",
    );
    assert_same(
        &rt,
        &standard.stall,
        &Some(Duration::from_secs(60)),
        "stall",
    );
    assert_same(&rt, &TimeLimits::parse("600").ok(), &Some(standard), "600");
    let limits = TimeLimits::parse("20").unwrap_or(standard);
    assert_same(
        &rt,
        &limits.stall,
        &Some(Duration::from_secs(2)),
        "stall of 20",
    );
    let limits = TimeLimits::parse("6000").unwrap_or(standard);
    assert_same(
        &rt,
        &limits.stall,
        &Some(Duration::from_secs(60)),
        "stall of 6000",
    );
    let limits = TimeLimits::parse("0").unwrap_or(standard);
    assert_same(&rt, &limits.silence, &None, "silence of 0");
    assert_same(&rt, &limits.stall, &None, "stall of 0");
    for text in ["", "1.5", "-1", "+1", "4294967296", "ten"] {
        assert_that(&rt, TimeLimits::parse(text).is_err(), text);
    }
}

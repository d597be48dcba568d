//! A stream of bytes that comes in, one that goes out, and both together with the other side's ports.
ghost use Rattle.std.specs.Prelude.{◌≡◌, ◌<◌, ◌↔◌, List, ℕ, length, IfOk, IfSome, OnSome, IsSome, IsTrue, Contains};
ghost use Rattle.std.specs.declared.option.Option.{Option};
ghost use Rattle.std.specs.Io.{ReadsAtMost, WritesAtMost};
ghost use Rattle.std.specs.Io.KnownBytes.{IsAtEnd};
ghost use Rattle.ed2k_outside.specs.Causes.{HasCause, NoneIsFault};
ghost use Rattle.ed2k_outside.specs.Halves.{Beside, Takes, Sends};

use crate::Failed;

/// Bytes that come in.
pub trait Source {
    /// The bytes left, where the source tells them.
    ghost left: { Self → Option (List ℕ) };

    /// How often a read failed. It never falls.
    ghost read_faults: { Self → ℕ };

    /// The rest of the object, which no read changes. Of a wire these are the bytes sent and the ports, with
    /// the counts of their faults.
    ghost beside_left: { Self → Beside };

    /// Takes some of the bytes left from their front, at most as many as the buffer has room for. An
    /// answer of 0 on a buffer that isn't empty is the end. A read that fails takes nothing. It may wait,
    /// as long as the source lets it.
    fn read(&mut self, buf: &mut [u8]) -> Result<usize, Failed>
        ensures bound { ReadsAtMost result buf.new }
        ensures bytes { Takes (left self.old) (left self.new) result buf.new }
        ensures end { IfOk result (λ n. n ≡ 0 → 0 < length buf.new → IsAtEnd (left self.old)) }
        ensures cause { HasCause (read_faults self.old) (read_faults self.new) result }
        ensures beside { beside_left self.new ≡ beside_left self.old };
}

/// Bytes that go out.
pub trait Sink {
    /// The bytes sent, where the sink tells them.
    ghost sent: { Self → Option (List ℕ) };

    /// How often a write failed, or took nothing of a piece that isn't empty. It never falls.
    ghost write_faults: { Self → ℕ };

    /// The rest of the object, which no write changes. Of a wire these are the bytes left and the ports,
    /// with the counts of their faults.
    ghost beside_sent: { Self → Beside };

    /// Appends some of the piece, from its front, to the bytes sent, and answers how many. A write that
    /// fails sends nothing. It may wait, as long as the sink lets it.
    fn write(&mut self, piece: &[u8]) -> Result<usize, Failed>
        ensures bound { WritesAtMost result piece.now }
        ensures bytes { Sends (sent self.old) (sent self.new) result piece.now }
        ensures cause { HasCause (write_faults self.old) (write_faults self.new) result }
        ensures none { NoneIsFault (write_faults self.old) (write_faults self.new) result piece.now }
        ensures beside { beside_sent self.new ≡ beside_sent self.old };
}

/// A connection to another side. Its count of faults is the sum of the counts of its two halves and of
/// `reach`.
pub trait Wire: Source + Sink {
    /// The ports of the other side's address that take a connection, where the wire tells them.
    ghost ports: { Self → Option (List ℕ) };

    /// How often `reach` failed. It never falls.
    ghost reach_faults: { Self → ℕ };

    /// Whether the other side's address takes a connection at the port.
    fn reach(&mut self, port: u16) -> Result<bool, Failed>
        ensures reaches { IfOk result
            (λ answer. IfSome (ports self.old) (λ ports. IsTrue answer ↔ Contains ports port)) }
        ensures cause { HasCause (reach_faults self.old) (reach_faults self.new) result }
        ensures ports { ports self.new ≡ ports self.old }
        ensures left { Self.left self.new ≡ Self.left self.old }
        ensures sent { Self.sent self.new ≡ Self.sent self.old }
        ensures read_faults { Self.read_faults self.new ≡ Self.read_faults self.old }
        ensures write_faults { Self.write_faults self.new ≡ Self.write_faults self.old };

    /// Beside the bytes left lie the bytes sent and the ports, with their counts.
    ghost left_beside: { (w : Self) → Self.beside_left w ≡ record {
      bytes = Self.sent w;
      ports = ports w;
      half_faults = Self.write_faults w;
      port_faults = reach_faults w;
    } };

    /// Beside the bytes sent lie the bytes left and the ports, with their counts.
    ghost sent_beside: { (w : Self) → Self.beside_sent w ≡ record {
      bytes = Self.left w;
      ports = ports w;
      half_faults = Self.read_faults w;
      port_faults = reach_faults w;
    } };

    /// A wire that tells the bytes left tells the ports.
    ghost tells_ports: { (w : Self) → OnSome (Self.left w) (IsSome (ports w)) };
}

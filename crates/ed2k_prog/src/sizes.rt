//! Numbers of bytes and of seconds, as a person reads them.

use std::fmt;

const KIB: u64 = 1 << 10;

const MIB: u64 = 1 << 20;

const GIB: u64 = 1 << 30;

/// A number of bytes. From 1,024 on it is told in binary units, with one digit behind the point.
#[derive(Clone, Copy, Debug, PartialEq, Eq)]
pub(crate) struct Size(pub(crate) u64);

impl fmt::Display for Size {
    fn fmt<W: fmt::Write>(&self, f: &mut fmt::Formatter<W>) -> fmt::Result {
        let bytes = self.0;
        let (whole, tenths, unit) = if bytes < KIB {
            return write!(f, "{bytes} B");
        } else if bytes < MIB {
            (bytes / KIB, bytes % KIB * 10 / KIB, "KiB")
        } else if bytes < GIB {
            (bytes / MIB, bytes % MIB * 10 / MIB, "MiB")
        } else {
            (bytes / GIB, bytes % GIB * 10 / GIB, "GiB")
        };
        write!(f, "{whole}.{tenths} {unit}")
    }
}

/// A number of seconds. From a minute on it is told in the two greatest units.
#[derive(Clone, Copy, Debug, PartialEq, Eq)]
pub(crate) struct Span(pub(crate) u64);

impl fmt::Display for Span {
    fn fmt<W: fmt::Write>(&self, f: &mut fmt::Formatter<W>) -> fmt::Result {
        let seconds = self.0;
        let minutes = seconds / 60;
        let hours = minutes / 60;
        if minutes == 0 {
            return write!(f, "{seconds} s");
        }
        if hours == 0 {
            let rest = seconds % 60;
            return write!(f, "{minutes} min {rest} s");
        }
        let rest = minutes % 60;
        write!(f, "{hours} h {rest} min")
    }
}

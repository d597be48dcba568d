//! How long a wire may wait.

use std::env;
use std::env::{Env, VarError};
use std::time::Duration;

/// The variable of the environment that changes the limits.
pub(crate) const VARIABLE: &str = "ED2K_NODE_TIMEOUT";

/// A wire that takes and gives nothing for so many seconds has failed.
const SILENCE: u64 = 600;

/// The most seconds that may pass in the middle of pieces.
const STALL: u64 = 60;

/// How many seconds a connection may take to be made.
const CONNECT: u64 = 5;

/// How long a wire may wait. `None` is for ever.
#[derive(Clone, Copy, Debug, PartialEq, Eq)]
pub(crate) struct TimeLimits {
    /// For a connection.
    pub(crate) connect: Duration,
    /// For a read or a write.
    pub(crate) silence: Option<Duration>,
    /// For a read in the middle of pieces.
    pub(crate) stall: Option<Duration>,
}

/// The variable of the environment isn't a number of seconds.
#[derive(Debug, Drop)]
pub(crate) struct BadLimit;

impl TimeLimits {
    /// The limits of a silence: that of a stall is a tenth of it, a minute at most. A silence of nothing stands
    /// for none of either.
    pub(crate) fn of_silence(silence: Duration) -> Self {
        TimeLimits {
            connect: Duration::from_secs(CONNECT),
            silence: some_time(silence),
            stall: some_time((silence / 10).min(Duration::from_secs(STALL))),
        }
    }

    /// The limits of ten minutes.
    pub(crate) fn standard() -> Self {
        TimeLimits::of_silence(Duration::from_secs(SILENCE))
    }

    /// The limits that the environment asks for, and else the standard ones.
    pub(crate) fn from_environment<R: Env + AllocGlobal>(rt: &R) -> Result<Self, BadLimit> {
        match env::var(rt, VARIABLE) {
            Ok(text) => TimeLimits::parse(text.as_str()),
            Err(VarError::NotUnicode) => Err(BadLimit),
            Err(_) => Ok(TimeLimits::standard()),
        }
    }

    /// Reads a number of seconds: digits alone, below 2^32.
    pub(crate) fn parse(text: &str) -> Result<Self, BadLimit> {
        if !text.bytes().all(|byte| byte.is_ascii_digit()) {
            return Err(BadLimit);
        }
        match text.parse::<u32>() {
            Ok(seconds) => Ok(TimeLimits::of_silence(Duration::from_secs(seconds as u64))),
            Err(_) => Err(BadLimit),
        }
    }
}

fn some_time(limit: Duration) -> Option<Duration> {
    if limit.is_zero() { None } else { Some(limit) }
}

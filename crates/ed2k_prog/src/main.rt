//! The program: the real net, files, output and clock, handed to the top call.
#![tactic(auto)]

mod blobs;
mod clock;
mod console;
mod counts;
mod faults;
mod help;
mod net;
mod open_files;
mod output;
mod progress;
mod reason;
mod regular;
mod size_limit;
mod sizes;
mod standard;
mod time_limits;
mod vault;
mod wire;

use blobs::FileBlobs;
use clock::SystemClock;
use console::{Console, Reader};
use ed2k_node::{Hands, run};
use ed2k_outside::NoMemory;
use help::Asked;
use net::TcpNet;
use open_files::Purpose;
use output::StandardOutput;
use standard::{StandIns, is_closed};
use std::env::Env;
use std::io::{ErrorKind, IsTerminal};
use std::os::fd::AsFd;
use std::process::ExitCode;
use std::{env, io};
use time_limits::{BadLimit, TimeLimits, VARIABLE};
use vault::FileVault;

/// The status of a run that was refused memory.
const NO_MEMORY: u8 = 5;

fn main(rt: HostRuntime) -> ExitCode {
    let _stand_ins = StandIns::new(&rt);
    // A stream that is closed still has no file in its place.
    let is_output_lost = is_closed(&rt.stdout());
    let console = Console::new(&rt, reader_of(&rt.stderr()));
    let given = match read_words(&console) {
        Ok(given) => given,
        Err(NoMemory) => return ExitCode::from(NO_MEMORY),
    };
    let asked = given.as_ref().and_then(|words| Asked::by(words));
    let limits = read_limits(&console);
    let are_wrong = given.is_none() || limits.is_none();
    let words = given.filter(|_| !are_wrong).unwrap_or(Vec::new(rt.alloc()));
    let limits = limits.unwrap_or(TimeLimits::standard());
    let hands = Hands {
        net: TcpNet::new(&console, limits),
        vault: FileVault::new(&console, purpose_of(&words)),
        blobs: FileBlobs::new(&console),
        out: StandardOutput::new(&console, is_output_lost),
        clock: SystemClock::new(&rt),
    };
    let ended = run(&rt, rt.alloc(), &words, hands);
    console.clear();
    if let Some(asked) = asked {
        console.print(&asked);
    }
    ExitCode::from(ended.status)
}

/// Who reads standard error.
fn reader_of(stream: &(impl AsFd + IsTerminal)) -> Reader {
    if is_closed(stream) {
        Reader::Nobody
    } else if stream.is_terminal() {
        Reader::Person
    } else {
        Reader::Script
    }
}

/// What a command does with a place.
fn purpose_of(words: &[String]) -> Purpose {
    match words {
        [command, ..] if command.as_str() == "check" => Purpose::Check,
        _ => Purpose::Download,
    }
}

/// The words of the command line, without the program's name. `None` where one isn't UTF-8, which is told.
fn read_words<R: Env + AllocGlobal + Eprint>(
    console: &Console<'_, R>,
) -> Result<Option<Vec<String>>, NoMemory> {
    match collect_words(console.rt) {
        Ok(words) => Ok(Some(words)),
        Err(why) if why.kind() == ErrorKind::OutOfMemory => Err(NoMemory),
        Err(_) => {
            console.tell(&"a word", &io::Error::other("not UTF-8"));
            Ok(None)
        }
    }
}

fn collect_words<R: Env + AllocGlobal>(rt: &R) -> io::Result<Vec<String>> {
    let mut words = Vec::new(rt.alloc());
    for word in env::args(rt)?.skip(1) {
        words.push(word)?;
    }
    Ok(words)
}

/// The limits that the environment asks for. `None` where it can't be read, which is told.
fn read_limits<R: Env + AllocGlobal + Eprint>(console: &Console<'_, R>) -> Option<TimeLimits> {
    match TimeLimits::from_environment(console.rt) {
        Ok(limits) => Some(limits),
        Err(BadLimit) => {
            console.tell(&VARIABLE, &io::Error::other("not a number of seconds"));
            None
        }
    }
}

#[cfg(test)]
mod net_tests;
#[cfg(test)]
mod test_same;
#[cfg(test)]
mod tests;

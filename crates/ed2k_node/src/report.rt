//! What a download prints: a line for the file, one for its parts, one for each peer, and one for
//! its end.
ghost use Rattle.std.specs.Prelude.{◌≡◌, ◌≢◌, ◌⊎◌, [], IfOk, string_bytes};
ghost use Rattle.ed2k_outside.specs.Causes.{Rose};
ghost use Rattle.part_sizes.specs.Part.{IsSize};
ghost use Rattle.reserve_core.specs.Events.{events};
ghost use Rattle.ed2k_node.specs.Report.{bytes_from, bytes_of, cause_name, file_line, last_line, lines_for};
ghost use Rattle.ed2k_node.specs.Report.{lines_in, own_parts_line, peer_line, text_in, verified_count};
ghost use Rattle.ed2k_node.specs.Report.{HasOutputCause, IsCounted, IsReportedOn, SendsNoMore, WantsMemory};
ghost use Rattle.ed2k_node.specs.Sent.{HasSent};
ghost use Rattle.ed2k_node.specs.Status.{code_of};

use crate::answer::{OUTPUT, send};
use crate::status::Status;
use ed2k_link::push_name;
use ed2k_outside::{Failed, Sink, Vault};
use part_hashset::Aim;
use part_sizes::data_parts;
use part_store::PartFile;
use peer_fetch::{Cause, PeerEnd};
use reserve_core::{Entry, Event};
use std::alloc::{AllocError, Global};

/// Why a text wasn't sent whole.
#[derive(Clone, Copy, Debug, PartialEq, Eq)]
enum ReportFault {
    /// The sink failed.
    Output,
    /// Memory was wanted and refused.
    NoMemory,
}

impl From<Failed> for ReportFault {
    ghost use Rattle.std.specs.Prelude.{◌≡◌};
    ghost use Rattle.ed2k_node.specs.declared.report.ReportFault.TheVariants.{Output};

    ghost from_gives = { λ _ fault. fault ≡ Output };

    fn from(_failed: Failed) -> Self {
        ReportFault::Output
    }
}

impl From<AllocError> for ReportFault {
    ghost use Rattle.std.specs.Prelude.{◌≡◌};
    ghost use Rattle.ed2k_node.specs.declared.report.ReportFault.TheVariants.{NoMemory};

    ghost from_gives = { λ _ fault. fault ≡ NoMemory };

    fn from(_refused: AllocError) -> Self {
        ReportFault::NoMemory
    }
}

/// What is told of a download.
#[derive(Clone, Copy)]
pub(crate) struct Summary<'a> {
    /// The file's name.
    pub(crate) name: &'a [u8],
    pub(crate) aim: Aim,
    /// The number of verified parts.
    pub(crate) verified: u64,
    /// Empty where no store was made.
    pub(crate) log: &'a [Entry],
    pub(crate) peers: &'a [PeerEnd],
}

/// The number of verified parts.
pub(crate) fn count_verified<V: Vault + Drop>(file: &PartFile<V>) -> u64
    requires { IsSize file.now.aim.size }
    ensures { result ≡ verified_count file.now.aim (events file.now.log) }
{
    let mut count = 0u64;
    for part in 0..data_parts(file.aim().size) {
        count += u64::from(file.verified(part));
    }
    count
}

/// The name of a cause, without what it carries.
fn cause_name(cause: Cause) -> &'static str
    ensures { result.now ≡ cause_name cause }
{
    match cause {
        Cause::NoBlock => "NoBlock",
        Cause::Ended => "Ended",
        Cause::WireFault => "WireFault",
        Cause::BadFrame(_) => "BadFrame",
        Cause::BadMsg(_) => "BadMsg",
        Cause::NoFile => "NoFile",
        Cause::BadStatus(_) => "BadStatus",
        Cause::BadSet(_) => "BadSet",
        Cause::Cheat => "Cheat",
        Cause::Worn(_) => "Worn",
        Cause::StoreFault => "StoreFault",
        Cause::Spent => "Spent",
        Cause::NoLink => "NoLink",
        Cause::NoMemory => "NoMemory",
    }
}

/// The bytes that an event writes for a peer.
fn bytes_of(event: &Event, number: u64) -> u64
    ensures { result ≡ bytes_of number event.now }
{
    match event {
        Event::Write(peer, span) if *peer == number => span.len(),
        _ => 0,
    }
}

/// The bytes of all writes for a peer; 0 for a peer without a number.
fn bytes_from(log: &[Entry], number: Option<u64>) -> u128
    ensures { result ≡ bytes_from (events log.now) number }
{
    let Some(peer) = number else {
        return 0;
    };
    let mut sum = 0u128;
    for entry in log {
        sum += u128::from(bytes_of(&entry.event, peer));
    }
    sum
}

fn file_line(alloc: Global, name: &[u8]) -> Result<String, AllocError>
    ensures { IfOk result (λ text. string_bytes text ≡ file_line name.now) }
{
    let mut text = String::from_str(alloc, "file ")?;
    push_name(&mut text, name)?;
    text.push_str("\n")?;
    Ok(text)
}

fn parts_line(alloc: Global, download: &Summary<'_>) -> Result<String, AllocError>
    requires size { IsSize download.now.aim.size }
    requires counted { IsCounted download.now }
    ensures { IfOk result (λ text. string_bytes text ≡ own_parts_line download.now) }
{
    let verified = download.verified;
    let all = data_parts(download.aim.size);
    format!(in alloc; "parts {verified}/{all}\n")
}

fn peer_line(
    alloc: Global,
    log: &[Entry],
    place: usize,
    peer: &PeerEnd,
) -> Result<String, AllocError>
    ensures { IfOk result (λ text. string_bytes text ≡ peer_line (events log.now) place peer.now) }
{
    let cause = cause_name(peer.cause);
    let bytes = bytes_from(log, peer.number);
    format!(in alloc; "peer {place} {cause} {bytes}\n")
}

/// The line that tells an end. There is none where memory was refused.
fn last_line(alloc: Global, ending: Status) -> Result<String, AllocError>
    ensures { IfOk result (λ text. string_bytes text ≡ last_line ending) }
{
    match ending {
        Status::Complete => String::from_str(alloc, "complete\n"),
        Status::Incomplete => String::from_str(alloc, "incomplete\n"),
        Status::Vault => String::from_str(alloc, "vault\n"),
        Status::NoMemory => Ok(String::new(alloc)),
        Status::Net => String::from_str(alloc, "net\n"),
        Status::BadPart(part) => format!(in alloc; "bad part {part}\n"),
        Status::NoSet => String::from_str(alloc, "no hash set\n"),
    }
}

/// Sends the lines of the peers.
fn send_peers<O: Sink>(
    alloc: Global,
    out: &mut O,
    log: &[Entry],
    peers: &[PeerEnd],
) -> Result<(), ReportFault>
    ensures sent { HasSent result (O.sent out.old) (O.sent out.new) (lines_for log.now peers.now) }
    ensures cause { HasOutputCause (O.write_faults out.old) (O.write_faults out.new) result }
{
    for (place, peer) in peers.iter().enumerate() {
        let line = peer_line(alloc, log, place, peer)?;
        send(out, line.as_bytes())?;
    }
    Ok(())
}

/// Sends the lines before the last. There are none where no store was made.
fn send_lines<O: Sink>(
    alloc: Global,
    out: &mut O,
    download: &Summary<'_>,
) -> Result<(), ReportFault>
    requires size { IsSize download.now.aim.size }
    requires counted { IsCounted download.now }
    ensures sent { HasSent result (O.sent out.old) (O.sent out.new) (lines_in download.now) }
    ensures silent { download.now.log.now ≡ [] → out.new ≡ out.old }
    ensures cause { HasOutputCause (O.write_faults out.old) (O.write_faults out.new) result }
{
    if download.log.is_empty() {
        return Ok(());
    }
    let file = file_line(alloc, download.name)?;
    send(out, file.as_bytes())?;
    let parts = parts_line(alloc, download)?;
    send(out, parts.as_bytes())?;
    send_peers(alloc, out, download.log, download.peers)
}

/// Sends the last line.
fn send_last<O: Sink>(alloc: Global, out: &mut O, ending: Status) -> Result<(), ReportFault>
    ensures sent { HasSent result (O.sent out.old) (O.sent out.new) (last_line ending) }
    ensures silent { ending ≡ Status.NoMemory → out.new ≡ out.old }
    ensures refused { WantsMemory result → out.new ≡ out.old }
    ensures cause { HasOutputCause (O.write_faults out.old) (O.write_faults out.new) result }
{
    if let Status::NoMemory = ending {
        return Ok(());
    }
    let line = last_line(alloc, ending)?;
    send(out, line.as_bytes())?;
    Ok(())
}

/// Sends the whole text.
fn send_report<O: Sink>(
    alloc: Global,
    out: &mut O,
    download: &Summary<'_>,
    ending: Status,
) -> Result<(), ReportFault>
    requires size { IsSize download.now.aim.size }
    requires counted { IsCounted download.now }
    ensures sent { HasSent result (O.sent out.old) (O.sent out.new) (text_in download.now ending) }
    ensures refused { SendsNoMore result (lines_in download.now) (O.sent out.old) (O.sent out.new) }
    ensures silent { ending ≡ Status.NoMemory → download.now.log.now ≡ [] → out.new ≡ out.old }
    ensures unmade { WantsMemory result → download.now.log.now ≡ [] → out.new ≡ out.old }
    ensures cause { HasOutputCause (O.write_faults out.old) (O.write_faults out.new) result }
{
    send_lines(alloc, out, download)?;
    send_last(alloc, out, ending)
}

/// The status where the sink failed: 6, but 5 where memory was refused before.
fn without_output(ending: Status) -> u8
    ensures refused { ending ≡ Status.NoMemory → result ≡ 5 }
    ensures output { ending ≢ Status.NoMemory → result ≡ OUTPUT }
{
    match ending {
        Status::NoMemory => 5,
        _ => OUTPUT,
    }
}

/// Prints how a download ended, and tells the status that the program ends with: the ending's, 5
/// where memory was refused, and else 6 where the sink failed. A front of the text was sent then.
pub(crate) fn report_download<O: Sink>(
    alloc: Global,
    out: &mut O,
    download: &Summary<'_>,
    ending: Status,
) -> u8
    requires size { IsSize download.now.aim.size }
    requires counted { IsCounted download.now }
    ensures reported { IsReportedOn O.Sink download.now ending result out.old out.new }
    ensures status { (result ≡ code_of ending) ⊎ (result ≡ 5) ⊎ (result ≡ OUTPUT) }
    ensures refused { ending ≡ Status.NoMemory → result ≡ 5 }
    ensures silent { result ≡ 5 → download.now.log.now ≡ [] → out.new ≡ out.old }
    ensures output { result ≡ OUTPUT → Rose (O.write_faults out.old) (O.write_faults out.new) }
{
    match send_report(alloc, out, download, ending) {
        Ok(()) => ending.code(),
        Err(ReportFault::NoMemory) => 5,
        Err(ReportFault::Output) => without_output(ending),
    }
}

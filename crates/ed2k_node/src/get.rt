//! `get LINK PLACE` with one peer.
ghost use Rattle.std.specs.Prelude.{◌≡◌, ◌<◌, ◌≤◌, ◌+◌, ◌++◌, [], ◌∷◌, None, Some};
ghost use Rattle.std.specs.Prelude.{IfErr, IfOk, OnOk, vec_capacity, vec_len};
ghost use Rattle.part_sizes.specs.Part.{IsSize};
ghost use Rattle.peer_fetch.specs.Serves.{nothing};
ghost use Rattle.reserve_core.specs.Events.{events};
ghost use Rattle.reserve_core.specs.declared.event.Event.TheVariants.{Opened};
ghost use Rattle.ed2k_node.specs.Download.{DownloadsInto, Loads, order};
ghost use Rattle.ed2k_node.specs.Got.{AnswersGet, Downloads, IsUncalled, PrintsLine, RefusesWords};
ghost use Rattle.ed2k_node.specs.Left.{IsComplete, IsNeverShared, IsNew};
ghost use Rattle.ed2k_node.specs.Link.{aim_of, opened_log};
ghost use Rattle.ed2k_node.specs.Peers.{IsUnlinked};
ghost use Rattle.ed2k_node.specs.Report.{verified_count};
ghost use Rattle.ed2k_node.specs.Store.{HasRisen, HasSameLog, IsGivenUp, IsTakenApart, MayMove, SizesBody};
ghost use Rattle.ed2k_node.specs.Texts.{refusal};
ghost use Rattle.ed2k_node.specs.Words.{get_of, texts, words_of};

use crate::answer::{Reply, end};
use crate::hands::{Ended, Hands};
use crate::report::{Summary, count_verified, report_download};
use crate::rounds::run_rounds;
use crate::settle::skip_refusal;
use crate::status::{Status, after_rounds};
use crate::words::{Get, parse_get};
use ed2k_link::{FileLink, LinkFault, parse_link};
use ed2k_outside::{Addr, Blobs, Clock, Net, Sink, Vault};
use part_hashset::Aim;
use part_sizes::{Bits, Hashes};
use part_store::{PartFile, Solo, StoreFault};
use peer_fetch::{Cause, PeerEnd, PeerLink};
use reserve_core::{DeskFault, Entry, no_position_is_held_twice};
use std::alloc::Global;

/// What a download leaves.
#[derive(Drop)]
struct Outcome<V> {
    status: Status,
    vault: V,
    /// The number of verified parts.
    verified: u64,
    /// Empty where no store was made.
    log: Vec<Entry>,
    /// Empty where no store was made.
    peers: Vec<PeerEnd>,
}

/// The file that a link names. The root is passed over, since nothing is recovered yet.
fn aim_of(link: &FileLink) -> Aim
    ensures aim { result ≡ aim_of link.now }
    ensures size { IsSize result.size }
{
    let size = link.size;
    let hash = link.hash;
    let root = None;
    Aim { size, hash, root }
}

/// What is told of a peer that wasn't connected.
fn no_link(alloc: Global) -> PeerEnd
    ensures { IsUnlinked result }
{
    PeerEnd {
        number: None,
        cause: Cause::NoLink,
        asked: Vec::new(alloc),
        offered: Bits::new(Vec::new(alloc)),
        alive: false,
    }
}

/// Makes the store of a download at its place. Where that is refused, the vault comes back.
fn make_store<V: Vault + Drop>(
    alloc: Global,
    place: &str,
    aim: Aim,
    vault: V,
) -> Result<PartFile<V>, (V, StoreFault)>
    requires { IsSize aim.size }
    ensures aim { IfOk result (λ file. file.aim ≡ aim) }
    ensures opened { IfOk result (λ file. events file.log ≡ Opened nothing ∷ []) }
    ensures body { IfOk result (λ file. SizesBody aim.size (V.files vault) (V.files file.vault)) }
    ensures placed { IfOk result (λ file. V.placed file.initial ≡ Some place.now) }
    ensures log_file { IfOk result (λ file. HasSameLog V.Vault vault file.initial) }
    ensures log_kept { IfErr result (λ refused. HasSameLog V.Vault vault refused.0) }
    ensures kept { IfErr result (λ left. MayMove place.now (V.placed vault) (V.placed left.0)) }
    ensures initial { IfOk result (λ file. file.initial ≡ file.vault) }
    ensures clean { IfOk result (λ file. V.faults file.initial ≡ V.faults vault) }
    ensures few { IfErr result (λ refused. V.made refused.0 ≤ V.made vault + 4) }
    ensures later { IfOk result (λ file. V.faults vault ≤ V.faults file.initial) }
    ensures refused { IfErr result (λ refused. V.faults vault ≤ V.faults refused.0) }
    ensures fault { IfErr result (λ left. HasRisen (V.faults vault) (V.faults left.0) left.1) }
{
    let mut vault = vault;
    if vault.place(place).is_err() {
        return Err((vault, StoreFault::Fault));
    }
    PartFile::create(alloc, vault, aim)
}

/// Keeps the part hashes of a link where a set is needed and they are a valid one, and else passes
/// them over.
fn take_set<V: Vault + Drop>(file: &mut PartFile<V>, parts: Hashes) -> Result<(), DeskFault>
    requires { events file.old.log ≡ Opened nothing ∷ [] }
    ensures aim { file.new.aim ≡ file.old.aim }
    ensures initial { file.new.initial ≡ file.old.initial }
    ensures files { V.files file.new.vault ≡ V.files file.old.vault }
    ensures vault { file.new.vault ≡ file.old.vault }
    ensures stays { IfErr result (λ fault. events file.new.log ≡ events file.old.log) }
    ensures opened { OnOk result (events file.new.log ≡ opened_log file.old.aim parts) }
    ensures new { IsNew (events file.new.log) }
{
    match file.hashes(parts) {
        Ok(()) => Ok(()),
        Err(fault) => skip_refusal(fault),
    }
}

/// Takes the store apart.
fn take_apart<V: Vault + Drop>(file: PartFile<V>, status: Status, peers: Vec<PeerEnd>) -> Outcome<V>
    requires size { IsSize file.aim.size }
    ensures status { result.status ≡ status }
    ensures peers { result.peers.items ≡ peers.items }
    ensures apart { IsTakenApart V.Vault file result }
{
    let verified = count_verified(&file);
    let (vault, log) = file.into_parts();
    Outcome {
        status,
        vault,
        verified,
        log,
        peers,
    }
}

/// Takes the store apart, and tells of its one peer.
fn leave<V: Vault + Drop>(
    file: PartFile<V>,
    status: Status,
    mut peers: Vec<PeerEnd>,
    end: PeerEnd,
) -> Outcome<V>
    requires size { IsSize file.aim.size }
    requires room { vec_len peers < vec_capacity peers }
    ensures status { result.status ≡ status }
    ensures peers { result.peers.items ≡ peers.items ++ end ∷ [] }
    ensures apart { IsTakenApart V.Vault file result }
{
    peers.push_reserved(end);
    take_apart(file, status, peers)
}

/// Takes the store apart where the link's part hashes couldn't be kept. No peer is told of then.
fn give_up<V: Vault + Drop>(file: PartFile<V>, peers: Vec<PeerEnd>) -> Outcome<V>
    requires size { IsSize file.aim.size }
    requires new { IsNew (events file.log) }
    requires none { peers.items ≡ [] }
    ensures status { IsGivenUp (V.faults file.initial) (V.faults result.vault) result.status }
    ensures nobody { result.peers.items ≡ [] }
    ensures lacks { IsComplete file.aim (events result.log.items) → ⊥ }
    ensures apart { IsTakenApart V.Vault file result }
{
    let status = if file.broken() {
        Status::Vault
    } else {
        Status::NoMemory
    };
    take_apart(file, status, peers)
}

/// Downloads into a new store from one peer, over whom `peers` has room to tell.
fn download_from<N: Net, V: Vault + Drop>(
    alloc: Global,
    from: Addr,
    net: &mut N,
    file: PartFile<V>,
    peers: Vec<PeerEnd>,
) -> Outcome<V>
    requires size { IsSize file.aim.size }
    requires new { IsNew (events file.log) }
    requires none { peers.items ≡ [] }
    requires room { vec_len peers < vec_capacity peers }
    requires clean { V.faults file.vault ≡ V.faults file.initial }
    ensures verified { result.verified ≡ verified_count file.aim (events result.log.items) }
    ensures download { DownloadsInto N.Wire.Wire N.Net V.Vault from net.old file net.new result }
{
    match net.connect(from) {
        Ok(wire) => {
            let mut link = PeerLink::new(alloc, wire, file.aim());
            let mut desk = Solo { file };
            let round = run_rounds(&mut link, &mut desk);
            net.close(link.into_wire());
            let status = after_rounds(&desk.file, round.end.cause, round.settled);
            leave(desk.file, status, peers, round.end)
        }
        Err(_) => leave(file, Status::Net, peers, no_link(alloc)),
    }
}

/// Makes the store of a file, and downloads into it from one peer.
fn download<N: Net, V: Vault + Drop>(
    alloc: Global,
    get: &Get<'_>,
    aim: Aim,
    set: Hashes,
    net: &mut N,
    vault: V,
) -> Outcome<V>
    requires size { IsSize aim.size }
    ensures { Loads N.Wire.Wire N.Net V.Vault (order get.now aim set) net.old vault net.new result }
{
    let Ok(peers) = Vec::with_capacity(alloc, 1) else {
        return without_store(alloc, vault, Status::NoMemory);
    };
    match make_store(alloc, get.place, aim, vault) {
        Ok(file) => {
            let mut file = file;
            match take_set(&mut file, set) {
                Ok(()) => download_from(alloc, get.from, net, file, peers),
                Err(_) => give_up(file, peers),
            }
        }
        Err((vault, StoreFault::Fault)) => without_store(alloc, vault, Status::Vault),
        Err((vault, StoreFault::NoMemory)) => without_store(alloc, vault, Status::NoMemory),
    }
}

/// What is left where no store was made.
fn without_store<V>(alloc: Global, vault: V, status: Status) -> Outcome<V>
    ensures status { result.status ≡ status }
    ensures vault { result.vault ≡ vault }
    ensures verified { result.verified ≡ 0 }
    ensures log { result.log.items ≡ [] }
    ensures peers { result.peers.items ≡ [] }
{
    Outcome {
        status,
        vault,
        verified: 0,
        log: Vec::new(alloc),
        peers: Vec::new(alloc),
    }
}

/// Downloads the file of a link with what the program was handed, and reports it.
fn run_link<N: Net, V: Vault + Drop, B, O: Sink, C>(
    alloc: Global,
    get: &Get<'_>,
    link: FileLink,
    hands: Hands<N, V, B, O, C>,
) -> Ended<N, V, B, O, C>
    ensures { Downloads N.Wire.Wire N.Net V.Vault O.Sink link (words_of get.now) hands result }
{
    let Hands {
        net,
        vault,
        blobs,
        out,
        clock,
    } = hands;
    let mut net = net;
    let mut out = out;
    let aim = aim_of(&link);
    let Outcome {
        status,
        vault,
        verified,
        log,
        peers,
    } = download(alloc, get, aim, link.parts, &mut net, vault);
    let told = Summary {
        name: link.name.as_slice(),
        aim,
        verified,
        log: &log,
        peers: &peers,
    };
    let status = report_download(alloc, &mut out, &told, status);
    Ended {
        status,
        hands: Hands {
            net,
            vault,
            blobs,
            out,
            clock,
        },
        log,
        peers,
    }
}

/// Ends where the link is refused, and prints the fault.
fn refuse<N, V, B, O: Sink, C>(
    alloc: Global,
    hands: Hands<N, V, B, O, C>,
    fault: LinkFault,
) -> Ended<N, V, B, O, C>
    ensures refused { PrintsLine O.Sink 2 (refusal fault) hands result }
    ensures uncalled { IsUncalled hands result }
    ensures shared { IsNeverShared result.log.items }
{
    end(alloc, hands, &Reply::Refused(fault))
}

/// Runs the words of a `get` with one peer. All other words are wrong here.
///
/// Status 1 comes exactly where the words have another form, and 2 exactly where their link is
/// refused; each is printed, with 6 in its place where the output failed, and no peer and no vault
/// is called then.
///
/// Where the store was made, the vault stands at the place of the words. Its log file stays as it
/// was, in any case. The log that is handed back is legal then, so that no position was ever held
/// by two peers, and each of its verdicts is the MD4 of that part's bytes in the body. One peer is
/// told of: it wasn't connected, or it has the number 0 and its talk stands on its wire, over all
/// rounds. Unless the status is 5 or the vault failed, nothing is left uncommitted then, each full
/// part was judged, once the hash set that it needs was kept, and no further round is due. Unless
/// the status is 5 or 6, it is 0 exactly where every part is verified in the log. With 0 the body
/// has the link's size, and its hash is the link's.
///
/// Status 4 comes only where the vault failed, 9 only where the peer couldn't be connected, 10 only
/// where a part failed eight times, 13 only where a hash set is needed and none was kept, and 3
/// only where a part isn't verified and the peer isn't alive or gave all that it offered. 5 says
/// that memory was refused, and 6, in place of each of the others, that the output failed. Where
/// the peer's stream serves a file of the link's size and hash, and nothing fails, the status is 0
/// and the body is that file, or it is 5.
///
/// What is printed is a line for the file, one for its parts, one for each peer and one for the
/// end, or the last alone where no store was made. With 6 a front of this text was sent, and with 5
/// a front of the lines before the last.
pub fn run_one<N: Net, V: Vault + Drop, B: Blobs, O: Sink, C: Clock>(
    alloc: Global,
    words: &[String],
    hands: Hands<N, V, B, O, C>,
) -> Ended<N, V, B, O, C>
    // Words of another form:
    ensures wrong { get_of (texts words.now) ≡ None → RefusesWords O.Sink hands result }

    // The words of a `get`:
    ensures get { AnswersGet N.Wire.Wire N.Net V.Vault O.Sink (texts words.now) hands result }
{
    no_position_is_held_twice();
    let Some(get) = parse_get(words) else {
        return end(alloc, hands, &Reply::Usage);
    };
    match parse_link(alloc, get.link) {
        Ok(link) => run_link(alloc, &get, link, hands),
        Err(LinkFault::NoMemory) => Ended {
            status: 5,
            hands,
            log: Vec::new(alloc),
            peers: Vec::new(alloc),
        },
        Err(fault) => refuse(alloc, hands, fault),
    }
}

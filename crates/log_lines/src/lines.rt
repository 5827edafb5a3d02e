//! The lines, without their ends.
ghost use Rattle.std.specs.Prelude.{◌≡◌, ◌++◌, IfOk, OnOk, decimal, option_map};
ghost use Rattle.log_lines.specs.Lines.{accept_failed_line, accepted_line, asked_part, closed_line, done_part, fault_name, fault_part, held_part, kind_word, listening_line, lost_line, opened_line, reason_more, reason_word, refusal_word, refused_line, request_refused_line, retained_full_line, serialization, started_line, stats_line, stopping_line, stopping_word, traffic_part, who_part};

use crate::reason::{CloseReason, ConnectionRefusal, Stopping};
use crate::values::{put, put_beginning, put_number, put_quoted};
use rawsocket::Serializer;
use session::Fault;
use std::alloc::{AllocError, Global};
use wamp_ids::Conn;
use wamp_messages::Request;

/// A session, as its WELCOME and its client's handshake have it.
#[derive(Drop)]
pub struct Opening<'a> {
    /// The session's id, from 1 to 2^53.
    pub session: u64,
    /// The realm's URI.
    pub realm: &'a str,
    /// The authid of WELCOME.
    pub authid: &'a str,
    /// The authrole of WELCOME.
    pub authrole: &'a str,
    /// How messages are serialized.
    pub serializer: Serializer,
    /// How many octets the client takes in one payload.
    pub limit: u32,
}

/// What a session said and was sent.
#[derive(Clone, Copy, Debug, Drop, PartialEq, Eq)]
pub struct Traffic {
    /// The messages and PINGs that it sent behind its HELLO.
    pub received: u64,
    /// The EVENTs that were written to it.
    pub events: u64,
    /// The octets that were read of it behind its opening.
    pub octets_in: u64,
    /// The octets that were written to it behind its opening.
    pub octets_out: u64,
    /// How many of its requests were refused.
    pub refused: u64,
}

impl Traffic {
    /// Nothing was said or sent.
    pub const NONE: Traffic = Traffic {
        received: 0,
        events: 0,
        octets_in: 0,
        octets_out: 0,
        refused: 0,
    };
}

/// How a connection ended.
#[derive(Clone, Copy, Drop)]
pub struct ConnectionEnd<'a> {
    /// Why.
    pub reason: CloseReason,
    /// The realm that it asked for, where it wasn't given.
    pub realm: Option<&'a str>,
    /// The authid that it asked for, where it wasn't given.
    pub authid: Option<&'a str>,
    /// What its session said and was sent.
    pub traffic: Traffic,
}

/// A request that was refused.
#[derive(Clone, Copy, Drop)]
pub struct RefusedRequest<'a> {
    /// What it was.
    pub kind: Request,
    /// Its id.
    pub request: u64,
    /// The URI of the refusal.
    pub error: &'a str,
    /// The topic or pattern that it named.
    pub topic: Option<&'a str>,
}

/// What a broker serves, and by which limits.
#[derive(Clone, Copy, Drop)]
pub struct BrokerSummary<'a> {
    /// The program's version.
    pub version: &'a str,
    /// The realms, apart by spaces.
    pub realms: &'a str,
    /// How many items may wait for one client.
    pub outbox: u64,
    /// The limits of the protocol.
    pub limits: &'a str,
}

/// How much a realm holds, and what it did since that was last told.
#[derive(Clone, Copy, Debug, Drop, PartialEq, Eq)]
pub struct RealmStats {
    /// The sessions that are live.
    pub sessions: u64,
    /// The patterns that they hold.
    pub subscriptions: u64,
    /// The topics with a retained publication.
    pub retained: u64,
    /// The octets of these topics and of their arguments.
    pub retained_octets: u64,
    /// How many items wait in the longest outbox.
    pub longest_outbox: u64,
    /// How many posts wait.
    pub posts: u64,
    /// The publications that were accepted since then.
    pub publications: u64,
    /// The EVENTs that these gave.
    pub events: u64,
    /// The sessions that were cut since then, as their outboxes were full.
    pub cut: u64,
}

/// The broker listens at this host and port.
///
/// # Errors
/// [`AllocError`] where a growth of memory was refused, as for each line.
pub fn listening(alloc: Global, host: &str, port: u16) -> Result<Vec<u8>, AllocError>
    ensures { IfOk result (λ line. line.items ≡ listening_line host.now port) }
{
    let mut line = Vec::new(alloc);
    put(&mut line, "listening host=")?;
    put_quoted(&mut line, host)?;
    put(&mut line, " port=")?;
    put_number(alloc, &mut line, port as u64)?;
    Ok(line)
}

/// A connection got its number, this is where it comes from, and so many there are with it.
pub fn accepted(
    alloc: Global,
    conn: Conn,
    peer: &str,
    connections: u64,
) -> Result<Vec<u8>, AllocError>
    ensures { IfOk result (λ line. line.items ≡ accepted_line conn peer.now connections) }
{
    let mut line = Vec::new(alloc);
    put(&mut line, "accepted connection=")?;
    put_number(alloc, &mut line, conn.value())?;
    put(&mut line, " peer=")?;
    put_quoted(&mut line, peer)?;
    put_count(alloc, &mut line, " connections=", connections)?;
    Ok(line)
}

/// A connection was refused before it got a number.
pub fn refused(alloc: Global, peer: &str, refusal: ConnectionRefusal) -> Result<Vec<u8>, AllocError>
    ensures { IfOk result (λ line. line.items ≡ refused_line peer.now refusal) }
{
    let mut line = Vec::new(alloc);
    put(&mut line, "refused peer=")?;
    put_quoted(&mut line, peer)?;
    put(&mut line, " reason=")?;
    put(&mut line, refusal_word(refusal))?;
    Ok(line)
}

/// A refusal in a word.
fn refusal_word(refusal: ConnectionRefusal) -> &'static str
    ensures { result.now ≡ refusal_word refusal }
{
    match refusal {
        ConnectionRefusal::NoSeat => "no_seat",
        ConnectionRefusal::NoMemory => "no_memory",
    }
}

/// As many topics of a realm as may have a retained publication have one.
pub fn retained_full(alloc: Global, realm: &str) -> Result<Vec<u8>, AllocError>
    ensures { IfOk result (λ line. line.items ≡ retained_full_line realm.now) }
{
    let mut line = Vec::new(alloc);
    put(&mut line, "retained_full realm=")?;
    put_quoted(&mut line, realm)?;
    Ok(line)
}

/// Accepting failed, for this reason of the system's.
pub fn accept_failed(alloc: Global, reason: &str) -> Result<Vec<u8>, AllocError>
    ensures { IfOk result (λ line. line.items ≡ accept_failed_line reason.now) }
{
    let mut line = Vec::new(alloc);
    put(&mut line, "accept_failed reason=")?;
    put_quoted(&mut line, reason)?;
    Ok(line)
}

/// The broker stops, and accepts no more: live sessions get their GOODBYE from here on.
pub fn stopping(alloc: Global, why: Stopping) -> Result<Vec<u8>, AllocError>
    ensures { IfOk result (λ line. line.items ≡ stopping_line why) }
{
    let mut line = Vec::new(alloc);
    put(&mut line, "stopping reason=")?;
    put(&mut line, stopping_word(why))?;
    Ok(line)
}

/// Why a broker stops, in a word.
fn stopping_word(why: Stopping) -> &'static str
    ensures { result.now ≡ stopping_word why }
{
    match why {
        Stopping::Asked => "asked",
        Stopping::ListenFault => "listen_fault",
        Stopping::NoMemory => "no_memory",
    }
}

/// So many lines weren't written.
pub fn lost(alloc: Global, lines: u64) -> Result<Vec<u8>, AllocError>
    ensures { IfOk result (λ line. line.items ≡ lost_line lines) }
{
    let mut line = Vec::new(alloc);
    put(&mut line, "lost lines=")?;
    put_number(alloc, &mut line, lines)?;
    Ok(line)
}

/// A connection's session was opened.
pub fn opened(alloc: Global, conn: Conn, opening: &Opening<'_>) -> Result<Vec<u8>, AllocError>
    ensures { IfOk result (λ line. line.items ≡ opened_line conn opening.now) }
{
    let mut line = Vec::new(alloc);
    put(&mut line, "opened connection=")?;
    put_number(alloc, &mut line, conn.value())?;
    put(&mut line, " realm=")?;
    put_quoted(&mut line, opening.realm)?;
    put(&mut line, " session=")?;
    put_number(alloc, &mut line, opening.session)?;
    put_who(alloc, &mut line, opening)?;
    Ok(line)
}

/// Who it is, and what its client takes.
fn put_who(alloc: Global, line: &mut Vec<u8>, opening: &Opening<'_>) -> Result<(), AllocError>
    ensures { OnOk result (line.new.items ≡ who_part line.old.items opening.now) }
{
    put(line, " authid=")?;
    put_quoted(line, opening.authid)?;
    put(line, " authrole=")?;
    put_quoted(line, opening.authrole)?;
    put(line, " serialization=")?;
    put(line, name_of(opening.serializer))?;
    put(line, " limit=")?;
    put_number(alloc, line, opening.limit as u64)
}

/// A connection was closed, and so many there are without it.
pub fn closed(
    alloc: Global,
    conn: Conn,
    closing: &ConnectionEnd<'_>,
    connections: u64,
) -> Result<Vec<u8>, AllocError>
    ensures { IfOk result (λ line. line.items ≡ closed_line conn closing.now connections) }
{
    let mut line = Vec::new(alloc);
    put(&mut line, "closed connection=")?;
    put_number(alloc, &mut line, conn.value())?;
    put(&mut line, " reason=")?;
    put(&mut line, word_of(closing.reason))?;
    put_numbers(alloc, &mut line, closing.reason)?;
    put_asked(&mut line, " realm=", closing.realm)?;
    put_asked(&mut line, " authid=", closing.authid)?;
    put_count(alloc, &mut line, " connections=", connections)?;
    put_traffic(alloc, &mut line, &closing.traffic)?;
    Ok(line)
}

/// What was asked for, where that is told.
fn put_asked(line: &mut Vec<u8>, key: &str, asked: Option<&str>) -> Result<(), AllocError>
    ensures { OnOk result (line.new.items ≡ line.old.items ++ asked_part key.now (option_map (λ t. t.now) asked.entry)) }
{
    let Some(asked) = asked else {
        return Ok(());
    };
    put(line, key)?;
    put_beginning(line, asked)
}

/// What the session said and was sent.
fn put_traffic(alloc: Global, line: &mut Vec<u8>, traffic: &Traffic) -> Result<(), AllocError>
    ensures { OnOk result (line.new.items ≡ line.old.items ++ traffic_part traffic.now) }
{
    put_count(alloc, line, " received=", traffic.received)?;
    put_count(alloc, line, " events=", traffic.events)?;
    put_count(alloc, line, " octets_in=", traffic.octets_in)?;
    put_count(alloc, line, " octets_out=", traffic.octets_out)?;
    put_count(alloc, line, " refused=", traffic.refused)
}

/// A session's request was refused: the first one that was.
pub fn request_refused(
    alloc: Global,
    conn: Conn,
    request: &RefusedRequest<'_>,
) -> Result<Vec<u8>, AllocError>
    ensures { IfOk result (λ line. line.items ≡ request_refused_line conn request.now) }
{
    let mut line = Vec::new(alloc);
    put(&mut line, "refused connection=")?;
    put_number(alloc, &mut line, conn.value())?;
    put(&mut line, " kind=")?;
    put(&mut line, kind_word(request.kind))?;
    put_count(alloc, &mut line, " request=", request.request)?;
    put(&mut line, " error=")?;
    put_quoted(&mut line, request.error)?;
    put_asked(&mut line, " topic=", request.topic)?;
    Ok(line)
}

/// The kind of a request in a word.
fn kind_word(kind: Request) -> &'static str
    ensures { result.now ≡ kind_word kind }
{
    match kind {
        Request::Publish => "publish",
        Request::Subscribe => "subscribe",
        Request::Unsubscribe => "unsubscribe",
    }
}

/// A broker serves from here on.
pub fn started(alloc: Global, broker: &BrokerSummary<'_>) -> Result<Vec<u8>, AllocError>
    ensures { IfOk result (λ line. line.items ≡ started_line broker.now) }
{
    let mut line = Vec::new(alloc);
    put(&mut line, "started version=")?;
    put_quoted(&mut line, broker.version)?;
    put(&mut line, " realms=")?;
    put_quoted(&mut line, broker.realms)?;
    put_count(alloc, &mut line, " outbox=", broker.outbox)?;
    put(&mut line, " limits=")?;
    put_quoted(&mut line, broker.limits)?;
    Ok(line)
}

/// How much a realm holds, and what it did since that was last told.
pub fn stats(alloc: Global, realm: &str, stats: &RealmStats) -> Result<Vec<u8>, AllocError>
    ensures { IfOk result (λ line. line.items ≡ stats_line realm.now stats.now) }
{
    let mut line = Vec::new(alloc);
    put(&mut line, "stats realm=")?;
    put_quoted(&mut line, realm)?;
    put_held(alloc, &mut line, stats)?;
    put_done(alloc, &mut line, stats)?;
    Ok(line)
}

/// What a realm holds.
fn put_held(alloc: Global, line: &mut Vec<u8>, stats: &RealmStats) -> Result<(), AllocError>
    ensures { OnOk result (line.new.items ≡ line.old.items ++ held_part stats.now) }
{
    put_count(alloc, line, " sessions=", stats.sessions)?;
    put_count(alloc, line, " subscriptions=", stats.subscriptions)?;
    put_count(alloc, line, " retained=", stats.retained)?;
    put_count(alloc, line, " retained_octets=", stats.retained_octets)?;
    put_count(alloc, line, " longest_outbox=", stats.longest_outbox)?;
    put_count(alloc, line, " posts=", stats.posts)
}

/// What a realm did since that was last told.
fn put_done(alloc: Global, line: &mut Vec<u8>, stats: &RealmStats) -> Result<(), AllocError>
    ensures { OnOk result (line.new.items ≡ line.old.items ++ done_part stats.now) }
{
    put_count(alloc, line, " publications=", stats.publications)?;
    put_count(alloc, line, " events=", stats.events)?;
    put_count(alloc, line, " cut=", stats.cut)
}

fn name_of(serializer: Serializer) -> &'static str
    ensures { result.now ≡ serialization serializer }
{
    match serializer {
        Serializer::Json => "json",
        Serializer::MsgPack => "msgpack",
    }
}

/// The word of a reason.
fn word_of(reason: CloseReason) -> &'static str
    ensures { result.now ≡ reason_word reason }
{
    match reason {
        CloseReason::Goodbye => "goodbye",
        CloseReason::Abort => "abort",
        CloseReason::Ended => "ended",
        CloseReason::Violation(_) => "violation",
        CloseReason::NotOpened(_) => "not_opened",
        CloseReason::NotAdmitted => "not_admitted",
        CloseReason::OutboxFull(_) => "outbox_full",
        CloseReason::TooLong {
            octets: _,
            limit: _,
        } => "too_long",
        CloseReason::Unspelt => "unspelt",
        CloseReason::ReadFailed => "read_failed",
        CloseReason::WriteFailed => "write_failed",
        CloseReason::TooManyTurns => "too_many_turns",
        CloseReason::NoMemory => "no_memory",
        CloseReason::NoThread => "no_thread",
        CloseReason::Stop => "stop",
    }
}

/// What stands behind the word.
fn put_numbers(alloc: Global, line: &mut Vec<u8>, reason: CloseReason) -> Result<(), AllocError>
    ensures { OnOk result (line.new.items ≡ line.old.items ++ reason_more reason) }
{
    match reason {
        CloseReason::Violation(fault) => put_fault(line, fault),
        CloseReason::NotOpened(fault) => put_fault(line, fault),
        CloseReason::OutboxFull(items) => put_count(alloc, line, " items=", items as u64),
        CloseReason::TooLong { octets, limit } => {
            put_count(alloc, line, " octets=", octets as u64)?;
            put_count(alloc, line, " limit=", limit as u64)
        }
        _ => Ok(()),
    }
}

fn put_count(alloc: Global, line: &mut Vec<u8>, key: &str, count: u64) -> Result<(), AllocError>
    ensures { OnOk result (line.new.items ≡ line.old.items ++ (key.now ++ decimal count)) }
{
    put(line, key)?;
    put_number(alloc, line, count)
}

fn put_fault(line: &mut Vec<u8>, fault: Fault) -> Result<(), AllocError>
    ensures { OnOk result (line.new.items ≡ line.old.items ++ fault_part fault) }
{
    put(line, " fault=\"")?;
    put(line, fault_name(fault))?;
    put(line, "\"")
}

/// The name of a fault.
fn fault_name(fault: Fault) -> &'static str
    ensures { result.now ≡ fault_name fault }
{
    match fault {
        Fault::NoMemory => "E1 no memory",
        Fault::TooDeep => "E4 TooDeep",
        Fault::Malformed => "E5 Malformed",
        Fault::NotRawSocket => "E7 NotRawSocket",
        Fault::SerializerUnsupported => "E8 SerializerUnsupported",
        Fault::ReservedBits => "E9 ReservedBits",
        Fault::FrameTooLong => "E11 FrameTooLong",
        Fault::FrameType => "E12 FrameType",
        Fault::Shape => "E13 Shape",
        Fault::ReadFault => "E16 read fault",
        Fault::WriteFault => "E17 write fault",
        Fault::TooLongForClient => "E18 TooLongForClient",
        Fault::Ended => "E23 Ended",
        Fault::NoSuchRealm => "E24 NoSuchRealm",
        Fault::TooManyTurns => "E25 too many turns",
    }
}

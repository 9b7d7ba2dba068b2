//! A session is made, set and closed.

ghost use Rattle.std.specs.Prelude.{◌≡◌, ◌≤◌, ◌^◌, IfOk, OnOk, MatchOption};
ghost use Rattle.std.specs.declared.option.Option.TheVariants.{None};
ghost use Rattle.quic_session.specs.Sessions.{end_of, beside_of};
ghost use Rattle.quic_session.specs.Users.{users_view};
ghost use Rattle.quic_streams_c.specs.Answers.{TellsDone, memory_code};
ghost use Rattle.quic_streams_c.specs.Calls.{Calls, Questions};
ghost use Rattle.quic_streams_c.specs.Words.{AreZeroFrom};
ghost use Rattle.quic_streams_c.specs.Settings.{side_at, raw_limits, config_at, IsConfig, IsConfigOf, IsNewOf, OpensHandle, with_tracking, is_tracked, limits_at, AreLimits, peer_limits, SetsLimits, SetsLimitsRaw, Closes, Rejects, SendsEarlyAgain, SetsSendWindowRaw, SetsReceiveWindowRaw, SetsConcurrentRaw, flag, IsInfo, info_words, TellsInfo, IsDue, due_words, TellsDue};

use crate::codes::{ARGUMENT, CLOSED, IN_USE, NO_MEMORY, OK, dir_of, length_of, small};
use crate::handle::{Handle, closed, holding, take_out};
use crate::words::{are_zero_from, fill_words, word_at};
use quic_datagrams::DatagramLimits;
use quic_session::Session;
use quic_session::params::ParamsError;
use quic_session::session::Config;
use quic_streams::PeerLimits;
use quic_values::{Dir, OutOfMemory, Side, VarInt};
use std::alloc::Global;

/// What a session begins with.
#[derive(Clone, Copy)]
pub struct RawConfig {
    pub side: u64,
    pub max_remote_uni: u64,
    pub max_remote_bi: u64,
    pub send_window: u64,
    pub receive_window: u64,
    pub stream_window: u64,
    pub datagram_receive: u64,
    pub datagram_send: u64,
    pub track_streams: u64,
}

/// The limits of the peer's transport parameters.
#[derive(Clone, Copy)]
pub struct RawLimits {
    pub max_data: u64,
    pub max_streams_bidi: u64,
    pub max_streams_uni: u64,
    pub stream_data_uni: u64,
    pub stream_data_bidi_local: u64,
    pub stream_data_bidi_remote: u64,
    pub max_datagram: u64,
}

/// What a session tells of itself.
#[derive(Clone, Copy)]
pub struct RawInfo {
    pub max_concurrent_bidi: u64,
    pub max_concurrent_uni: u64,
    pub max_remote_bidi: u64,
    pub max_remote_uni: u64,
    pub next_remote_bidi: u64,
    pub next_remote_uni: u64,
    pub remote_open_bidi: u64,
    pub remote_open_uni: u64,
    pub local_max_data: u64,
    pub data_received: u64,
    pub write_limit: u64,
    pub send_streams: u64,
    pub payloads: u64,
    pub can_send_stream_data: u64,
    pub has_pending: u64,
}

/// What waits to be sent, each 0 or 1.
#[derive(Clone, Copy)]
pub struct RawDue {
    pub control: u64,
    pub datagrams: u64,
    pub streams: u64,
}

// From this count of streams on there is none (RFC 9000 section 4.6).
const COUNT_END: u64 = (1 << 60) + 1;
// How many words of a configuration the library knows.
const CONFIG_WORDS: usize = 9;
// How many words of the peer's limits it knows.
const LIMIT_WORDS: usize = 7;

// The configuration in a caller's words.
fn config_at(words: &[u64]) -> RawConfig
    ensures { result ≡ config_at words.now }
{
    RawConfig {
        side: word_at(words, 0),
        max_remote_uni: word_at(words, 1),
        max_remote_bi: word_at(words, 2),
        send_window: word_at(words, 3),
        receive_window: word_at(words, 4),
        stream_window: word_at(words, 5),
        datagram_receive: word_at(words, 6),
        datagram_send: word_at(words, 7),
        track_streams: word_at(words, 8),
    }
}

// The limits in a caller's words.
fn limits_at(words: &[u64]) -> RawLimits
    ensures { result ≡ limits_at words.now }
{
    RawLimits {
        max_data: word_at(words, 0),
        max_streams_bidi: word_at(words, 1),
        max_streams_uni: word_at(words, 2),
        stream_data_uni: word_at(words, 3),
        stream_data_bidi_local: word_at(words, 4),
        stream_data_bidi_remote: word_at(words, 5),
        max_datagram: word_at(words, 6),
    }
}

// The limits of datagrams.
fn datagram_limits(config: &RawConfig) -> DatagramLimits
    ensures { result ≡ raw_limits config.now }
{
    DatagramLimits {
        receive: length_of(config.datagram_receive),
        send: config.datagram_send as usize,
        max: None,
    }
}

// The side of a number.
fn side_of(number: u64) -> Side
    ensures { result ≡ side_at number }
{
    if number == 0 {
        Side::Client
    } else {
        Side::Server
    }
}

// The configuration of numbers, or `None` where one is above its bound.
fn config_of(raw: &RawConfig) -> Option<Config>
    ensures { MatchOption result (IsConfig raw.now → ⊥) (λ c. IsConfig raw.now × IsConfigOf raw.now c) }
{
    if raw.side >= 2 || raw.track_streams >= 2 {
        return None;
    }
    if raw.max_remote_uni >= COUNT_END || raw.max_remote_bi >= COUNT_END {
        return None;
    }
    let receive_window = small(raw.receive_window)?;
    let stream_window = small(raw.stream_window)?;
    Some(Config {
        side: side_of(raw.side),
        max_remote_uni: VarInt::new(raw.max_remote_uni),
        max_remote_bi: VarInt::new(raw.max_remote_bi),
        send_window: raw.send_window,
        receive_window,
        stream_window,
        datagrams: datagram_limits(raw),
    })
}

// Whether the streams of a session are tracked.
fn is_tracked(raw: &RawConfig) -> bool
    ensures { result ≡ is_tracked raw.now }
{
    raw.track_streams == 1
}

// Has a session track its streams, if this is asked for.
fn track_if(session: &mut Session, tracks: bool) -> Result<(), OutOfMemory>
    ensures ok { OnOk result (users_view session.new.users ≡ with_tracking tracks (users_view session.old.users)) }
    ensures end { end_of session.new ≡ end_of session.old }
    ensures beside { beside_of session.new ≡ beside_of session.old }
{
    if tracks {
        return session.track_streams();
    }
    Ok(())
}

// A session of a configuration, whose streams are tracked or not.
fn begin(alloc: Global, config: &Config, tracks: bool) -> Result<Session, OutOfMemory>
    requires uni { config.now.max_remote_uni ≤ 2 ^ 60 }
    requires bi { config.now.max_remote_bi ≤ 2 ^ 60 }
    ensures { IfOk result (λ s. IsNewOf config.now tracks s) }
{
    let mut session = Session::new(alloc, config)?;
    track_if(&mut session, tracks)?;
    Ok(session)
}

// A session in a box, for a handle.
fn new_session(alloc: Global, config: &Config, tracks: bool) -> Result<Box<Session>, OutOfMemory>
    requires uni { config.now.max_remote_uni ≤ 2 ^ 60 }
    requires bi { config.now.max_remote_bi ≤ 2 ^ 60 }
    ensures { IfOk result (λ s. IsNewOf config.now tracks s.value) }
{
    let session = begin(alloc, config, tracks)?;
    match Box::new(alloc, session) {
        Ok(session) => Ok(session),
        Err(_) => Err(OutOfMemory),
    }
}

/// Makes a session.
#[unsafe(no_mangle)]
pub extern "C" fn qs_conn_open_words(alloc: Global, handle: &mut Handle, words: &[u64]) -> i32
    ensures { OpensHandle words.now handle.old.slot.value result handle.new.slot.value }
{
    if handle.live == 1 {
        return IN_USE;
    }
    if !are_zero_from(words, CONFIG_WORDS) {
        return ARGUMENT;
    }
    let raw = config_at(words);
    let Some(config) = config_of(&raw) else {
        return ARGUMENT;
    };
    match new_session(alloc, &config, is_tracked(&raw)) {
        Ok(session) => {
            *handle = holding(session);
            OK
        }
        Err(_) => NO_MEMORY,
    }
}

/// Frees a session. A closed handle stays as it is.
#[unsafe(no_mangle)]
pub extern "C" fn qs_conn_free(alloc: Global, handle: &mut Handle)
    ensures { handle.new.slot.value ≡ None }
{
    drop(take_out(alloc, handle));
}

/// The connection is closed: nothing is opened or written any more.
#[unsafe(no_mangle)]
pub extern "C" fn qs_conn_close(alloc: Global, handle: &mut Handle) -> i32
    ensures { Calls handle.old.slot.value result handle.new.slot.value (Unit {0}) (λ s t. Closes s result t) }
{
    match take_out(alloc, handle) {
        None => CLOSED,
        Some(mut session) => {
            let code = close(&mut session);
            *handle = holding(session);
            code
        }
    }
}

// The same, of a session.
fn close(session: &mut Session) -> i32
    ensures { Closes session.old result session.new }
{
    session.close();
    OK
}

// The limits of numbers, if none is too large.
fn raw_limits(raw: &RawLimits) -> Option<PeerLimits>
    ensures { MatchOption result (AreLimits raw.now → ⊥) (λ limits. AreLimits raw.now × (limits ≡ peer_limits raw.now)) }
{
    Some(PeerLimits {
        initial_max_data: small(raw.max_data)?,
        initial_max_streams_bidi: small(raw.max_streams_bidi)?,
        initial_max_streams_uni: small(raw.max_streams_uni)?,
        initial_max_stream_data_uni: small(raw.stream_data_uni)?,
        initial_max_stream_data_bidi_local: small(raw.stream_data_bidi_local)?,
        initial_max_stream_data_bidi_remote: small(raw.stream_data_bidi_remote)?,
    })
}

/// Takes the limits of the peer's transport parameters.
#[unsafe(no_mangle)]
pub extern "C" fn qs_set_peer_limits_words(alloc: Global, handle: &mut Handle, words: &[u64]) -> i32
    ensures { Calls handle.old.slot.value result handle.new.slot.value (Unit {0}) (λ s t. SetsLimitsRaw s words.now result t) }
{
    match take_out(alloc, handle) {
        None => CLOSED,
        Some(mut session) => {
            let code = set_limit_words(&mut session, words);
            *handle = holding(session);
            code
        }
    }
}

// The same, of a session.
fn set_limit_words(session: &mut Session, words: &[u64]) -> i32
    ensures { SetsLimitsRaw session.old words.now result session.new }
{
    if !are_zero_from(words, LIMIT_WORDS) {
        return ARGUMENT;
    }
    set_limits(session, &limits_at(words))
}

// The same, of limits.
fn set_limits(session: &mut Session, limits: &RawLimits) -> i32
    ensures { SetsLimits session.old limits.now result session.new }
{
    let Some(params) = raw_limits(limits) else {
        return ARGUMENT;
    };
    match session.set_params(&params) {
        Ok(()) => {
            session.set_max_datagram(length_of(limits.max_datagram));
            OK
        }
        Err(ParamsError::Transport(_)) => ARGUMENT,
        Err(ParamsError::OutOfMemory) => NO_MEMORY,
    }
}

/// The peer rejected the early start of a client.
#[unsafe(no_mangle)]
pub extern "C" fn qs_zero_rtt_rejected(alloc: Global, handle: &mut Handle) -> i32
    ensures { Calls handle.old.slot.value result handle.new.slot.value (Unit {0}) (λ s t. Rejects s result t) }
{
    match take_out(alloc, handle) {
        None => CLOSED,
        Some(mut session) => {
            let code = reject(&mut session);
            *handle = holding(session);
            code
        }
    }
}

// The same, of a session.
fn reject(session: &mut Session) -> i32
    ensures { Rejects session.old result session.new }
{
    session.zero_rtt_rejected();
    OK
}

/// All that an early start sent is to be sent again.
#[unsafe(no_mangle)]
pub extern "C" fn qs_retransmit_all_for_0rtt(alloc: Global, handle: &mut Handle) -> i32
    ensures { Calls handle.old.slot.value result handle.new.slot.value (Unit {0}) (λ s t. SendsEarlyAgain s result t) }
{
    match take_out(alloc, handle) {
        None => CLOSED,
        Some(mut session) => {
            let code = send_early_again(&mut session);
            *handle = holding(session);
            code
        }
    }
}

// The same, of a session.
fn send_early_again(session: &mut Session) -> i32
    ensures { SendsEarlyAgain session.old result session.new }
{
    tell_memory(&session.retransmit_all_for_0rtt())
}

// That a call was done, or that memory ran out.
fn tell_memory(answer: &Result<(), OutOfMemory>) -> i32
    ensures { TellsDone memory_code answer.now result }
{
    match answer {
        Ok(()) => OK,
        Err(_) => NO_MEMORY,
    }
}

/// Sets how many bytes that were written are kept until they are acknowledged.
#[unsafe(no_mangle)]
pub extern "C" fn qs_set_send_window(alloc: Global, handle: &mut Handle, window: u64) -> i32
    ensures { Calls handle.old.slot.value result handle.new.slot.value (Unit {0}) (λ s t. SetsSendWindowRaw s window result t) }
{
    match take_out(alloc, handle) {
        None => CLOSED,
        Some(mut session) => {
            let code = set_send_window(&mut session, window);
            *handle = holding(session);
            code
        }
    }
}

// The same, of a session.
fn set_send_window(session: &mut Session, window: u64) -> i32
    ensures { SetsSendWindowRaw session.old window result session.new }
{
    session.set_send_window(window);
    OK
}

/// Sets how many bytes of all streams may be received and not read.
#[unsafe(no_mangle)]
pub extern "C" fn qs_set_receive_window(alloc: Global, handle: &mut Handle, window: u64) -> i32
    ensures { Calls handle.old.slot.value result handle.new.slot.value (Unit {0}) (λ s t. SetsReceiveWindowRaw s window result t) }
{
    match take_out(alloc, handle) {
        None => CLOSED,
        Some(mut session) => {
            let code = set_receive_window(&mut session, window);
            *handle = holding(session);
            code
        }
    }
}

// The same, of a session.
fn set_receive_window(session: &mut Session, window: u64) -> i32
    ensures { SetsReceiveWindowRaw session.old window result session.new }
{
    let Some(window) = small(window) else {
        return ARGUMENT;
    };
    let _ = session.set_receive_window(window);
    OK
}

/// Sets how many streams of a direction the peer is to be able to use at a time.
#[unsafe(no_mangle)]
pub extern "C" fn qs_set_max_concurrent(
    alloc: Global,
    handle: &mut Handle,
    dir: u32,
    count: u64,
) -> i32
    ensures { Calls handle.old.slot.value result handle.new.slot.value (Unit {0}) (λ s t. SetsConcurrentRaw s dir count result t) }
{
    match take_out(alloc, handle) {
        None => CLOSED,
        Some(mut session) => {
            let code = set_max_concurrent(&mut session, dir, count);
            *handle = holding(session);
            code
        }
    }
}

// The same, of a session.
fn set_max_concurrent(session: &mut Session, dir: u32, count: u64) -> i32
    ensures { SetsConcurrentRaw session.old dir count result session.new }
{
    let Some(dir) = dir_of(dir) else {
        return ARGUMENT;
    };
    let Some(count) = small(count) else {
        return ARGUMENT;
    };
    tell_memory(&session.set_max_concurrent(dir, count))
}

// A flag as a number.
fn flag(set: bool) -> u64
    ensures { result ≡ flag set }
{
    if set { 1 } else { 0 }
}

// What a session tells of itself.
fn info_of(session: &Session) -> RawInfo
    ensures { IsInfo session.now result }
{
    let (open_bidi, open_uni, send_streams) = session.stream_counts();
    let payloads = session.unsettled_payloads() as u64;
    let has_pending = flag(session.has_pending());
    let streams = session.streams();
    RawInfo {
        max_concurrent_bidi: streams.max_concurrent(Dir::Bi),
        max_concurrent_uni: streams.max_concurrent(Dir::Uni),
        max_remote_bidi: streams.max_remote(Dir::Bi),
        max_remote_uni: streams.max_remote(Dir::Uni),
        next_remote_bidi: streams.next_remote(Dir::Bi),
        next_remote_uni: streams.next_remote(Dir::Uni),
        remote_open_bidi: open_bidi,
        remote_open_uni: open_uni,
        local_max_data: streams.local_max_data(),
        data_received: streams.data_recvd(),
        write_limit: streams.write_limit(),
        send_streams: send_streams as u64,
        payloads,
        can_send_stream_data: flag(streams.can_send_stream_data()),
        has_pending,
    }
}

// What waits to be sent.
fn due_of(session: &Session) -> RawDue
    ensures { IsDue session.now result }
{
    RawDue {
        control: flag(session.has_pending()),
        datagrams: flag(session.has_datagrams()),
        streams: flag(session.streams().can_send_stream_data()),
    }
}

/// Tells what waits to be sent.
#[unsafe(no_mangle)]
pub extern "C" fn qs_get_due_words(alloc: Global, handle: &mut Handle, words: &mut [u64]) -> i32
    ensures { Questions handle.old.slot.value result handle.new.slot.value (words.new ≡ words.old) (λ s. TellsDue s result words.old words.new) }
{
    match take_out(alloc, handle) {
        None => CLOSED,
        Some(session) => {
            let code = tell_due(&session, words);
            *handle = holding(session);
            code
        }
    }
}

// The same, of a session.
fn tell_due(session: &Session, words: &mut [u64]) -> i32
    ensures { TellsDue session.now result words.old words.new }
{
    let due = due_of(session);
    fill_words(words, &due_words(&due));
    OK
}

// The words of what waits to be sent.
fn due_words(due: &RawDue) -> [u64; 3]
    ensures { result ≡ due_words due.now }
{
    [due.control, due.datagrams, due.streams]
}

/// Tells the counts of a session.
#[unsafe(no_mangle)]
pub extern "C" fn qs_get_info_words(alloc: Global, handle: &mut Handle, words: &mut [u64]) -> i32
    ensures { Questions handle.old.slot.value result handle.new.slot.value (words.new ≡ words.old) (λ s. TellsInfo s result words.old words.new) }
{
    match take_out(alloc, handle) {
        None => CLOSED,
        Some(session) => {
            let code = tell_info(&session, words);
            *handle = holding(session);
            code
        }
    }
}

// The same, of a session.
fn tell_info(session: &Session, words: &mut [u64]) -> i32
    ensures { TellsInfo session.now result words.old words.new }
{
    let info = info_of(session);
    fill_words(words, &info_words(&info));
    OK
}

// The words of what a session tells of itself.
fn info_words(info: &RawInfo) -> [u64; 15]
    ensures { result ≡ info_words info.now }
{
    [
        info.max_concurrent_bidi,
        info.max_concurrent_uni,
        info.max_remote_bidi,
        info.max_remote_uni,
        info.next_remote_bidi,
        info.next_remote_uni,
        info.remote_open_bidi,
        info.remote_open_uni,
        info.local_max_data,
        info.data_received,
        info.write_limit,
        info.send_streams,
        info.payloads,
        info.can_send_stream_data,
        info.has_pending,
    ]
}

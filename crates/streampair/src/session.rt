ghost use Rattle.std.specs.Prelude.{◌≡◌, ◌≤◌, ◌++◌, IfOk, Err, IfErr, IfSome, OnOk, OnErr, None, string_bytes, codes};
ghost use Rattle.std.specs.List.{flat_map};
ghost use Rattle.std.specs.Str.{IsAscii};
ghost use Rattle.std.specs.Io.KnownBytes.{Appends};
ghost use Rattle.quic_pair.specs.Shown.{pair_view};
ghost use Rattle.quic_lines.specs.Grammar.{MeansConfig, MeansNoConfig, MeansNoEarly};
ghost use Rattle.streampair.specs.Session.{answer_line, lines_of, Answers, AnswersReady, AnswersRunning, ExitsWith, IsStep, IsSettlement, settlement_text, IsFault, SaysReceived, IsWhole, IsServed, IsMalformed, IsEarlyLine, IsMadeOf, IsPairDue, IsStopOf, end_line, last_line, malformed_line, MeansNoLine, MeansNothing, no_line, status, StopsAt, stop_of, text_bytes};
ghost use Rattle.streampair.specs.Streams.{AppendsPart};

use crate::environment::{Environment, StreamFailed};
use crate::streams::Streams;
use itoa::Buffer;
use quic_lines::{
    LineError, is_settle, parse_config, parse_early, parse_step, parse_whole, refusal_line,
    reply_line, step_line, whole_line,
};
use quic_pair::{Pair, PayloadError, Received};
use quic_steps::{Config, End, PairError, Reply, Step};
use quic_wire::{OutOfMemory, ReceiveError, TransportError};
use std::alloc::Global;
use std::io::{BufReader, Read, Write};

/// Why a session stops before the end of its input.
#[derive(Clone, Copy, Debug)]
pub enum Stop {
    /// The line of this number, from 1 on, is malformed.
    Malformed(u64),
    /// There was no memory for the pair.
    NoPair,
    /// A read, a write or a flush failed.
    Failed,
    /// There was no memory to read a line or to spell its reply, outside of a step.
    OutOfMemory,
    /// The input has 2^64 - 1 lines or more.
    TooManyLines,
}

impl From<StreamFailed> for Stop {
    ghost use Rattle.std.specs.Prelude.{◌≡◌};
    ghost use Rattle.streampair.specs.declared.session.Stop.TheVariants.{Failed};

    ghost from_gives = { λ _ stop. stop ≡ Failed };

    fn from(_error: StreamFailed) -> Self {
        Stop::Failed
    }
}

impl From<OutOfMemory> for Stop {
    ghost use Rattle.std.specs.Prelude.{◌≡◌};
    ghost use Rattle.streampair.specs.declared.session.Stop.TheVariants.{OutOfMemory};

    ghost from_gives = { λ _ stop. stop ≡ OutOfMemory };

    fn from(_error: OutOfMemory) -> Self {
        Stop::OutOfMemory
    }
}

impl Stop {
    fn from_line(error: LineError, number: u64) -> Stop
        ensures { result ≡ stop_of error number }
    {
        match error {
            LineError::Malformed => Stop::Malformed(number),
            LineError::OutOfMemory => Stop::OutOfMemory,
        }
    }
}

/// What a session has read so far.
#[derive(Drop)]
pub enum Session {
    /// Nothing.
    Start,
    /// The config of endpoint A.
    Configured(Config),
    /// Both configs. The pair is made anew if the third line has limits that the client remembers.
    Joined {
        a: Config,
        b: Config,
        pair: Pair,
        /// Whether the next line is the third.
        is_third: bool,
    },
}

// The reply to a line, with its line feeds.
#[derive(Drop)]
enum Text {
    Ok,
    Lines(String),
}

impl Text {
    fn as_bytes(&self) -> &[u8]
        ensures { result.now ≡ text_bytes self.now }
    {
        match self {
            Text::Ok => b"ok\n",
            Text::Lines(lines) => lines.as_str().as_bytes(),
        }
    }
}

// Takes a step. Answers its reply, as a line with its line feed.
fn answer_step(alloc: Global, pair: &mut Pair, step: Step) -> Result<String, OutOfMemory>
    ensures { IfOk result (λ line. IsStep (pair_view pair.old) step (string_bytes line) (pair_view pair.new)) }
{
    let answer = pair.step(step);
    let line = answer_line(alloc, &answer)?;
    Ok(line)
}

fn answer_line(alloc: Global, answer: &Result<Reply, PairError>) -> Result<String, OutOfMemory>
    ensures { IfOk result (λ line. string_bytes line ≡ answer_line answer.now) }
{
    match answer {
        Ok(reply) => {
            let line = reply_line(alloc, reply)?;
            Ok(with_line_feed(line)?)
        }
        Err(error) => {
            let line = refusal_line(alloc, *error)?;
            Ok(with_line_feed(line)?)
        }
    }
}

// The lines of steps, each with the line that answers it.
fn step_lines(
    alloc: Global,
    taken: &[(Step, Result<Reply, PairError>)],
) -> Result<String, OutOfMemory>
    ensures { IfOk result (λ text. string_bytes text ≡ flat_map lines_of taken.now) }
{
    let mut text = String::new(alloc);
    for (step, answer) in taken {
        let line = step_line(alloc, step)?;
        let reply = answer_line(alloc, answer)?;
        text.push_str(line.as_str())?;
        text.push_str("\n")?;
        text.push_str(reply.as_str())?;
    }
    Ok(text)
}

fn with_refusal(alloc: Global, text: String, error: PairError) -> Result<String, OutOfMemory>
    ensures { IfOk result (λ whole. string_bytes whole ≡ string_bytes text ++ answer_line (Err error)) }
{
    let mut text = text;
    let line = answer_line(alloc, &Err(error))?;
    text.push_str(line.as_str())?;
    Ok(text)
}

// The lines of a settling, and behind them that of its error.
fn settled_text(
    alloc: Global,
    taken: &[(Step, Result<Reply, PairError>)],
    ended: Result<(), PairError>,
) -> Result<String, OutOfMemory>
    ensures { IfOk result (λ text. string_bytes text ≡ settlement_text taken.now ended) }
{
    let text = step_lines(alloc, taken)?;
    match ended {
        Ok(()) => Ok(text),
        Err(error) => with_refusal(alloc, text, error),
    }
}

// Takes the steps of a settling. Answers their lines and their replies.
fn settle_lines(alloc: Global, pair: &mut Pair) -> Result<String, OutOfMemory>
    ensures { IfOk result (λ text. IsSettlement (pair_view pair.old) (string_bytes text) (pair_view pair.new)) }
{
    let (taken, ended) = pair.settle();
    settled_text(alloc, taken.as_slice(), ended)
}

// Why no more frames of a payload were accepted, as the fault of the next one.
fn fault_of(answer: Result<(), PayloadError>) -> Option<ReceiveError>
    ensures { IsFault answer result }
{
    match answer {
        Ok(()) => None,
        Err(PayloadError::Malformed) => Some(ReceiveError::Transport(
            TransportError::frame_encoding_error("malformed frame"),
        )),
        Err(PayloadError::Transport(error)) => Some(ReceiveError::Transport(error)),
        Err(PayloadError::OutOfMemory) => Some(ReceiveError::OutOfMemory),
    }
}

fn received_line(alloc: Global, received: Received) -> Result<String, OutOfMemory>
    ensures { IfOk result (λ line. SaysReceived received (string_bytes line)) }
{
    let line = whole_line(alloc, received.next, fault_of(received.answer))?;
    Ok(with_line_feed(line)?)
}

// Hands in a whole payload. Answers its reply, as a line with its line feed.
fn answer_whole(alloc: Global, pair: &mut Pair, payload: usize) -> Result<String, OutOfMemory>
    ensures { IfOk result (λ text. IsWhole (pair_view pair.old) payload (string_bytes text) (pair_view pair.new)) }
{
    match pair.deliver_all(payload) {
        Ok(received) => received_line(alloc, received),
        Err(error) => answer_line(alloc, &Err(error)),
    }
}

// Answers the line of this number, behind the configs.
fn answer_running(alloc: Global, number: u64, pair: &mut Pair, line: &[u8]) -> Result<String, Stop>
    ensures ascii { OnOk result (IsAscii line.now) }
    ensures answers { IfOk result (λ text. AnswersRunning (pair_view pair.old) line.now (string_bytes text) (pair_view pair.new)) }
    ensures stops { IfErr result (IsStopOf number (MeansNoLine line.now) ⊥) }
{
    if is_settle(line) {
        return Ok(settle_lines(alloc, pair)?);
    }
    if let Some(payload) = parse_whole(line) {
        return Ok(answer_whole(alloc, pair, payload)?);
    }
    match parse_step(alloc, line) {
        Ok(step) => Ok(answer_step(alloc, pair, step)?),
        Err(error) => Err(Stop::from_line(error, number)),
    }
}

fn with_line_feed(line: String) -> Result<String, OutOfMemory>
    ensures { IfOk result (λ whole. string_bytes whole ≡ string_bytes line ++ codes "\n") }
{
    let mut line = line;
    line.push_str("\n")?;
    Ok(line)
}

// The config of an end, which a line of this number is.
fn config_of(alloc: Global, number: u64, line: &[u8], who: End) -> Result<Config, Stop>
    ensures ascii { OnOk result (IsAscii line.now) }
    ensures means { IfOk result (MeansConfig line.now who) }
    ensures stops { IfErr result (IsStopOf number (MeansNoConfig line.now who) ⊥) }
{
    match parse_config(alloc, line, who) {
        Ok(config) => Ok(config),
        Err(error) => Err(Stop::from_line(error, number)),
    }
}

// The session after the second line.
fn ready_of<E: Environment>(environment: &E, a: &Config, b: &Config) -> Result<Session, OutOfMemory>
    ensures made { IfOk result (IsMadeOf a.now b.now) }
    ensures no_pair { OnErr result (E.has_no_pair environment.now) }
{
    let pair = environment.make_pair(*a, *b, None)?;
    Ok(Session::Joined {
        a: *a,
        b: *b,
        pair,
        is_third: true,
    })
}

// Takes the third line. The pair is made anew if the client remembers limits.
fn answer_ready<E: Environment>(
    environment: &E,
    number: u64,
    a: &Config,
    b: &Config,
    pair: &mut Pair,
    line: &[u8],
) -> Result<Text, Stop>
    ensures ascii { OnOk result (IsAscii line.now) }
    ensures answers { IfOk result (λ text. AnswersReady a.now b.now (pair_view pair.old) line.now (text_bytes text) (pair_view pair.new)) }
    ensures stops { IfErr result (IsStopOf number (MeansNoLine line.now × MeansNoEarly line.now) (IsEarlyLine line.now)) }
    ensures no_pair { IfErr result (λ stop. stop ≡ Stop.NoPair → E.has_no_pair environment.now) }
{
    let Some(remembered) = parse_early(environment.alloc(), line)? else {
        let lines = answer_running(environment.alloc(), number, pair, line)?;
        return Ok(Text::Lines(lines));
    };
    let Ok(early) = environment.make_pair(*a, *b, Some(remembered)) else {
        return Err(Stop::NoPair);
    };
    *pair = early;
    Ok(Text::Ok)
}

impl Session {
    // Takes the line of this number, and returns the reply to it. If it fails, the session has stopped.
    fn answer<E: Environment>(
        &mut self,
        environment: &E,
        number: u64,
        line: &[u8],
    ) -> Result<Text, Stop>
        ensures ascii { OnOk result (IsAscii line.now) }
        ensures answers { IfOk result (λ text. Answers self.old line.now (text_bytes text) self.new) }
        ensures stops { IfErr result (IsStopOf number (MeansNothing self.old line.now) (IsPairDue self.old line.now)) }
        ensures no_pair { IfErr result (λ stop. stop ≡ Stop.NoPair → E.has_no_pair environment.now) }
    {
        match self {
            Session::Start => {
                let config = config_of(environment.alloc(), number, line, End::A)?;
                *self = Session::Configured(config);
                Ok(Text::Ok)
            }
            Session::Configured(a) => {
                let b = config_of(environment.alloc(), number, line, End::B)?;
                let Ok(session) = ready_of(environment, a, &b) else {
                    return Err(Stop::NoPair);
                };
                *self = session;
                Ok(Text::Ok)
            }
            Session::Joined {
                a,
                b,
                pair,
                is_third,
            } => {
                if *is_third {
                    let text = answer_ready(environment, number, a, b, pair, line)?;
                    *is_third = false;
                    return Ok(text);
                }
                let lines = answer_running(environment.alloc(), number, pair, line)?;
                Ok(Text::Lines(lines))
            }
        }
    }
}

// Notes that memory ran out, if a session stopped for that.
fn note<E: Environment>(environment: &mut E, stop: Stop)
    ensures written { E.written environment.new ≡ E.written environment.old }
    ensures no_memory { stop ≡ Stop.OutOfMemory → E.has_no_memory environment.new }
    ensures still_failed { E.has_failed environment.old → E.has_failed environment.new }
    ensures still_no_pair { E.has_no_pair environment.old → E.has_no_pair environment.new }
{
    match stop {
        Stop::OutOfMemory => environment.note_out_of_memory(OutOfMemory),
        _ => (),
    }
}

// Answers all lines, with a session at its start.
fn run<E: Environment>(environment: &mut E, session: &mut Session) -> Result<(), Stop>
    requires { session.old ≡ Session.Start }
    ensures ok { OnOk result (IfSome (E.unread environment.old) (λ input. IsServed input (E.written environment.old) (E.written environment.new))) }
    ensures stops { IfErr result (λ stop. IfSome (E.unread environment.old) (λ input. StopsAt input no_line (E.written environment.old) (E.written environment.new) stop)) }
    ensures failed { IfErr result (λ stop. stop ≡ Stop.Failed → E.has_failed environment.new) }
    ensures no_pair { IfErr result (λ stop. stop ≡ Stop.NoPair → E.has_no_pair environment.new) }
    ensures no_memory { IfErr result (λ stop. stop ≡ Stop.OutOfMemory → E.has_no_memory environment.new) }
{
    let mut line = Vec::new(environment.alloc());
    for number in 1..u64::MAX {
        if !environment.read_line(&mut line)? {
            return Ok(());
        }
        match session.answer(environment, number, line.as_slice()) {
            Ok(text) => environment.write(text.as_bytes())?,
            Err(stop) => {
                note(environment, stop);
                return Err(stop);
            }
        }
    }
    Err(Stop::TooManyLines)
}

// Answers all lines.
fn answer_all<E: Environment>(environment: &mut E) -> Result<(), Stop>
    ensures ok { OnOk result (IfSome (E.unread environment.old) (λ input. IsServed input (E.written environment.old) (E.written environment.new))) }
    ensures stops { IfErr result (λ stop. IfSome (E.unread environment.old) (λ input. StopsAt input no_line (E.written environment.old) (E.written environment.new) stop)) }
    ensures failed { IfErr result (λ stop. stop ≡ Stop.Failed → E.has_failed environment.new) }
    ensures no_pair { IfErr result (λ stop. stop ≡ Stop.NoPair → E.has_no_pair environment.new) }
    ensures no_memory { IfErr result (λ stop. stop ≡ Stop.OutOfMemory → E.has_no_memory environment.new) }
{
    let mut session = Session::Start;
    run(environment, &mut session)
}

// Writes that the line of this number is malformed, without memory.
fn write_malformed<E: Environment>(environment: &mut E, number: u64) -> Result<(), StreamFailed>
    ensures whole { OnOk result (Appends (E.written environment.old) (E.written environment.new) (malformed_line number)) }
    ensures part { OnErr result (AppendsPart (E.written environment.old) (E.written environment.new) (malformed_line number)) }
    ensures failed { OnErr result (E.has_failed environment.new) }
    ensures still_failed { E.has_failed environment.old → E.has_failed environment.new }
    ensures still_no_pair { E.has_no_pair environment.old → E.has_no_pair environment.new }
    ensures still_no_memory { E.has_no_memory environment.old → E.has_no_memory environment.new }
{
    let mut digits = Buffer::new();
    environment.write(b"malformed ")?;
    environment.write(digits.format(number).as_bytes())?;
    environment.write(b"\n")
}

// Writes the last line of a session that a malformed line or want of memory for a pair has ended.
fn write_last_line<E: Environment>(
    environment: &mut E,
    ended: Result<(), Stop>,
) -> Result<(), StreamFailed>
    ensures whole { OnOk result (Appends (E.written environment.old) (E.written environment.new) (end_line ended)) }
    ensures part { OnErr result (AppendsPart (E.written environment.old) (E.written environment.new) (end_line ended)) }
    ensures failed { OnErr result (E.has_failed environment.new) }
    ensures still_failed { E.has_failed environment.old → E.has_failed environment.new }
    ensures still_no_pair { E.has_no_pair environment.old → E.has_no_pair environment.new }
    ensures still_no_memory { E.has_no_memory environment.old → E.has_no_memory environment.new }
{
    match ended {
        Err(Stop::Malformed(number)) => write_malformed(environment, number),
        Err(Stop::NoPair) => environment.write(b"refused 5 OutOfMemory\n"),
        _ => Ok(()),
    }
}

/// Answers each line of the input, writes a last line if a line is malformed or there is no memory for a pair, and flushes.
///
/// Fails with [`Stop::Failed`] only if a read, a write or a flush failed, with [`Stop::NoPair`] only if memory for a pair that was due
/// was refused, and with [`Stop::OutOfMemory`] only if memory for a line or for its reply was. The lines before have their replies; if
/// a stream failed, a beginning of one reply more may have been written.
pub fn answer_lines<E: Environment>(environment: &mut E) -> Result<(), Stop>
    ensures served { OnOk result (IfSome (E.unread environment.old) (λ input. IsServed input (E.written environment.old) (E.written environment.new))) }
    ensures stops { IfErr result (λ stop. IfSome (E.unread environment.old) (λ input. StopsAt input last_line (E.written environment.old) (E.written environment.new) stop)) }
    ensures flushed { (result ≡ Err Stop.Failed → ⊥) → E.is_flushed environment.new }
    ensures failed { IfErr result (λ stop. stop ≡ Stop.Failed → E.has_failed environment.new) }
    ensures no_pair { IfErr result (λ stop. stop ≡ Stop.NoPair → E.has_no_pair environment.new) }
    ensures no_memory { IfErr result (λ stop. stop ≡ Stop.OutOfMemory → E.has_no_memory environment.new) }
{
    let ended = answer_all(environment);
    write_last_line(environment, ended)?;
    environment.flush()?;
    ended
}

fn status_of(ended: Result<(), Stop>) -> u8
    ensures { result ≡ status ended }
{
    match ended {
        Ok(()) => 0,
        Err(Stop::Malformed(_)) => 2,
        Err(_) => 1,
    }
}

/// Answers each line of an environment's input, as [`answer_lines`]. Returns the exit status of what came of it: 0 if the input ended,
/// each line has its reply and the output was flushed; 2 if a line is malformed and the output was flushed; 1 if a read, a write or a
/// flush failed, memory for a pair, a line or a reply was refused, or the input has 2^64 - 1 lines or more. No other session has the
/// status: in an environment of which nothing is known, a failure can be shown only by the call that failed.
#[tactic(auto, using(crate::proofs::Serving::exits_with))]
pub fn serve_in<E: Environment>(environment: &mut E) -> u8
    ensures { ExitsWith (E.unread environment.old) (E.written environment.old) (E.written environment.new) (E.is_flushed environment.new) (E.has_failed environment.new) (E.has_no_pair environment.new) (E.has_no_memory environment.new) result }
{
    status_of(answer_lines(environment))
}

/// Answers each line of the input by a line of the output, as [`serve_in`] with these streams as its environment, and returns its exit
/// status, or 1 if there was no memory for the reader's buffer.
///
/// Neither a reader nor a writer has a fact that tells whether a call of it failed, so these postconditions speak of 0 and 2 alone. That
/// 1 has a cause is the postcondition of [`serve_in`].
pub fn serve<R: Read + Drop, W: Write + Drop>(alloc: Global, input: R, output: W) -> u8
    ensures status { result ≤ 2 }
    ensures served { result ≡ 0 → IfSome (R.remaining input) (λ bytes. IsServed bytes None None) }
    ensures malformed { result ≡ 2 → IfSome (R.remaining input) (λ bytes. IsMalformed bytes None None) }
{
    let Ok(reader) = BufReader::new(alloc, input) else {
        return 1;
    };
    let mut streams = Streams {
        alloc,
        input: reader,
        output,
    };
    serve_in(&mut streams)
}

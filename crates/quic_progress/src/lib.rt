//! What two ends that settled know of each other's limits, and what these leave to be written and opened.
#![tactic(auto)]

ghost use Rattle.std.specs.Prelude.{length};
ghost use Rattle.quic_exchange.specs.State.{PairState};
ghost use Rattle.quic_exchange.specs.History.{History, past_of};
ghost use Rattle.quic_exchange.specs.From.{Beginning, PairFrom};
ghost use Rattle.quic_exchange.specs.Runs.{sendings_of};
ghost use Rattle.quic_exchange.specs.Tale.{Tales, Told};
ghost use Rattle.quic_exchange.specs.Settling.{AreIdle, AreSettledIn};
ghost use Rattle.quic_exchange.specs.Completed.{HaveBeenRead, AreAllAcked};
ghost use Rattle.quic_progress.specs.Consumed.{HaveResetsArrived, CountAsConsumed, ConsumeMost};
ghost use Rattle.quic_progress.specs.Progress.{IsAgreed, ForgetsNone, KnowLimits, KnowMost, HaveRoom, AreFree};

/// Once neither of two ends has something to send, and every payload is settled, as `Pair::settle` leaves them: each end
/// knows the limits that the other announced last, and what the other permits but for an eighth of its windows. So
/// where all was consumed or read, and no debt is owed, the limits leave the windows but for an eighth, and where no
/// stream of a direction is open, one may be opened. It is said of pairs whose client sent nothing before the
/// handshake was done, or whose server accepted it, or rejected it and the client had set nothing that it permits.
pub fn settled_ends_know_limits()
    ensures { (s : Beginning) (h : History) (v : PairState) (led : PairFrom s h v) → ForgetsNone s h v → AreIdle v → AreSettledIn 0 (length v.sent) v.sent → (t : Tales) → Told s (sendings_of led) t → KnowLimits v t }
{}

/// Whatever came of what the client sent before the handshake was done, once that is decided: as `Pair::settle` leaves
/// them, the client knows all of this of the server, and the server of the client what is said of streams.
pub fn agreed_ends_know_most()
    ensures { (s : Beginning) (h : History) (v : PairState) (led : PairFrom s h v) → IsAgreed s v → AreIdle v → AreSettledIn 0 (length v.sent) v.sent → (t : Tales) → Told s (sendings_of led) t → KnowMost v t }
{}

/// Where, as `Pair::settle` leaves them, all was read that was written on streams that were neither given up nor stopped,
/// each of these that takes more data has room for its window but for an eighth, as far as its own limit goes.
pub fn read_streams_have_room()
    ensures { (s : Beginning) (h : History) (v : PairState) (led : PairFrom s h v) → IsAgreed s v → AreIdle v → AreSettledIn 0 (length v.sent) v.sent → HaveBeenRead (past_of h) → (t : Tales) → Told s (sendings_of led) t → HaveRoom (past_of h) v t }
{}

/// Where, as `Pair::settle` leaves it, all that was written on streams that were not given up is acknowledged, the send
/// windows are free.
pub fn send_windows_are_free()
    ensures { (s : Beginning) (h : History) (v : PairState) (led : PairFrom s h v) → AreAllAcked (Told s (sendings_of led)) → (t : Tales) → Told s (sendings_of led) t → AreFree t }
{}

/// Once neither of two ends has something to send, and every payload is settled, as `Pair::settle` leaves them, a reset was
/// accepted of each stream that its writer gave up: whatever came of what the client sent before the handshake was done,
/// once that is decided. After a rejection it is said of the streams since.
pub fn settled_resets_arrive()
    ensures { (s : Beginning) (h : History) (v : PairState) (led : PairFrom s h v) → IsAgreed s v → AreIdle v → AreSettledIn 0 (length v.sent) v.sent → HaveResetsArrived (past_of h) v.sent }
{}

/// So where, as `Pair::settle` leaves them, all was read that was written on streams that were neither given up nor stopped,
/// all that was written in all counts as consumed: where no debt is owed, each end permits its receive window above all
/// that the other wrote, and the other knows it but for an eighth. It is said of the pairs of `settled_ends_know_limits`.
pub fn settled_ends_consume_all()
    ensures { (s : Beginning) (h : History) (v : PairState) (led : PairFrom s h v) → ForgetsNone s h v → AreIdle v → AreSettledIn 0 (length v.sent) v.sent → HaveBeenRead (past_of h) → (t : Tales) → Told s (sendings_of led) t → CountAsConsumed v t }
{}

/// Whatever came of what the client sent before the handshake was done, once that is decided: all that was written in all
/// counts as consumed so each way, and the client knows the limit of the server but for an eighth.
pub fn agreed_ends_consume_most()
    ensures { (s : Beginning) (h : History) (v : PairState) (led : PairFrom s h v) → IsAgreed s v → AreIdle v → AreSettledIn 0 (length v.sent) v.sent → HaveBeenRead (past_of h) → (t : Tales) → Told s (sendings_of led) t → ConsumeMost v t }
{}

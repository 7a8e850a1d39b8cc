//! The parts of a round, and the rounds.

ghost use Rattle.std.specs.Prelude.{◌≡◌, ◌<◌, ◌≤◌, ◌+◌, ◌-◌, ◌^◌, ◌%◌, ◌==◌, ℕ, [], OnOk, OnErr, not};
ghost use Rattle.chorus_draw.specs.Draws.{next_state, number_of};
ghost use Rattle.chorus_transport.specs.Sending.{Sending};
ghost use Rattle.chorus_transport.specs.Receiving.{Receiving};
ghost use Rattle.chorus_lossy.specs.declared.rounds.Run.{Run};
ghost use Rattle.chorus_lossy.specs.Line.{chunk_count, ends};
ghost use Rattle.chorus_lossy.specs.Rounds.{Moment, is_lost, filled, emission, all_sent, released, all_delivered, acknowledged, round};
ghost use Rattle.chorus_lossy.specs.Running.{IsAt, IsBetween, AreSmall, MayEmit};

use crate::carrying::Carried;
use crate::line::{WINDOW, arrive, arrive_twice, chunk_at, chunk_count};
use chorus_draw::{next_state, number_of};
use chorus_transport::{Chunk, Receiver, Sender};
use std::alloc::{AllocError, Global};

/// A run, so far as the ends do not tell it.
#[derive(Drop)]
pub(crate) struct Run {
    /// The bytes that were delivered.
    pub(crate) delivered: Vec<u8>,
    /// The chunks that the line holds back in this round, with their numbers, the latest last.
    pub(crate) held: Vec<(u64, Chunk)>,
    /// What the generator has come to.
    pub(crate) state: u64,
    /// How often a chunk was emitted.
    pub(crate) emitted: u64,
    /// How often a chunk or an acknowledgement was lost.
    pub(crate) lost: u64,
}

impl Run {
    /// The run before its first round: nothing happened yet.
    pub(crate) fn new(alloc: Global, first: u64) -> Self
        ensures state { result.state ≡ first }
        ensures held { result.held.items ≡ [] }
        ensures delivered { result.delivered.items ≡ [] }
        ensures emitted { result.emitted ≡ 0 }
        ensures lost { result.lost ≡ 0 }
    {
        Run {
            delivered: Vec::new(alloc),
            held: Vec::new(alloc),
            state: first,
            emitted: 0,
            lost: 0,
        }
    }

    /// What was carried in the run, with what it counted.
    pub(crate) fn carried(self) -> Carried
        ensures delivered { result.delivered ≡ self.delivered }
        ensures emitted { result.emitted ≡ self.emitted }
        ensures lost { result.lost ≡ self.lost }
    {
        Carried {
            delivered: self.delivered,
            emitted: self.emitted,
            lost: self.lost,
        }
    }
}

/// What becomes of what is sent next in the round, by the last digit of a draw in base four.
fn draw(run: &mut Run) -> u64
    ensures fate { result ≡ number_of run.new.state % 4 }
    ensures state { run.new ≡ record run.old { state = next_state run.old.state } }
{
    run.state = next_state(run.state);
    number_of(run.state) % 4
}

/// Whether what has this fate is lost: in each fourth round nothing is.
fn is_lost(round: u64, fate: u64) -> bool
    ensures { result ≡ is_lost round fate }
{
    fate == 0 && round % 4 != 0
}

/// Puts chunks into the sender, as a round begins, while the window has room.
pub(crate) fn fill(alloc: Global, bytes: &[u8], sender: &mut Sender) -> Result<(), AllocError>
    requires { sender.old.window ≡ WINDOW }
    ensures ok { (m : Moment) (run : Run) (r : Receiving) → IsAt m run sender.old r →
        OnOk result (IsAt (filled bytes.now m) run sender.new r) }
    ensures window { sender.new.window ≡ WINDOW }
    ensures err { (m : Moment) (run : Run) (r : Receiving) → IsAt m run sender.old r →
        OnErr result (IsBetween m (filled bytes.now m) (ends sender.new r)) }
{
    let kept = sender.next() - sender.base();
    let left = chunk_count(bytes).saturating_sub(sender.next());
    let room = left.min(u64::from(WINDOW) - kept);
    for _ in 0..room {
        let chunk = chunk_at(alloc, bytes, sender.next())?;
        match sender.put(chunk) {
            Ok(()) => {}
            // There is room, so that memory is what it lacks.
            Err(_) => return Err(AllocError),
        }
    }
    Ok(())
}

/// Emits each chunk that the sender keeps: at most a window of chunks, each of which may be lost.
pub(crate) fn send(
    alloc: Global,
    round: u64,
    run: &mut Run,
    sender: &Sender,
    receiver: &mut Receiver,
) -> Result<(), AllocError>
    requires emitted { run.old.emitted + WINDOW < 2 ^ 64 }
    requires lost { run.old.lost + WINDOW < 2 ^ 64 }
    requires held { run.old.held.items ≡ [] }
    requires window { sender.now.window ≡ WINDOW }
    ensures ok { (m : Moment) → IsAt m run.old sender.now receiver.old →
        OnOk result (IsAt (all_sent round m) run.new sender.now receiver.new) }
    ensures held { OnOk result (AreSmall run.new.held.items) }
    ensures lost { run.new.lost ≤ run.old.lost + WINDOW }
    ensures err { (m : Moment) → IsAt m run.old sender.now receiver.old →
        OnErr result (IsBetween m (all_sent round m) (ends sender.now receiver.new)) }
{
    for number in sender.base()..sender.next() {
        emit(alloc, round, number, run, sender, receiver)?;
    }
    Ok(())
}

/// Emits the chunk of that number, which the sender keeps, with a draw.
fn emit(
    alloc: Global,
    round: u64,
    number: u64,
    run: &mut Run,
    sender: &Sender,
    receiver: &mut Receiver,
) -> Result<(), AllocError>
    requires may { MayEmit number run.old sender.now }
    ensures ok { (m : Moment) → IsAt m run.old sender.now receiver.old →
        OnOk result (IsAt (emission round number m) run.new sender.now receiver.new) }
    ensures emitted { run.new.emitted ≡ run.old.emitted + 1 }
    ensures lost { run.new.lost ≤ run.old.lost + 1 }
    ensures held { OnOk result (AreSmall run.new.held.items) }
    ensures err { (m : Moment) → IsAt m run.old sender.now receiver.old →
        OnErr result (IsBetween m (emission round number m) (ends sender.now receiver.new)) }
{
    run.emitted += 1;
    let fate = draw(run);
    if is_lost(round, fate) {
        run.lost += 1;
        return Ok(());
    }
    let Some(chunk) = sender.emit(alloc, number)? else {
        unreachable!()
    };
    if fate == 1 {
        return arrive_twice(alloc, number, chunk, receiver);
    }
    if fate == 2 {
        run.held.push((number, chunk))?;
        return Ok(());
    }
    arrive(number, chunk, receiver)
}

/// Lets the chunks that the line held back in the round arrive, the latest first.
pub(crate) fn release(run: &mut Run, receiver: &mut Receiver) -> Result<(), AllocError>
    requires { AreSmall run.old.held.items }
    ensures ok { (m : Moment) (s : Sending) → IsAt m run.old s receiver.old →
        OnOk result (IsAt (released m) run.new s receiver.new) }
    ensures held { OnOk result (run.new.held.items ≡ []) }
    ensures lost { run.new.lost ≡ run.old.lost }
    ensures err { (m : Moment) (s : Sending) → IsAt m run.old s receiver.old →
        OnErr result (IsBetween m (released m) (ends s receiver.new)) }
{
    while let Some((number, chunk)) = run.held.pop() {
        arrive(number, chunk, receiver)?;
    }
    Ok(())
}

/// Delivers all that the receiver gives in a round.
pub(crate) fn deliver(run: &mut Run, receiver: &mut Receiver) -> Result<(), AllocError>
    ensures ok { (m : Moment) (s : Sending) → IsAt m run.old s receiver.old →
        OnOk result (IsAt (all_delivered m) run.new s receiver.new) }
    ensures held { run.new.held ≡ run.old.held }
    ensures lost { run.new.lost ≡ run.old.lost }
    ensures err { (m : Moment) (s : Sending) → IsAt m run.old s receiver.old →
        OnErr result (IsBetween m (all_delivered m) (ends s receiver.new)) }
{
    while let Some(chunk) = receiver.next() {
        run.delivered.extend_from_slice(chunk.bytes())?;
    }
    Ok(())
}

/// Sends the acknowledgement of a round, with a draw.
pub(crate) fn acknowledge(round: u64, run: &mut Run, sender: &mut Sender, receiver: &Receiver)
    requires { run.old.lost + 1 < 2 ^ 64 }
    ensures ok { (m : Moment) → IsAt m run.old sender.old receiver.now →
        IsAt (acknowledged round m) run.new sender.new receiver.now }
    ensures held { run.new.held ≡ run.old.held }
{
    let fate = draw(run);
    if is_lost(round, fate) {
        run.lost += 1;
    } else {
        sender.acked(receiver.ack());
    }
}

/// Plays the round of that number, from 1, of a run over the line. Beside the chunks that are sent it may lose the
/// acknowledgement.
pub(crate) fn play(
    alloc: Global,
    bytes: &[u8],
    number: u64,
    run: &mut Run,
    sender: &mut Sender,
    receiver: &mut Receiver,
) -> Result<(), AllocError>
    requires window { sender.old.window ≡ WINDOW }
    requires held { run.old.held.items ≡ [] }
    requires emitted { run.old.emitted + WINDOW < 2 ^ 64 }
    requires lost { run.old.lost + WINDOW + 1 < 2 ^ 64 }
    ensures ok { (m : Moment) → IsAt m run.old sender.old receiver.old →
        OnOk result (IsAt (round bytes.now number m) run.new sender.new receiver.new) }
    ensures held { OnOk result (run.new.held.items ≡ []) }
    ensures err { (m : Moment) → IsAt m run.old sender.old receiver.old → OnErr result
        (IsBetween m (round bytes.now number m) (ends sender.new receiver.new)) }
{
    fill(alloc, bytes, sender)?;
    send(alloc, number, run, sender, receiver)?;
    release(run, receiver)?;
    deliver(run, receiver)?;
    if run.delivered.len() != bytes.len() {
        acknowledge(number, run, sender, receiver);
    }
    Ok(())
}

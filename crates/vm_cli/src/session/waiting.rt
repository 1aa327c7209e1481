//! Batches that wait, and are carried out together.
ghost use Rattle.std.specs.Prelude.{◌≡◌};
ghost use Rattle.vm_cli.specs.session.Known.{written_to};
ghost use Rattle.vm_cli.specs.session.WaitingCalls.{placed_behind};

use crate::session::batch::Batch;
use crate::session::batches::BatchSession;
use crate::session::carrying::{Stop, Then, carry_out, commit, undo};
use crate::session::{OnRefusal, ServeFault};
use std::io::Write;
use std::mem;
use vm_disk::Disk;
use vm_store::Store;

/// A batch that waits to be carried out beside others.
#[derive(Drop)]
pub(crate) struct WaitingBatch {
    /// The number of its planner.
    pub number: u32,
    /// Its lines. It is open if a line began it.
    pub batch: Batch,
    /// The answers to its lines, while it is carried out.
    pub answers: Vec<u8>,
}

/// How a round of batches that wait came out.
#[derive(Clone, Copy)]
enum Tried {
    /// All of them were committed, and are answered.
    Committed,
    /// The first of them was refused, and is answered.
    Refused,
    /// The one at this place was refused beside those before it, and nobody is answered.
    Undone(usize),
}

/// A line of the batch at this place that was refused.
#[derive(Clone, Copy)]
struct Stopped {
    at: usize,
    stop: Stop,
}

impl BatchSession {
    ghost use Rattle.std.specs.Prelude.{◌≡◌, ◌<◌, ◌≤◌, IfErr, IfOk, slice_range, vec_len};
    ghost use Rattle.vm_cli.specs.session.PlannerCalls.{SettlesQueue};
    ghost use Rattle.vm_cli.specs.session.StreamCalls.{scene};
    ghost use Rattle.vm_cli.specs.session.SessionKinds.{AnswersThen};
    ghost use Rattle.vm_cli.specs.session.WaitingCalls.{CarriesShared, IsAmong, IsFewer, KeepsWaiting, PutsWaiting, TriesTogether, shared_texts, sure_result};

    /// Carries out all that waits, and answers it. As many batches as can be are committed
    /// together. One that is refused beside others is tried by itself, behind those before it.
    pub(crate) fn settle_waiting<W: Write, D: Disk>(
        &mut self,
        waiting: &mut Vec<WaitingBatch>,
        writer: &mut W,
        store: &mut Store<D>,
    ) -> Result<bool, ServeFault>
        requires telling { self.old.manner.on_refusal ≡ OnRefusal.Tell }
        ensures { SettlesQueue W.contents waiting.old.items result
            (scene self.old store.old writer.old) (scene self.new store.new writer.new) }
    {
        let mut refused = false;
        let mut from = 0;
        let mut to = waiting.len();
        while from < waiting.len() {
            match self.try_together(from, to, waiting, writer, store)? {
                Tried::Committed => {
                    from = to;
                    to = waiting.len();
                }
                Tried::Refused => {
                    refused = true;
                    from += 1;
                    to = waiting.len();
                }
                Tried::Undone(place) => to = place,
            }
        }
        Ok(refused)
    }

    /// Carries out these of the batches that wait, and commits them together. If a line of one is
    /// refused, all is undone, and its planner is answered if it is the first.
    fn try_together<W: Write, D: Disk>(
        &mut self,
        from: usize,
        to: usize,
        waiting: &mut Vec<WaitingBatch>,
        writer: &mut W,
        store: &mut Store<D>,
    ) -> Result<Tried, ServeFault>
        requires some { from < to }
        requires within { to ≤ vec_len waiting.old }
        ensures tries { TriesTogether W.contents from to result waiting.old.items waiting.new.items
            (scene self.old store.old writer.old) (scene self.new store.new writer.new) }
        ensures fewer { IfOk result (λ tried. IsFewer from to tried) }
    {
        match self.carry_out_all(from, to, waiting, store) {
            Ok(()) => {
                let committed = commit(0, store);
                self.answer_all(committed, from, to, waiting, writer)?;
                Ok(Tried::Committed)
            }
            Err(stopped) => {
                let then = undo(store);
                let stop = Stop {
                    then,
                    ..stopped.stop
                };
                match then {
                    Then::GoOn if stopped.at > from => Ok(Tried::Undone(stopped.at)),
                    Then::GoOn => {
                        self.put_waiting(stopped.at, Err(stop), waiting, writer)?;
                        Ok(Tried::Refused)
                    }
                    _ => {
                        self.put_waiting(stopped.at, Err(stop), waiting, writer)?;
                        Err(ServeFault::Store)
                    }
                }
            }
        }
    }

    /// Carries out the lines of these batches, up to the first that is refused.
    fn carry_out_all<D: Disk>(
        &self,
        from: usize,
        to: usize,
        waiting: &mut Vec<WaitingBatch>,
        store: &mut Store<D>,
    ) -> Result<(), Stopped>
        requires order { from ≤ to }
        requires within { to ≤ vec_len waiting.old }
        ensures carries { CarriesShared self.now.manner from to result waiting.old.items waiting.new.items store.old store.new }
        ensures among { IfErr result (λ stopped. IsAmong from to stopped) }
        ensures place { IfErr result (λ stopped. stopped.stop.place < usize.MAX) }
    {
        for at in from..to {
            let own = &mut waiting[at];
            own.answers.clear();
            let batch = &own.batch;
            let lines = batch.lines.as_slice();
            if let Err(stop) = carry_out(self.alloc, self.manner, lines, &mut own.answers, store) {
                return Err(Stopped { at, stop });
            }
        }
        Ok(())
    }

    /// Answers these batches, which were committed together, or their commit was not acknowledged.
    fn answer_all<W: Write>(
        &mut self,
        committed: Result<(), Stop>,
        from: usize,
        to: usize,
        waiting: &mut Vec<WaitingBatch>,
        writer: &mut W,
    ) -> Result<(), ServeFault>
        requires order { from ≤ to }
        requires within { to ≤ vec_len waiting.old }
        ensures keeps { KeepsWaiting waiting.old.items waiting.new.items self.old self.new }
        ensures answered { AnswersThen (shared_texts committed (slice_range waiting.old.items from to)) (sure_result committed) result
            (written_to W.contents writer.old writer.new) }
    {
        for at in from..to {
            let settled = beside(committed, waiting[at].batch.lines.len());
            self.put_waiting(at, settled, waiting, writer)?;
        }
        match committed {
            Ok(()) => Ok(()),
            Err(_) => Err(ServeFault::Unsure),
        }
    }

    /// Writes what the planner of the batch at this place is answered.
    fn put_waiting<W: Write>(
        &mut self,
        at: usize,
        settled: Result<(), Stop>,
        waiting: &mut Vec<WaitingBatch>,
        writer: &mut W,
    ) -> Result<(), ServeFault>
        requires within { at < vec_len waiting.old }
        requires place { IfErr settled (λ stop. stop.place < usize.MAX) }
        ensures keeps { KeepsWaiting waiting.old.items waiting.new.items self.old self.new }
        ensures puts { PutsWaiting at settled result waiting.old.items waiting.new.items
            (written_to W.contents writer.old writer.new) }
    {
        let own = &mut waiting[at];
        mem::swap(&mut self.answers, &mut own.answers);
        self.put_label(own.number, writer)?;
        self.put_settled(own.batch.is_open, settled, own.batch.count, writer)
    }
}

/// How a batch of exactly `count` lines came out, if those that were committed together did so.
fn beside(committed: Result<(), Stop>, count: usize) -> Result<(), Stop>
    ensures { result ≡ placed_behind count committed }
{
    match committed {
        Ok(()) => Ok(()),
        Err(stop) => Err(Stop {
            place: count,
            ..stop
        }),
    }
}

//! A session of many planners: each says its lines in the one input, and has a batch of its own.
ghost use Rattle.std.specs.Prelude.{◌≡◌, None, false, IfErr, Ok, OnOk, true};
ghost use Rattle.vm_types.specs.State.{State};
ghost use Rattle.vm_store.specs.Store.{GrowsOn, has_failed};
ghost use Rattle.vm_cli.specs.session.Fairness.{AllWaitOnce, gatherings_of};
ghost use Rattle.vm_cli.specs.session.Planners.{ServesPlanners, telling};
ghost use Rattle.vm_cli.specs.session.Rounds.{AreWholeBatches};
ghost use Rattle.vm_cli.specs.session.StreamKeeps.{rounds_of};
ghost use Rattle.vm_cli.specs.session.Known.{streams_of};
ghost use Rattle.vm_cli.specs.session.Session.{Passes, StoreFails};

use crate::answers::reply::Reply;
use crate::lines::line::{Line, LineKind};
use crate::lines::mistake::Mistake;
use crate::session::batch::Batch;
use crate::session::batches::BatchSession;
use crate::session::line_reader::{Ending, LineReader};
use crate::session::planner_line::{PlannerLine, When, planner_line};
use crate::session::waiting::WaitingBatch;
use crate::session::{Manner, OnCommand, OnRefusal, ServeFault};
use std::alloc::Global;
use std::io::{Read, Write};
use std::mem;
use vm_disk::Disk;
use vm_store::Store;
use vm_types::Refusal;

/// Reads the lines of many planners to the end of the input, each line with the number of its
/// planner. Each planner has a session with batches of its own, as `serve_batches` has one: its
/// lines are answered in order, behind a line with its number. Batches may wait, and are then
/// carried out and committed together. A line that is refused ends nothing. An `Ok` says whether
/// any was.
pub fn serve_planners<R: Read, W: Write, D: Disk>(
    alloc: Global,
    reader: &mut R,
    writer: &mut W,
    store: &mut Store<D>,
    manner: Manner,
) -> Result<bool, ServeFault>
    // On any disk, the session ends with Store only if a device call failed in it, or the store had
    // already failed. A store that had already failed is left as it was.
    ensures goes { GrowsOn ⊥ store.old store.new }
    ensures ok { has_failed store.old ≡ false → OnOk result (has_failed store.new ≡ false) }
    ensures err { has_failed store.old ≡ false → IfErr result (StoreFails store.old store.new) }
    ensures left { has_failed store.old ≡ true → store.new ≡ store.old }

    // The lines of the input are taken one after another. What a planner says is taken as a line of
    // its own session with batches, whatever others say between its lines. So a batch is carried out
    // whole at its commit, by the state that the batches before it leave, of whichever planners; and
    // a query is answered by that state, all of which is committed. A batch that waits is carried out
    // with all others that do, and no line of its planner is taken before.
    ensures answers { (s : State) → ServesPlanners store.old store.new s (telling manner) result
        (streams_of (R.remaining reader.old) (W.contents writer.old) (W.contents writer.new)) }

    // Nothing of a batch commits by itself. So if all was committed before the session, the state
    // after it is that after the batches that were committed, in order, each as a whole.
    ensures whole { (s : State) (serves : ServesPlanners store.old store.new s (telling manner) result
        (streams_of (R.remaining reader.old) (W.contents writer.old) (W.contents writer.new)))
        → AreWholeBatches s (rounds_of serves) }

    // At most one batch of each planner waits at any time, and all that waits is carried out
    // together: so nobody waits for more than one batch of each other one.
    ensures fair { (s : State) (serves : ServesPlanners store.old store.new s (telling manner) result
        (streams_of (R.remaining reader.old) (W.contents writer.old) (W.contents writer.new)))
        → AllWaitOnce (gatherings_of serves) }

    // If commands are refused, the disk is only read: it is never written or synced, and the store
    // is left as it was.
    ensures reads { manner.on_command ≡ OnCommand.Refuse → Passes store.old store.new None }
{
    let manner = Manner {
        on_command: manner.on_command,
        on_refusal: OnRefusal::Tell,
        grouping: manner.grouping,
    };
    let mut session = PlannersSession {
        planners: Vec::new(alloc),
        waiting: Vec::new(alloc),
        session: BatchSession::new(alloc, manner),
    };
    session.run(reader, writer, store)
}

/// A planner who has joined, and what it holds of a batch.
#[derive(Drop)]
pub(crate) struct Planner {
    pub number: u32,
    pub batch: Batch,
}

/// A session of planners, beside its store and where its answers go.
#[derive(Drop)]
pub(crate) struct PlannersSession {
    planners: Vec<Planner>,
    // The batches that wait, in the order in which they ended.
    waiting: Vec<WaitingBatch>,
    // The session in which a line is taken, with the batch of its planner. Between lines it holds
    // none.
    session: BatchSession,
}

impl PlannersSession {
    ghost use Rattle.std.specs.Prelude.{◌≡◌, ◌-◌, ◌<◌, ℕ, List, [], vec_len};
    ghost use Rattle.vm_cli.specs.lines.Input.{HoldsLine};
    ghost use Rattle.vm_cli.specs.lines.Lines.{IsPart};
    ghost use Rattle.vm_cli.specs.session.PlannerCalls.{AnswersSeats, AreWaiting, AreWithin, Exchanges, IsGathering, IsPlaceOf, SettlesQueue, StaysAtRest, TakesInHall, hall};
    ghost use Rattle.vm_cli.specs.session.PlannerLines.{SaysPart, saying, saying_of};
    ghost use Rattle.vm_cli.specs.session.PlannerLines.Saying.{says};
    ghost use Rattle.vm_cli.specs.session.Planners.{AreSeats, Gathering, IsTold, Joins, Leaves, Seat, TakesAlone, TakesOne, TakesSaying, planners, seats_end_count, seats_end_text, settles_first as settles_first_of, stream_end_count, stream_end_text};
    ghost use Rattle.vm_cli.specs.answers.Replies.{reply_text};
    ghost use Rattle.vm_cli.specs.session.StreamCalls.{SaysThen, scene};
    ghost use Rattle.vm_cli.specs.session.Waiting.{Waiting, waits as waits_of};
    ghost use Rattle.vm_cli.specs.session.SessionKinds.{RunsStream, counted_result};
    ghost use Rattle.vm_cli.specs.session.Known.{streams_of, written_to};
    ghost use Rattle.vm_cli.specs.session.Streams.{IsStage};

    /// Takes all lines of the input.
    fn run<R: Read, W: Write, D: Disk>(
        &mut self,
        reader: &mut R,
        writer: &mut W,
        store: &mut Store<D>,
    ) -> Result<bool, ServeFault>
        requires nobody { self.old.planners.items ≡ [] }
        requires nothing { self.old.waiting.items ≡ [] }
        requires closed { IsStage self.old.session.batch None }
        requires telling { self.old.session.manner.on_refusal ≡ OnRefusal.Tell }
        ensures { RunsStream planners self.old.session.manner result store.old store.new
            (streams_of (R.remaining reader.old) (W.contents writer.old) (W.contents writer.new)) }
    {
        let mut line = Line::new(self.session.alloc);
        let mut input = LineReader::new();
        let mut refused = false;
        for _ in 0..usize::MAX - 1 {
            let ending = input.read_line(reader, &mut line)?;
            match ending {
                Ending::Line => {
                    refused |= self.take(&line, writer, store)?;
                    line.clear();
                }
                Ending::HalfLine => {
                    let last = self.end(1, writer)?;
                    return Ok(refused | last);
                }
                Ending::Input => {
                    let last = self.end(0, writer)?;
                    return Ok(refused | last);
                }
            }
        }
        Err(ServeFault::Read)
    }

    /// Takes a line of the stream. An `Ok` says whether it, or a line of the batch that it ends, was
    /// refused.
    fn take<W: Write, D: Disk>(
        &mut self,
        line: &Line,
        writer: &mut W,
        store: &mut Store<D>,
    ) -> Result<bool, ServeFault>
        requires held { (part : List ℕ) × HoldsLine line.now part }
        requires room { AreWithin (usize.MAX - 1) self.old.planners.items }
        requires telling { self.old.session.manner.on_refusal ≡ OnRefusal.Tell }
        ensures { (part : List ℕ) → HoldsLine line.now part → TakesInHall W.contents
            (λ s at text course at' rounds. TakesOne store.old store.new s self.old.session.manner at part text course at' rounds) result
            (hall self.old store.old writer.old) (hall self.new store.new writer.new) }
    {
        match line.kind {
            LineKind::Long => self.tell(0, Reply::LongLine, writer),
            LineKind::NoMemory => self.tell(0, Reply::Refused(Refusal::Memory), writer),
            LineKind::Kept => self.take_saying(line.text(), writer, store),
        }
    }

    /// Takes a line of these bytes.
    fn take_saying<W: Write, D: Disk>(
        &mut self,
        line: &[u8],
        writer: &mut W,
        store: &mut Store<D>,
    ) -> Result<bool, ServeFault>
        requires part { IsPart line.now }
        requires room { AreWithin (usize.MAX - 1) self.old.planners.items }
        requires telling { self.old.session.manner.on_refusal ≡ OnRefusal.Tell }
        ensures { TakesInHall W.contents
            (λ s at text course at' rounds. TakesSaying store.old store.new s self.old.session.manner (saying_of line.now) text course at at' rounds) result
            (hall self.old store.old writer.old) (hall self.new store.new writer.new) }
    {
        let said = planner_line(line);
        if !self.settles_first(said) {
            return self.take_alone(said, writer, store);
        }
        let refused = self.settle(writer, store)?;
        let last = self.take_alone(said, writer, store)?;
        Ok(refused | last)
    }

    /// Whether all that waits is carried out before this line is taken.
    fn settles_first(&self, said: PlannerLine) -> bool
        ensures { (at : Gathering) → IsGathering self.now at → result ≡ settles_first_of (saying said.entry) at.waiting }
    {
        match said {
            PlannerLine::Nothing => false,
            PlannerLine::Strange => false,
            PlannerLine::Join(number) => self.waits(number),
            PlannerLine::Leave(number) => self.waits(number),
            PlannerLine::Says(_, number, _) => self.waits(number),
            PlannerLine::Go => true,
        }
    }

    /// Whether a batch of the planner of this number waits.
    fn waits(&self, number: u32) -> bool
        ensures { (waiting : List Waiting) → AreWaiting self.now.waiting.items waiting → result ≡ waits_of number waiting }
    {
        for place in 0..self.waiting.len() {
            if self.waiting[place].number == number {
                return true;
            }
        }
        false
    }

    /// Carries out all that waits, and answers it.
    fn settle<W: Write, D: Disk>(
        &mut self,
        writer: &mut W,
        store: &mut Store<D>,
    ) -> Result<bool, ServeFault>
        requires telling { self.old.session.manner.on_refusal ≡ OnRefusal.Tell }
        ensures settled { SettlesQueue W.contents self.old.waiting.items result
            (scene self.old.session store.old writer.old) (scene self.new.session store.new writer.new) }
        ensures planners { self.new.planners.items ≡ self.old.planners.items }
        ensures none { self.new.waiting.items ≡ [] }
    {
        let settled = self
            .session
            .settle_waiting(&mut self.waiting, writer, store);
        self.waiting.clear();
        settled
    }

    /// Takes a line for what it is.
    fn take_alone<W: Write, D: Disk>(
        &mut self,
        said: PlannerLine,
        writer: &mut W,
        store: &mut Store<D>,
    ) -> Result<bool, ServeFault>
        requires part { SaysPart (saying said) }
        requires room { AreWithin (usize.MAX - 1) self.old.planners.items }
        ensures { TakesInHall W.contents
            (λ s at text course at' rounds. TakesAlone store.old store.new s self.old.session.manner (saying said.entry) text course at at' rounds) result
            (hall self.old store.old writer.old) (hall self.new store.new writer.new) }
    {
        match said {
            PlannerLine::Nothing => Ok(false),
            PlannerLine::Strange => self.tell(0, Reply::BadLine(Mistake::NoSuchLine), writer),
            PlannerLine::Join(number) => self.join(number, writer),
            PlannerLine::Leave(number) => self.leave(number, writer),
            PlannerLine::Says(when, number, line) => self.say(when, number, line, writer, store),
            PlannerLine::Go => self.session.tell(0, Reply::Done, 0, writer),
        }
    }

    /// A planner joins.
    fn join<W: Write>(&mut self, number: u32, writer: &mut W) -> Result<bool, ServeFault>
        ensures { AnswersSeats (Joins number) result self.old self.new (written_to W.contents writer.old writer.new) }
    {
        if self.place_of(number).is_some() {
            return self.tell(number, Reply::PlannerExists, writer);
        }
        let planner = Planner {
            number,
            batch: Batch::new(self.session.alloc),
        };
        let Ok(()) = self.planners.push(planner) else {
            return self.tell(number, Reply::Refused(Refusal::Memory), writer);
        };
        self.session.tell(number, Reply::Done, 0, writer)
    }

    /// A planner leaves. What it holds is forgotten.
    fn leave<W: Write>(&mut self, number: u32, writer: &mut W) -> Result<bool, ServeFault>
        ensures { AnswersSeats (Leaves number) result self.old self.new (written_to W.contents writer.old writer.new) }
    {
        let Some(place) = self.place_of(number) else {
            return self.tell(number, Reply::NoSuchPlanner, writer);
        };
        let planner = self.planners.remove(place);
        self.session.put_parting(&planner, writer)?;
        self.session.go_on(planner.batch.count)
    }

    /// A planner says a line.
    fn say<W: Write, D: Disk>(
        &mut self,
        when: When,
        number: u32,
        said: &[u8],
        writer: &mut W,
        store: &mut Store<D>,
    ) -> Result<bool, ServeFault>
        requires part { IsPart said.now }
        requires room { AreWithin (usize.MAX - 1) self.old.planners.items }
        ensures { TakesInHall W.contents
            (λ s at text course at' rounds. TakesAlone store.old store.new s self.old.session.manner (says when number said.now) text course at at' rounds) result
            (hall self.old store.old writer.old) (hall self.new store.new writer.new) }
    {
        let Some(place) = self.place_of(number) else {
            return self.tell(number, Reply::NoSuchPlanner, writer);
        };
        let mut line = Line::new(self.session.alloc);
        line.extend(said);
        self.exchange(place);
        let taken = self
            .session
            .take_of(when, number, &mut line, &mut self.waiting, writer, store);
        self.exchange(place);
        taken
    }

    /// Exchanges the batch of the session for that of the planner at this place.
    fn exchange(&mut self, place: usize)
        requires { place < vec_len self.old.planners }
        ensures { Exchanges place self.old self.new }
    {
        mem::swap(&mut self.session.batch, &mut self.planners[place].batch);
    }

    /// The input has ended, in the middle of that many lines. What waits is forgotten, and all
    /// planners leave.
    fn end<W: Write>(&mut self, half: usize, writer: &mut W) -> Result<bool, ServeFault>
        requires telling { self.old.session.manner.on_refusal ≡ OnRefusal.Tell }
        ensures said { (at : Gathering) → IsGathering self.old at
            → SaysThen W.contents (stream_end_text at half)
            (counted_result self.old.session.manner.on_refusal (stream_end_count at half)) result writer.old writer.new }
    {
        for place in 0..self.waiting.len() {
            self.session.put_forgotten(&self.waiting[place], writer)?;
        }
        let forgotten = !self.waiting.is_empty();
        let last = self.end_seats(half, writer)?;
        Ok(forgotten | last)
    }

    /// All planners leave, as the input has ended, in the middle of that many lines.
    fn end_seats<W: Write>(&mut self, half: usize, writer: &mut W) -> Result<bool, ServeFault>
        ensures said { (seats : List Seat) → AreSeats self.old.planners.items seats
            → SaysThen W.contents (seats_end_text seats half)
            (counted_result self.old.session.manner.on_refusal (seats_end_count seats half)) result writer.old writer.new }
        ensures stays { StaysAtRest self.old self.new }
    {
        let mut refused = half;
        for place in 0..self.planners.len() {
            let planner = &self.planners[place];
            if planner.batch.count > 0 {
                refused = 1;
            }
            self.session.put_parting(planner, writer)?;
        }
        if half > 0 {
            return self.session.tell(0, Reply::HalfLine, refused, writer);
        }
        self.session.go_on(refused)
    }

    /// Tells somebody a refusal.
    fn tell<W: Write>(
        &mut self,
        number: u32,
        reply: Reply,
        writer: &mut W,
    ) -> Result<bool, ServeFault>
        ensures { AnswersSeats (IsTold number (reply_text reply)) result self.old self.new (written_to W.contents writer.old writer.new) }
    {
        self.session.tell(number, reply, 1, writer)
    }

    /// Where the planner of this number stands among those who have joined.
    fn place_of(&self, number: u32) -> Option<usize>
        ensures { IsPlaceOf number self.now.planners.items result }
    {
        for place in 0..self.planners.len() {
            if self.planners[place].number == number {
                return Some(place);
            }
        }
        None
    }
}

//! A session with batches: lines in, answers out, each batch as a whole.
ghost use Rattle.std.specs.Prelude.{◌≡◌, ◌+◌, ◌<◌, ◌++◌, ℕ, List, Option, None, drop, false, IfErr, Ok, OnOk, true};
ghost use Rattle.vm_types.specs.State.{State};
ghost use Rattle.vm_store.specs.Store.{GrowsOn, has_failed};
ghost use Rattle.vm_cli.specs.session.SessionKinds.{said_result};
ghost use Rattle.vm_cli.specs.session.Known.{streams_of, written_to};
ghost use Rattle.vm_cli.specs.session.Feeds.{FeedsOn};
ghost use Rattle.vm_cli.specs.answers.Replies.{reply_text};
ghost use Rattle.vm_cli.specs.session.Rounds.{AreWholeBatches, Round};
ghost use Rattle.vm_cli.specs.session.StreamCalls.{AnswersAlone};
ghost use Rattle.vm_cli.specs.session.StreamKeeps.{rounds_of};
ghost use Rattle.vm_cli.specs.session.Streams.{Held, HoldsLines, IsHeld, ServesBatches, SettlesHeld, result_of, verdict_of};
ghost use Rattle.vm_cli.specs.session.Streams.Held.{holds};
ghost use Rattle.vm_cli.specs.session.Session.{Passes, StoreFails};

use crate::answers::output::{WriteFault, put_all};
use crate::answers::repeated::put_repeated;
use crate::answers::reply::Reply;
use crate::answers::text::Text;
use crate::lines::line::{Line, LineKind};
use crate::session::batch::Batch;
use crate::session::carrying::{Stop, Then, Why, settle};
use crate::session::line_reader::{Ending, LineReader};
use crate::session::line_use::{LineUse, use_of};
use crate::session::{Manner, OnCommand, OnRefusal, ServeFault, Session};
use std::alloc::Global;
use std::io::{Read, Write};
use vm_disk::Disk;
use vm_store::Store;

/// Reads lines to the end of the input, and answers each in order. Each change, and each batch from
/// `begin` to `commit`, takes effect as a whole or not at all, and is committed before it is
/// answered. An `Ok` says whether any line was refused. A fault ends the session: no later line is
/// carried out.
pub fn serve_batches<R: Read, W: Write, D: Disk>(
    alloc: Global,
    reader: &mut R,
    writer: &mut W,
    store: &mut Store<D>,
    manner: Manner,
) -> Result<bool, ServeFault>
    // On any disk, the session ends with Store only if a device call failed in it, or the store had
    // already failed. A store that had already failed is left as it was.
    ensures goes { GrowsOn ⊥ store.old store.new }
    ensures ok { has_failed store.old ≡ false → OnOk result (has_failed store.new ≡ false) }
    ensures err { has_failed store.old ≡ false → IfErr result (StoreFails store.old store.new) }
    ensures left { has_failed store.old ≡ true → store.new ≡ store.old }

    // The lines of the input are taken one after another. A change outside of a batch is a batch of
    // its own. A batch is carried out at its commit, line by line, as `serve` carries lines out, and
    // then committed; if a line of it is refused, all of it is undone instead. A query is answered
    // by the state that the batches before it leave, all of which are committed. A batch in which
    // the input ends is forgotten.
    ensures answers { (s : State) → ServesBatches store.old store.new s manner result
        (streams_of (R.remaining reader.old) (W.contents writer.old) (W.contents writer.new)) }

    // However the session is told, nothing of a batch commits by itself. So if all was committed
    // before the session, the state after it is that after the batches that were committed, in
    // order, each as a whole.
    ensures whole { (s : State) (serves : ServesBatches store.old store.new s manner result
        (streams_of (R.remaining reader.old) (W.contents writer.old) (W.contents writer.new)))
        → AreWholeBatches s (rounds_of serves) }

    // If commands are refused, the disk is only read: it is never written or synced, and the store
    // is left as it was.
    ensures reads { manner.on_command ≡ OnCommand.Refuse → Passes store.old store.new None }
{
    let mut session = BatchSession::new(alloc, manner);
    session.run(reader, writer, store)
}

/// A session with batches, beside its store and where its answers go.
#[derive(Drop)]
pub(crate) struct BatchSession {
    pub alloc: Global,
    pub manner: Manner,
    // What is held of a batch.
    pub batch: Batch,
    // The answers to the lines of a batch, while it is carried out.
    pub answers: Vec<u8>,
    // Answers are composed in it. Nothing is kept in it from line to line.
    pub text: Text,
    // Values of words are read into this buffer. Nothing is kept in it from line to line.
    pub room: [u8; 4096],
}

impl BatchSession {
    ghost use Rattle.std.specs.Prelude.{◌≡◌, ◌+◌, ◌<◌, ◌++◌, ℕ, List, Option, None, IfErr};
    ghost use Rattle.vm_cli.specs.session.SessionKinds.{Puts, RunsStream, counted_result};
    ghost use Rattle.vm_cli.specs.session.Known.{streams_of};
    ghost use Rattle.vm_cli.specs.answers.Replies.{reply_text};
    ghost use Rattle.vm_cli.specs.session.StreamCalls.{KeepsSession, SaysThen, SettlesBatch, TakesLine, TakesLineInside, TakesLineOutside, scene};
    ghost use Rattle.vm_cli.specs.session.Streams.{Held, IsStage, batches, end_count, end_text, forgotten_text, ok_text, repeated, settled_text, verdict_of, verdict_result, why_text};

    /// A session in which nothing is held.
    pub(crate) fn new(alloc: Global, manner: Manner) -> BatchSession
        ensures closed { IsStage result.batch None }
        ensures none { result.batch.count ≡ 0 }
        ensures manner { result.manner ≡ manner }
    {
        BatchSession {
            alloc,
            manner,
            batch: Batch::new(alloc),
            answers: Vec::new(alloc),
            text: Text::new(),
            room: [0; 4096],
        }
    }

    /// Takes all lines of the input.
    fn run<R: Read, W: Write, D: Disk>(
        &mut self,
        reader: &mut R,
        writer: &mut W,
        store: &mut Store<D>,
    ) -> Result<bool, ServeFault>
        requires closed { IsStage self.old.batch None }
        requires none { self.old.batch.count ≡ 0 }
        ensures { RunsStream batches self.old.manner result store.old store.new
            (streams_of (R.remaining reader.old) (W.contents writer.old) (W.contents writer.new)) }
    {
        let mut line = Line::new(self.alloc);
        let mut input = LineReader::new();
        let mut refused = false;
        for _ in 0..usize::MAX - 1 {
            let ending = input.read_line(reader, &mut line)?;
            match ending {
                Ending::Line => {
                    refused |= self.take(&mut line, writer, store)?;
                    line.clear();
                }
                Ending::HalfLine => {
                    let last = self.end(1, writer)?;
                    return Ok(refused | last);
                }
                Ending::Input => {
                    let last = self.end(0, writer)?;
                    return Ok(refused | last);
                }
            }
        }
        Err(ServeFault::Read)
    }

    /// Takes a line. An `Ok` says whether it, or a line of the batch that it ends, was refused.
    fn take<W: Write, D: Disk>(
        &mut self,
        line: &mut Line,
        writer: &mut W,
        store: &mut Store<D>,
    ) -> Result<bool, ServeFault>
        requires { self.old.batch.count < usize.MAX }
        ensures { TakesLine W.contents line.old result
            (scene self.old store.old writer.old) (scene self.new store.new writer.new) }
    {
        let used = use_of(self.alloc, line, self.manner.on_command, &mut self.room);
        if self.batch.is_open {
            self.take_inside(used, line, writer, store)
        } else {
            self.take_outside(used, line, writer, store)
        }
    }

    /// Takes a line outside of a batch.
    pub(crate) fn take_outside<W: Write, D: Disk>(
        &mut self,
        used: LineUse,
        line: &mut Line,
        writer: &mut W,
        store: &mut Store<D>,
    ) -> Result<bool, ServeFault>
        requires room { self.old.batch.count < usize.MAX }
        requires kept { used ≡ LineUse.Change → line.old.kind ≡ LineKind.Kept }
        ensures { TakesLineOutside W.contents used line.old result
            (scene self.old store.old writer.old) (scene self.new store.new writer.new) }
    {
        match used {
            LineUse::Nothing => Ok(false),
            LineUse::Begin => {
                self.batch.begin();
                self.say(Reply::Done, 0, writer)
            }
            LineUse::Commit => self.say(Reply::Done, 0, writer),
            LineUse::Abort => self.say(Reply::Done, 0, writer),
            LineUse::Query => answer_alone(self.alloc, self.manner, line, writer, store),
            LineUse::Refused(reply) => self.say(reply, 1, writer),
            LineUse::Change => {
                self.batch.hold(self.alloc, line);
                self.settle(false, writer, store)
            }
        }
    }

    /// Takes a line within a batch.
    pub(crate) fn take_inside<W: Write, D: Disk>(
        &mut self,
        used: LineUse,
        line: &mut Line,
        writer: &mut W,
        store: &mut Store<D>,
    ) -> Result<bool, ServeFault>
        requires room { self.old.batch.count < usize.MAX }
        requires kept { used ≡ LineUse.Change → line.old.kind ≡ LineKind.Kept }
        ensures { TakesLineInside W.contents used line.old result
            (scene self.old store.old writer.old) (scene self.new store.new writer.new) }
    {
        match used {
            LineUse::Nothing => Ok(false),
            LineUse::Commit => self.settle(true, writer, store),
            LineUse::Abort => self.forget(writer),
            LineUse::Begin => {
                self.batch.lose(Reply::NotInBatch);
                Ok(false)
            }
            LineUse::Query => {
                self.batch.lose(Reply::NotInBatch);
                Ok(false)
            }
            LineUse::Refused(reply) => {
                self.batch.lose(reply);
                Ok(false)
            }
            LineUse::Change => {
                self.batch.hold(self.alloc, line);
                Ok(false)
            }
        }
    }

    /// Carries out the batch, and answers its lines. One that a line began has an answer more.
    pub(crate) fn settle<W: Write, D: Disk>(
        &mut self,
        is_begun: bool,
        writer: &mut W,
        store: &mut Store<D>,
    ) -> Result<bool, ServeFault>
        ensures { SettlesBatch W.contents is_begun result
            (scene self.old store.old writer.old) (scene self.new store.new writer.new) }
    {
        let settled = settle_batch(
            self.alloc,
            self.manner,
            &self.batch,
            &mut self.answers,
            store,
        );
        let count = self.batch.count;
        self.batch.clear();
        self.put_settled(is_begun, settled, count, writer)?;
        self.go_on_after(settled)
    }

    /// Writes the answers to a batch of exactly `count` lines, and to its commit if a line began it.
    pub(crate) fn put_settled<W: Write>(
        &mut self,
        is_begun: bool,
        settled: Result<(), Stop>,
        count: usize,
        writer: &mut W,
    ) -> Result<(), ServeFault>
        requires { IfErr settled (λ stop. stop.place < usize.MAX) }
        ensures put { Puts (settled_text is_begun count (verdict_of settled self.old.answers.items)) result
            (written_to W.contents writer.old writer.new) }
        ensures same { KeepsSession self.old self.new }
    {
        match settled {
            Ok(()) => {
                self.put_why(Why::Answer(0), writer)?;
                self.put_repeated(Reply::Done, usize::from(is_begun), writer)
            }
            Err(stop) => {
                if is_begun {
                    self.put_refused(&stop, stop.place, count.saturating_sub(stop.place), writer)
                } else {
                    self.put_refused(&stop, 0, 0, writer)
                }
            }
        }
    }

    /// Writes the answers to the lines of a batch of which one was refused, with that many before
    /// and behind it.
    fn put_refused<W: Write>(
        &mut self,
        stop: &Stop,
        before: usize,
        behind: usize,
        writer: &mut W,
    ) -> Result<(), ServeFault>
        requires { stop.now.place < usize.MAX }
        ensures put { let other = reply_text (Reply.NotDone (stop.now.place + 1)) in
            Puts (repeated before other ++ (why_text stop.now.why self.old.answers.items ++ repeated behind other)) result
            (written_to W.contents writer.old writer.new) }
        ensures same { KeepsSession self.old self.new }
    {
        let other = Reply::NotDone(stop.place + 1);
        self.put_repeated(other, before, writer)?;
        self.put_why(stop.why, writer)?;
        self.put_repeated(other, behind, writer)
    }

    /// How the session goes on after a batch.
    fn go_on_after(&self, settled: Result<(), Stop>) -> Result<bool, ServeFault>
        ensures { (answers : List ℕ) → result ≡ verdict_result self.now.manner (verdict_of settled answers) }
    {
        match settled {
            Ok(()) => Ok(false),
            Err(stop) => match stop.then {
                Then::GoOn => self.go_on(1),
                Then::Failed => Err(ServeFault::Store),
                Then::Unsure => Err(ServeFault::Unsure),
            },
        }
    }

    /// Forgets the batch, and answers that to each of its lines.
    fn forget<W: Write>(&mut self, writer: &mut W) -> Result<bool, ServeFault>
        ensures said { SaysThen W.contents (forgotten_text self.old.batch.count ++ ok_text)
            (counted_result self.old.manner.on_refusal self.old.batch.count) result writer.old writer.new }
        ensures manner { self.new.manner ≡ self.old.manner }
        ensures closed { IsStage self.new.batch None }
        ensures none { self.new.batch.count ≡ 0 }
    {
        let count = self.batch.count;
        self.batch.clear();
        self.put_repeated(Reply::Aborted, count, writer)?;
        self.put_repeated(Reply::Done, 1, writer)?;
        self.go_on(count)
    }

    /// The input has ended, in the middle of that many lines. A batch that was begun is forgotten.
    fn end<W: Write>(&mut self, half: usize, writer: &mut W) -> Result<bool, ServeFault>
        requires { self.old.batch.count + half < usize.MAX }
        ensures said { (stage : Option Held) → IsStage self.old.batch stage
            → SaysThen W.contents (end_text stage half)
            (counted_result self.old.manner.on_refusal (end_count stage half)) result writer.old writer.new }
        ensures same { KeepsSession self.old self.new }
    {
        let reply = if self.batch.is_open {
            Reply::Aborted
        } else {
            Reply::HalfLine
        };
        let count = self.batch.count + half;
        self.put_repeated(reply, count, writer)?;
        self.go_on(count)
    }

    /// Writes the answer to the line that was refused.
    fn put_why<W: Write>(&mut self, why: Why, writer: &mut W) -> Result<(), ServeFault>
        ensures put { Puts (why_text why self.old.answers.items) result
            (written_to W.contents writer.old writer.new) }
        ensures same { KeepsSession self.old self.new }
    {
        match why {
            Why::Answer(at) => said(put_all(writer, behind(self.answers.as_slice(), at))),
            Why::Reply(reply) => self.put_repeated(reply, 1, writer),
        }
    }

    /// Writes a line of an answer this many times.
    pub(crate) fn put_repeated<W: Write>(
        &mut self,
        reply: Reply,
        count: usize,
        writer: &mut W,
    ) -> Result<(), ServeFault>
        ensures put { Puts (repeated count (reply_text reply)) result
            (written_to W.contents writer.old writer.new) }
        ensures same { KeepsSession self.old self.new }
    {
        said(put_repeated(reply, count, &mut self.text, writer))
    }

    /// Says the answer to a line that is refused if `count` is 1, or is not refused if it is 0.
    fn say<W: Write>(
        &mut self,
        reply: Reply,
        refused: usize,
        writer: &mut W,
    ) -> Result<bool, ServeFault>
        ensures said { SaysThen W.contents (repeated 1 (reply_text reply))
            (counted_result self.old.manner.on_refusal refused) result writer.old writer.new }
        ensures same { KeepsSession self.old self.new }
    {
        self.put_repeated(reply, 1, writer)?;
        self.go_on(refused)
    }

    /// So many lines were refused.
    pub(crate) fn go_on(&self, count: usize) -> Result<bool, ServeFault>
        ensures { result ≡ counted_result self.now.manner.on_refusal count }
    {
        if count == 0 {
            return Ok(false);
        }
        match self.manner.on_refusal {
            OnRefusal::Stop => Err(ServeFault::Refused),
            _ => Ok(true),
        }
    }
}

/// Answers a line by itself, in a session of its own.
fn answer_alone<W: Write, D: Disk>(
    alloc: Global,
    manner: Manner,
    line: &Line,
    writer: &mut W,
    store: &mut Store<D>,
) -> Result<bool, ServeFault>
    ensures { AnswersAlone manner line.now result store.old store.new (written_to W.contents writer.old writer.new) }
{
    let mut session = Session {
        alloc,
        manner,
        text: Text::new(),
        room: [0; 4096],
        writer,
        store,
    };
    session.answer(line)
}

/// Carries out a batch, unless a line of it is lost.
fn settle_batch<D: Disk>(
    alloc: Global,
    manner: Manner,
    batch: &Batch,
    answers: &mut Vec<u8>,
    store: &mut Store<D>,
) -> Result<(), Stop>
    ensures settled { (s : State) (held : Held) → IsHeld batch.now held
        → (round : Round) × SettlesHeld store.old store.new s manner held (verdict_of result answers.new.items) round }
    ensures store { FeedsOn (result_of (verdict_of result answers.new.items)) store.old store.new }
    ensures place { IfErr result (λ stop. stop.place < usize.MAX) }
{
    match batch.lost {
        Some(lost) => Err(Stop {
            place: lost.place,
            why: Why::Reply(lost.reply),
            then: Then::GoOn,
        }),
        None => settle_lines(alloc, manner, batch.lines.as_slice(), answers, store),
    }
}

/// Carries out the lines of a batch, if it has any.
fn settle_lines<D: Disk>(
    alloc: Global,
    manner: Manner,
    lines: &[Line],
    answers: &mut Vec<u8>,
    store: &mut Store<D>,
) -> Result<(), Stop>
    ensures settled { (s : State) (parts : List (List ℕ)) → HoldsLines lines.now parts
        → (round : Round) × SettlesHeld store.old store.new s manner (holds parts) (verdict_of result answers.new.items) round }
    ensures store { FeedsOn (result_of (verdict_of result answers.new.items)) store.old store.new }
    ensures place { IfErr result (λ stop. stop.place < usize.MAX) }
{
    if lines.is_empty() {
        answers.clear();
        return Ok(());
    }
    settle(alloc, manner, lines, answers, store)
}

/// The bytes from this place on.
fn behind(bytes: &[u8], at: usize) -> &[u8]
    ensures { result.now ≡ drop at bytes.now }
{
    if at > bytes.len() {
        return &[];
    }
    &bytes[at..]
}

/// Whether it was said.
pub(crate) fn said(written: Result<(), WriteFault>) -> Result<(), ServeFault>
    ensures { result ≡ said_result written }
{
    match written {
        Ok(()) => Ok(()),
        Err(WriteFault) => Err(ServeFault::Write),
    }
}

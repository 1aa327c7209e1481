//! Answers to many planners: each stands behind a line with the number of its planner.
ghost use Rattle.std.specs.Prelude.{◌≡◌};
ghost use Rattle.vm_cli.specs.session.Known.{written_to};
ghost use Rattle.vm_cli.specs.session.Planners.{is_heard as is_heard_in, is_last_in};

use crate::answers::output::put_all;
use crate::answers::reply::Reply;
use crate::lines::line::{Line, LineKind};
use crate::session::ServeFault;
use crate::session::batch::Batch;
use crate::session::batches::{BatchSession, said};
use crate::session::line_use::{LineUse, use_of};
use crate::session::planner_line::When;
use crate::session::planners::Planner;
use crate::session::waiting::WaitingBatch;
use std::io::Write;
use std::mem;
use vm_disk::Disk;
use vm_store::Store;

impl BatchSession {
    ghost use Rattle.std.specs.Prelude.{◌≡◌, ◌<◌, ◌++◌, ℕ, List, false, true};
    ghost use Rattle.vm_cli.specs.lines.Input.{HoldsLine};
    ghost use Rattle.vm_cli.specs.session.LineUses.{IsUse};
    ghost use Rattle.vm_cli.specs.session.PlannerCalls.{IsWaiting, PutsBehind, TakesLineOf};
    ghost use Rattle.vm_cli.specs.session.Planners.{Seat, is_last_in, label_if, parting_text};
    ghost use Rattle.vm_cli.specs.session.Waiting.{Waiting, label, owed};
    ghost use Rattle.vm_cli.specs.answers.Replies.{reply_text};
    ghost use Rattle.vm_cli.specs.session.StreamCalls.{KeepsSession, SaysThen, scene};
    ghost use Rattle.vm_cli.specs.session.SessionKinds.{Puts, counted_result};
    ghost use Rattle.vm_cli.specs.session.Streams.{IsStage, forgotten_text};

    /// Takes a line that a planner says, whose batch this session holds. A batch that ends with it
    /// is carried out at once, or put behind those that wait.
    pub(crate) fn take_of<W: Write, D: Disk>(
        &mut self,
        when: When,
        number: u32,
        line: &mut Line,
        waiting: &mut Vec<WaitingBatch>,
        writer: &mut W,
        store: &mut Store<D>,
    ) -> Result<bool, ServeFault>
        requires { self.old.batch.count < usize.MAX }
        ensures { TakesLineOf W.contents when number line.old result waiting.old.items waiting.new.items
            (scene self.old store.old writer.old) (scene self.new store.new writer.new) }
    {
        let used = use_of(self.alloc, line, self.manner.on_command, &mut self.room);
        if matches!(when, When::Later) && is_last_of(self.batch.is_open, &used) {
            return self.put_off(number, line, waiting, writer, store);
        }
        let heard = is_heard(self.batch.is_open, &used);
        self.put_label_if(heard, number, writer)?;
        if self.batch.is_open {
            self.take_inside(used, line, writer, store)
        } else {
            self.take_outside(used, line, writer, store)
        }
    }

    /// The batch that ends with this line waits. It is carried out at once if a line of it is lost,
    /// if it has none, or if memory ran out.
    fn put_off<W: Write, D: Disk>(
        &mut self,
        number: u32,
        line: &mut Line,
        waiting: &mut Vec<WaitingBatch>,
        writer: &mut W,
        store: &mut Store<D>,
    ) -> Result<bool, ServeFault>
        requires room { self.old.batch.count < usize.MAX }
        requires kept { self.old.batch.is_open ≡ false → line.old.kind ≡ LineKind.Kept }

        // The line is taken for the use that it was found to have, with which a batch ends here.
        ensures { (used : LineUse) → is_last_in self.old.batch.is_open used ≡ true
            → ((part : List ℕ) → HoldsLine line.old part → IsUse self.old.manner.on_command part used)
            → TakesLineOf W.contents When.Later number line.old result waiting.old.items waiting.new.items
            (scene self.old store.old writer.old) (scene self.new store.new writer.new) }
    {
        let is_begun = self.batch.is_open;
        if !is_begun {
            self.batch.hold(self.alloc, line);
        }
        if self.wait(number, waiting) {
            return Ok(false);
        }
        if let Err(fault) = self.put_label(number, writer) {
            if !is_begun {
                self.batch.clear();
            }
            return Err(fault);
        }
        self.settle(is_begun, writer, store)
    }

    /// Puts the batch behind those that wait, if it has lines and none is lost. Says whether it did.
    fn wait(&mut self, number: u32, waiting: &mut Vec<WaitingBatch>) -> bool
        ensures put { result ≡ true → PutsBehind number waiting.old.items waiting.new.items self.old self.new }
        ensures queue { result ≡ false → waiting.new.items ≡ waiting.old.items }
        ensures same { result ≡ false → self.new ≡ self.old }
    {
        if self.batch.lost.is_some() || self.batch.lines.is_empty() {
            return false;
        }
        if waiting.reserve(1).is_err() {
            return false;
        }
        let batch = mem::replace(&mut self.batch, Batch::new(self.alloc));
        waiting.push_reserved(WaitingBatch {
            number,
            batch,
            answers: Vec::new(self.alloc),
        });
        true
    }

    /// Tells a planner a refusal if `refused` is 1, or an answer that is none if it is 0.
    pub(crate) fn tell<W: Write>(
        &mut self,
        number: u32,
        reply: Reply,
        refused: usize,
        writer: &mut W,
    ) -> Result<bool, ServeFault>
        ensures said { SaysThen W.contents (label number ++ reply_text reply)
            (counted_result self.old.manner.on_refusal refused) result writer.old writer.new }
        ensures same { KeepsSession self.old self.new }
    {
        self.put_told(number, reply, writer)?;
        self.go_on(refused)
    }

    /// Writes what a planner is told.
    pub(crate) fn put_told<W: Write>(
        &mut self,
        number: u32,
        reply: Reply,
        writer: &mut W,
    ) -> Result<(), ServeFault>
        ensures put { Puts (label number ++ reply_text reply) result
            (written_to W.contents writer.old writer.new) }
        ensures same { KeepsSession self.old self.new }
    {
        self.put_label(number, writer)?;
        self.put_repeated(reply, 1, writer)
    }

    /// Writes what a planner is answered who leaves: that its batch is forgotten.
    pub(crate) fn put_parting<W: Write>(
        &mut self,
        planner: &Planner,
        writer: &mut W,
    ) -> Result<(), ServeFault>
        ensures put { (it : Seat) → planner.now.number ≡ it.number → IsStage planner.now.batch it.stage
            → Puts (parting_text it) result (written_to W.contents writer.old writer.new) }
        ensures same { KeepsSession self.old self.new }
    {
        if !planner.batch.is_open {
            return Ok(());
        }
        self.put_label(planner.number, writer)?;
        self.put_repeated(Reply::Aborted, planner.batch.count, writer)
    }

    /// Writes what a planner is answered whose batch waits: that it is forgotten.
    pub(crate) fn put_forgotten<W: Write>(
        &mut self,
        waiting: &WaitingBatch,
        writer: &mut W,
    ) -> Result<(), ServeFault>
        ensures put { (it : Waiting) → IsWaiting waiting.now it
            → Puts (label it.number ++ forgotten_text (owed it)) result (written_to W.contents writer.old writer.new) }
        ensures same { KeepsSession self.old self.new }
    {
        self.put_label(waiting.number, writer)?;
        self.put_repeated(Reply::Aborted, waiting.batch.count, writer)?;
        self.put_repeated(Reply::Aborted, usize::from(waiting.batch.is_open), writer)
    }

    /// Writes the line with a planner's number, if something stands behind it.
    fn put_label_if<W: Write>(
        &mut self,
        heard: bool,
        number: u32,
        writer: &mut W,
    ) -> Result<(), ServeFault>
        ensures put { Puts (label_if heard number) result (written_to W.contents writer.old writer.new) }
        ensures same { KeepsSession self.old self.new }
    {
        if !heard {
            return Ok(());
        }
        self.put_label(number, writer)
    }

    /// Writes the line with a planner's number.
    pub(crate) fn put_label<W: Write>(
        &mut self,
        number: u32,
        writer: &mut W,
    ) -> Result<(), ServeFault>
        ensures put { Puts (label number) result (written_to W.contents writer.old writer.new) }
        ensures same { KeepsSession self.old self.new }
    {
        self.text.clear();
        self.text.push(b'@');
        self.text.push_number(u64::from(number));
        self.text.push(b'\n');
        said(put_all(writer, self.text.as_bytes()))
    }
}

/// Whether a batch ends with a line of this use.
fn is_last_of(in_batch: bool, used: &LineUse) -> bool
    ensures { result ≡ is_last_in in_batch used.now }
{
    match used {
        LineUse::Commit => in_batch,
        LineUse::Change => !in_batch,
        _ => false,
    }
}

/// Whether a line of this use is answered at once, in a batch or outside of one.
fn is_heard(in_batch: bool, used: &LineUse) -> bool
    ensures { result ≡ is_heard_in in_batch used.now }
{
    match used {
        LineUse::Nothing => false,
        LineUse::Commit => true,
        LineUse::Abort => true,
        _ => !in_batch,
    }
}

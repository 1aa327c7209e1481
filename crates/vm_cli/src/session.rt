//! A session: lines in, answers out.

pub mod addressing;
pub mod batch;
pub mod batches;
pub mod carrying;
pub mod commands;
pub mod growth;
pub mod line_reader;
pub mod line_use;
pub mod planner_line;
pub mod planners;
pub mod queries;
pub mod waiting;

ghost use Rattle.std.specs.Prelude.{◌≡◌, ◌+◌, ◌≤◌, ◌++◌, ◌∷◌, [], length, true, false, None, IfErr, OnErr, OnOk};
ghost use Rattle.std.specs.Io.KnownBytes.{IsAtEnd};
ghost use Rattle.vm_cli.specs.answers.Carried.{Begins, Gains};
ghost use Rattle.vm_cli.specs.session.Feeds.{ServesEach};
ghost use Rattle.vm_cli.specs.session.Known.{streams_of};
ghost use Rattle.vm_cli.specs.lines.Lines.{IsPart};
ghost use Rattle.vm_cli.specs.answers.Replies.{reply_text};
ghost use Rattle.vm_cli.specs.lines.Requests.{asked_in, request_of};
ghost use Rattle.vm_cli.specs.lines.Spaces.{words_of};
ghost use Rattle.vm_cli.specs.session.Session.{Passes, StoreFails};
ghost use Rattle.vm_store.specs.Store.{has_failed, GrowsOn};

use crate::answers::output::{WriteFault, flush, put_all};
use crate::answers::reply::Reply;
use crate::answers::text::Text;
use crate::lines::line::{Line, LineKind};
use crate::lines::request::{Request, parse_request};
use commands::{reply_to_command, reply_to_merge_all};
use memchr::memchr;
use queries::{blocks, free, get, reply_to_list, tally};
use std::alloc::Global;
use std::io::{Read, Write};
use thiserror::Error;
use vm_disk::Disk;
use vm_store::Store;
use vm_types::Refusal;

/// What a refused line means. Its answer is an error.
#[derive(Clone, Copy, Debug, PartialEq, Eq)]
pub enum OnRefusal {
    /// The session goes on, and the program's status does not depend on it.
    Ignore,
    /// The session goes on, and the program's status tells it.
    Tell,
    /// The session ends with it.
    Stop,
}

/// What a line that is a command means.
#[derive(Clone, Copy, Debug, PartialEq, Eq)]
pub enum OnCommand {
    /// It is carried out.
    CarryOut,
    /// It is carried out. If it would be answered `Full`, the store grows first, to at most this
    /// many blocks.
    GrowIfFull(u32),
    /// It is answered `error 24 ReadOnly`, and the store is only read.
    Refuse,
}

/// What takes effect together.
#[derive(Clone, Copy, Debug, PartialEq, Eq)]
pub enum Grouping {
    /// Each line by itself. A line `commit` commits what was done so far.
    Lines,
    /// Each batch from `begin` to `commit`, and each change outside of one: as a whole or not at
    /// all. It is committed before it is answered.
    Batches,
    /// Batches of many planners, each of whom says its lines in the one input.
    Planners,
}

/// How a session is run.
#[derive(Clone, Copy, Debug, PartialEq, Eq)]
pub struct Manner {
    pub on_command: OnCommand,
    pub on_refusal: OnRefusal,
    pub grouping: Grouping,
}

/// Why a session ended before the end of its input.
#[derive(Debug, Drop, Error)]
pub enum ServeFault {
    /// The reader failed.
    #[error("the input could not be read")]
    Read,
    /// The writer failed, took no byte of what was left, or could not be flushed.
    #[error("the output could not be written")]
    Write,
    /// The store carries out nothing more, as the last answer says.
    #[error("the store has failed")]
    Store,
    /// A line was refused, and that ends the session.
    #[error("a line was refused")]
    Refused,
    /// The commit of a batch was not acknowledged.
    #[error("a commit was not acknowledged")]
    Unsure,
}

/// Reads lines to the end of the input, and answers each in order. An `Ok` says whether any was
/// refused. A fault ends the session: no later line is carried out.
pub fn serve<R: Read, W: Write, D: Disk>(
    alloc: Global,
    reader: &mut R,
    writer: &mut W,
    store: &mut Store<D>,
    manner: Manner,
) -> Result<bool, ServeFault>
    // With Ok, nothing of the input is left.
    ensures end { OnOk result (IsAtEnd (R.remaining reader.new)) }

    // On any disk, the session ends with Store only if a device call failed in it, or the store had
    // already failed. A store that had already failed is left as it was.
    ensures goes { GrowsOn ⊥ store.old store.new }
    ensures ok { has_failed store.old ≡ false → OnOk result (has_failed store.new ≡ false) }
    ensures err { has_failed store.old ≡ false → IfErr result (StoreFails store.old store.new) }
    ensures left { has_failed store.old ≡ true → store.new ≡ store.old }

    // The lines of the input are answered one after another, each by the store that the line before
    // left, and the store represents what their commands leave. If the store failed in a line, a
    // crash in that line leaves what was committed before it, or what this one commits. A store
    // that had already failed answers Failed to the first command or query, and the session ends.
    // If a refused line ends the session, none before the last one is refused. Lists of
    // alternatives and checkpoints, `free`, and a line that is bad or asks for nothing leave the
    // store as it was on any disk. The lists are the expected ones if the store represents a state,
    // and the other answers always are, unless memory could not be allocated. On any disk, a query
    // is answered Device only if a device call failed in it, and Failed only by a store that had
    // already failed.
    ensures answers { ServesEach manner result store.old store.new
        (streams_of (R.remaining reader.old) (W.contents writer.old) (W.contents writer.new)) }

    // If commands are refused, the disk is only read: it is never written or synced, and the store
    // is left as it was.
    ensures reads { manner.on_command ≡ OnCommand.Refuse → Passes store.old store.new None }
{
    let mut session = Session {
        alloc,
        manner,
        text: Text::new(),
        room: [0; 4096],
        writer,
        store,
    };
    session.run(reader)
}

/// A session: the store that its lines are about, where their answers go, and what they share.
#[derive(Drop)]
struct Session<'a, W, D: Disk> {
    alloc: Global,
    manner: Manner,
    // Answers are composed in it. Nothing is kept in it from line to line.
    text: Text,
    // Values are read into this buffer, of a record or of a word, and nothing is kept in it. All
    // lines share it, so that none has to fill it with zeros.
    room: [u8; 4096],
    writer: &'a mut W,
    store: &'a mut Store<D>,
}

impl<'a, W: Write, D: Disk> Session<'a, W, D> {
    ghost use Rattle.vm_cli.specs.session.Feeds.{AnswersLine, Asks, FeedsLine, RepliesToLine, RunsToEnd};

    /// Reads lines to the end of the input, and answers each in order.
    fn run<R: Read>(&mut self, reader: &mut R) -> Result<bool, ServeFault>
        ensures { RunsToEnd W.contents self.old.manner result self.old self.new
            (R.remaining reader.old) (R.remaining reader.new) }
    {
        let mut line = Line::new(self.alloc);
        let mut chunk = [0; 8192];
        let mut refused = false;
        for _ in 0..u64::MAX {
            match reader.read(&mut chunk) {
                Ok(0) => {
                    if line.is_empty {
                        return Ok(refused);
                    }
                    let last = self.answer(&line)?;
                    return Ok(refused | last);
                }
                Ok(count) => {
                    let bytes = &chunk[..count];
                    refused |= self.feed(bytes, &mut line)?;
                }
                Err(_) => return Err(ServeFault::Read),
            }
        }
        Err(ServeFault::Read)
    }

    /// Takes more bytes of the input, and answers each line that ends in them. An `Ok` says whether
    /// any was refused.
    fn feed(&mut self, bytes: &[u8], line: &mut Line) -> Result<bool, ServeFault>
        ensures { FeedsLine W.contents self.old.manner bytes.now line.old line.new result
            self.old self.new }
    {
        let mut rest = bytes;
        let mut refused = false;
        while let Some(end) = memchr(b'\n', rest) {
            refused |= self.feed_line(&rest[..end], line)?;
            rest = &rest[end + 1..];
        }
        line.extend(rest);
        Ok(refused)
    }

    /// Takes the last bytes of a line, without its line feed, and answers it. An `Ok` says whether
    /// it was refused.
    fn feed_line(&mut self, bytes: &[u8], line: &mut Line) -> Result<bool, ServeFault>
        requires { IsPart bytes.now }
        ensures { FeedsLine W.contents self.old.manner (bytes.now ++ 10 ∷ []) line.old line.new result
            self.old self.new }
    {
        line.extend(bytes);
        let refused = self.answer(line)?;
        line.clear();
        Ok(refused)
    }

    /// Carries out a line and writes its answer. An `Ok` says whether the line was refused.
    fn answer(&mut self, line: &Line) -> Result<bool, ServeFault>
        ensures { AnswersLine W.contents self.old.manner line.now result self.old self.new }
    {
        self.text.clear();
        let Ok(reply) = self.reply_to(line) else {
            return Err(ServeFault::Write);
        };
        let Ok(()) = send(reply, &mut self.text, self.writer) else {
            return Err(ServeFault::Write);
        };
        if reply.is_last() {
            return Err(ServeFault::Store);
        }
        if reply.is_refusal() {
            match self.manner.on_refusal {
                OnRefusal::Ignore => return Ok(true),
                OnRefusal::Tell => return Ok(true),
                OnRefusal::Stop => return Err(ServeFault::Refused),
            }
        }
        Ok(false)
    }

    /// Carries out a line. The text takes the lines of a list except the last one, and what does
    /// not fit is written. The last line of the answer is returned.
    fn reply_to(&mut self, line: &Line) -> Result<Reply, WriteFault>
        requires { self.old.text ≡ [] }
        ensures { RepliesToLine W.contents self.old.manner line.now result self.old self.new }
    {
        match line.kind {
            LineKind::Long => Ok(Reply::LongLine),
            LineKind::NoMemory => Ok(Reply::Refused(Refusal::Memory)),
            LineKind::Kept => self.reply_to_words(line.text()),
        }
    }

    /// Carries out a line whose bytes are held.
    fn reply_to_words(&mut self, line: &[u8]) -> Result<Reply, WriteFault>
        requires { self.old.text ≡ [] }
        ensures { Asks W.contents (asked_in self.old.manner.on_command (request_of (words_of line.now)))
            result self.old self.new }
    {
        let alloc = self.alloc;
        let on = self.manner.on_command;
        let text = &mut self.text;
        let store = &mut *self.store;
        let Ok(request) = parse_request(alloc, line, &mut self.room) else {
            return Ok(Reply::Refused(Refusal::Memory));
        };
        match request {
            Request::Nothing => Ok(Reply::Nothing),
            Request::Bad(mistake) => Ok(Reply::BadLine(mistake)),
            Request::Command(command) => Ok(reply_to_command(&command, on, store)),
            Request::MergeAll { alt, side, settled } => {
                Ok(reply_to_merge_all(alloc, &alt, side, settled, on, store))
            }
            Request::Get(at, key) => Ok(get(&at, key, text, &mut self.room, store)),
            Request::Tally(alt) => Ok(tally(alloc, &alt, store)),
            Request::Free => Ok(free(store)),
            Request::Blocks => Ok(blocks(store)),
            Request::List(query) => reply_to_list(&query, alloc, text, &mut *self.writer, store),
        }
    }
}

/// Writes what is left of an answer, with its last line.
fn send<W: Write>(reply: Reply, text: &mut Text, writer: &mut W) -> Result<(), WriteFault>
    requires { length text.old + 1024 ≤ Text.MAX_LEN }
    ensures ok { OnOk result (Gains W.contents (text.old ++ reply_text reply) writer.old writer.new) }
    ensures err { OnErr result (Begins W.contents (text.old ++ reply_text reply) writer.old writer.new) }
{
    reply.push_onto(text);
    put_all(writer, text.as_bytes())?;
    flush(writer)
}

//! Everything that the program does.

pub mod branches;
pub mod cached_lines;
pub mod console;
pub mod damage;
pub mod delayed_lines;
pub mod file_lock;
pub mod given;
pub mod help;
pub mod mem_files;
pub mod opening;
pub mod place;
pub mod progress;
pub mod selector;
pub mod serving;
pub mod store_copy;
pub mod store_counts;
pub mod task;
pub mod tree_lines;
pub mod tree_view;
pub mod warm_up;
pub mod words;

use crate::answers::output::{WriteFault, flush, put_all};
use crate::answers::reply::push_refusal;
use crate::answers::text::Text;
use crate::session::{Manner, OnCommand};
use cached_lines::answer_lines_in_memory;
use clap::Error;
use clap::error::ErrorKind;
use damage::unopened_whole;
use file_lock::NoLock;
use opening::{open_store, open_surveyed_store, unopened};
use place::Place;
use serving::{end_of, serve_by};
use std::alloc::Global;
use std::io::{Read, Write};
use store_copy::copy;
use store_counts::{Counts, count};
use task::{InMemory, Job};
use tree_view::tree;
use vm_disk::{CachedDisk, DelayedDisk, Disk};
use vm_store::format;
use vm_types::Refusal;
use words::job;

/// How the program ends.
#[derive(Clone, Copy, Debug, PartialEq, Eq)]
pub enum Exit {
    /// Everything was done, though the store may have refused single lines.
    Done,
    /// The file could not be made or opened, or its disk was refused.
    Refused,
    /// The words name no task.
    WrongWords,
    /// The input or an output failed, the store failed, or memory for the words could not be
    /// allocated.
    Stopped,
    /// A line was refused, and the status has to tell it.
    LineRefused,
}

impl Exit {
    /// The exit status, from 0 to 4.
    pub fn status(self) -> u8
        ensures { result ≡ status_of self }
    {
        match self {
            Exit::Done => 0,
            Exit::Refused => 1,
            Exit::WrongWords => 2,
            Exit::Stopped => 3,
            Exit::LineRefused => 4,
        }
    }
}

ghost use Rattle.std.specs.Prelude.{◌≡◌, ◌≢◌, ◌+◌, ◌≤◌, ◌⊎◌, ◌++◌, ℕ, List, [], true, OnErr, OnOk, codes, is_some, map};
ghost use Rattle.std.specs.Io.KnownBytes.{Appends};
ghost use Rattle.std.specs.String.{string_bytes};
ghost use Rattle.vm_cli.specs.answers.Carried.{Begins, Gains};
ghost use Rattle.vm_types.specs.declared.refusal.Refusal.{Refusal as RefusalValue};
ghost use Rattle.vm_disk.specs.Between.{IfHonest};
ghost use Rattle.vm_cli.specs.program.Told.{AnswersOver, FormatsOnly, MakesStore, TellsCount, TellsDamage, TellsRefusal};
ghost use Rattle.vm_cli.specs.session.Known.{streams_of, writer, writers, written_to};
ghost use Rattle.vm_cli.specs.program.Places.{FindsIn, IsAsked, place_use};
ghost use Rattle.vm_cli.specs.program.CachedLines.{disks};
ghost use Rattle.vm_cli.specs.program.Files.{AsksToWrite, Does};
ghost use Rattle.vm_cli.specs.program.Runs.{AnswersIn, ChecksIn, LooksOnly, MakesIn, RunsIn, ServesIn, ServesRun, ServesWords};
ghost use Rattle.vm_cli.specs.program.Exits.{Blames, CheckEnds, Ends, EndsSaying, Helps, IsDone, IsLineRefused, IsRefused, IsStopped, IsWrong, JobEnds, RefusesLock, RefusesWords, SessionEnds, StopsUnsaid, Tells, counts_text, created_text, file_text, named_text, refused_text, reported, status_of, stopped_text};
ghost use Rattle.vm_cli.specs.program.Words.Wanted.{check as check_wanted, create as create_wanted, run as run_wanted};

/// Does what the words say, and returns the exit status. The first word is the program's name. Each
/// disk that the place gave is given back.
pub fn run_words<P: Place, R: Read, W: Write, F: Write>(
    alloc: Global,
    words: &[String],
    place: &mut P,
    input: &mut R,
    output: &mut W,
    errors: &mut F,
) -> u8
    ensures status { result ≤ 4 }
    ensures done { result ≡ 0 → IsDone (map string_bytes words.now)
        (writers (writer W.contents output.old output.new) (writer F.contents errors.old errors.new)) }
    ensures refused { result ≡ 1 → IsRefused (map string_bytes words.now)
        (writers (writer W.contents output.old output.new) (writer F.contents errors.old errors.new)) }
    ensures wrong { result ≡ 2 → IsWrong (map string_bytes words.now)
        (writers (writer W.contents output.old output.new) (writer F.contents errors.old errors.new)) }
    ensures stopped { result ≡ 3 → IsStopped (map string_bytes words.now)
        (writers (writer W.contents output.old output.new) (writer F.contents errors.old errors.new)) }
    ensures line_refused { result ≡ 4
        → IsLineRefused (map string_bytes words.now)
        (writers (writer W.contents output.old output.new) (writer F.contents errors.old errors.new)) }
    ensures looks { LooksOnly (place_use P.state P.denied P.to_write place.old place.new) (map string_bytes words.now) }
    // As long as the place and its disks have kept their rules, the files are what the job makes of
    // them. If the program stopped, the errors say so or begin to, after what the job said.
    ensures files { RunsIn (disks P.D.Disk ⟦<CachedDisk<P::D> as Disk>⟧ ⟦<DelayedDisk<P::D> as Disk>⟧ ⟦<DelayedDisk<CachedDisk<P::D>> as Disk>⟧)
        (place_use P.state P.denied P.to_write place.old place.new) (map string_bytes words.now) result
        (R.remaining input.old) (written_to W.contents output.old output.new) (writer F.contents errors.old errors.new) }
    // On any place, whether its disks keep their rules or not, lines are answered as `serve`
    // promises for any disk; or the errors say, or begin to say, why its disk was refused, or that
    // the place gave none for that file.
    ensures served { ServesRun (disks P.D.Disk ⟦<CachedDisk<P::D> as Disk>⟧ ⟦<DelayedDisk<P::D> as Disk>⟧ ⟦<DelayedDisk<CachedDisk<P::D>> as Disk>⟧)
        (place_use P.state P.denied P.to_write place.old place.new) (map string_bytes words.now) result
        (R.remaining input.old) (written_to W.contents output.old output.new) (writer F.contents errors.old errors.new) }
{
    match do_job(alloc, words, place, input, output, errors) {
        Exit::Stopped => stop(errors),
        exit => exit.status(),
    }
}

/// Says that one of the words is not text, and returns the exit status: 2, or 3 if that could not
/// be said.
pub fn refuse_words<F: Write>(errors: &mut F) -> u8
    ensures { RefusesWords result (writer F.contents errors.old errors.new) }
{
    match say(errors, b"altctl: the words are not UTF-8\n") {
        Ok(()) => 2,
        Err(WriteFault) => stop(errors),
    }
}

/// Says why the lock that the words ask for is not held, and returns the exit status: 1, or 3 if
/// that could not be said, or if memory could not be allocated.
pub fn refuse_lock<F: Write>(why: NoLock<'_>, errors: &mut F) -> u8
    ensures { RefusesLock why.entry result (writer F.contents errors.old errors.new) }
{
    match why {
        NoLock::Memory => stop(errors),
        NoLock::InUse(file) => refuse_file(b"altctl: ", file, b" is in use\n", errors),
        NoLock::CannotOpen(file) => refuse_file(b"altctl: cannot open ", file, b"\n", errors),
        NoLock::CannotLock(file) => refuse_file(b"altctl: cannot lock ", file, b"\n", errors),
    }
}

/// Says a text with the name of a file in it, and returns the exit status: 1, or 3 if that could
/// not be said.
fn refuse_file<F: Write>(before: &[u8], file: &str, behind: &[u8], errors: &mut F) -> u8
    ensures { EndsSaying 1 (named_text before.now file.now behind.now) result (writer F.contents errors.old errors.new) }
{
    match say_with_file(before, file, behind, errors) {
        Ok(()) => 1,
        Err(WriteFault) => stop(errors),
    }
}

/// Says that the program stopped, if that can be said, and returns the exit status.
pub fn stop<F: Write>(errors: &mut F) -> u8
    ensures status { result ≡ 3 }
    ensures said { Begins F.contents stopped_text errors.old errors.new }
{
    let _ = say(errors, b"altctl: stopped\n");
    3
}

/// Does what the words say. That the program stopped is left for the caller to say.
fn do_job<P: Place, R: Read, W: Write, F: Write>(
    alloc: Global,
    words: &[String],
    place: &mut P,
    input: &mut R,
    output: &mut W,
    errors: &mut F,
) -> Exit
    ensures ends { Ends result (map string_bytes words.now) (writers (writer W.contents output.old output.new) (writer F.contents errors.old errors.new)) }
    ensures looks { LooksOnly (place_use P.state P.denied P.to_write place.old place.new) (map string_bytes words.now) }
    ensures files { (P.state place.new).honest ≡ true
        → Does (disks P.D.Disk ⟦<CachedDisk<P::D> as Disk>⟧ ⟦<DelayedDisk<P::D> as Disk>⟧ ⟦<DelayedDisk<CachedDisk<P::D>> as Disk>⟧)
        (place_use P.state P.denied P.to_write place.old place.new)
        (reported result (written_to W.contents output.old output.new) (written_to F.contents errors.old errors.new))
        (map string_bytes words.now) (R.remaining input.old) }
    ensures served { ServesWords (disks P.D.Disk ⟦<CachedDisk<P::D> as Disk>⟧ ⟦<DelayedDisk<P::D> as Disk>⟧ ⟦<DelayedDisk<CachedDisk<P::D>> as Disk>⟧)
        (place_use P.state P.denied P.to_write place.old place.new)
        (reported result (written_to W.contents output.old output.new) (written_to F.contents errors.old errors.new))
        (map string_bytes words.now) (R.remaining input.old) }
{
    match job(alloc, words) {
        Ok(Job::Create { file, blocks }) => create(file, blocks, place, output, errors),
        Ok(
            Job::Run {
                file,
                in_memory,
                manner,
            },
        ) => run(alloc, file, in_memory, manner, place, input, output, errors),
        Ok(
            Job::Do {
                file,
                input,
                in_memory,
                manner,
            },
        ) => {
            let mut lines = input.as_slice();
            run(
                alloc, file, in_memory, manner, place, &mut lines, output, errors,
            )
        }
        Ok(Job::Check { file }) => check(alloc, file, place, output, errors),
        Ok(Job::Tree { file }) => tree(alloc, file, place, output, errors),
        Ok(Job::Copy { file, to, blocks }) => copy(alloc, file, to, blocks, place, output, errors),
        Err(error) => explain(alloc, &error, output, errors),
    }
}

/// Makes a file with an empty store.
fn create<P: Place, W: Write, F: Write>(
    file: &str,
    blocks: u32,
    place: &mut P,
    output: &mut W,
    errors: &mut F,
) -> Exit
    ensures says { JobEnds (create_wanted file.now blocks) result
        (writers (writer W.contents output.old output.new) (writer F.contents errors.old errors.new)) }
    ensures writes { P.to_write place.new ≡ P.to_write place.old + 1 }
    ensures files { MakesIn P.D.Disk (place_use P.state P.denied P.to_write place.old place.new)
        (reported result (written_to W.contents output.old output.new) (written_to F.contents errors.old errors.new))
        file.now blocks }
{
    let Some(disk) = place.create(file, blocks) else {
        return no_file(b"altctl: cannot create ", file, errors);
    };
    let (exit, disk) = make_store(disk, blocks, output, errors);
    place.give_back(file, disk);
    exit
}

/// Makes an empty store on a disk, and says so.
fn make_store<D: Disk, W: Write, F: Write>(
    disk: D,
    blocks: u32,
    output: &mut W,
    errors: &mut F,
) -> (Exit, D)
    // On an honest disk, the new store is shown, and an existing store stays as it was.
    ensures made { MakesStore blocks (D.state disk) (D.state result.1) result.0
        (writers (writer W.contents output.old output.new) (writer F.contents errors.old errors.new)) }
    // At each moment nothing has changed, or everything is synced; or there was no store, and a
    // crash shows at most the new one.
    ensures moments { IfHonest D.state (FormatsOnly blocks) disk result.1 }
{
    match format(disk, blocks) {
        Ok(disk) => (created(blocks, output), disk),
        Err((disk, refusal)) => (refused(&refusal, errors), disk),
    }
}

/// Opens the store in a file, and answers the lines of the input.
fn run<P: Place, R: Read, W: Write, F: Write>(
    alloc: Global,
    file: &str,
    in_memory: InMemory,
    manner: Manner,
    place: &mut P,
    input: &mut R,
    output: &mut W,
    errors: &mut F,
) -> Exit
    ensures says { JobEnds (run_wanted file.now in_memory manner) result
        (writers (writer W.contents output.old output.new) (writer F.contents errors.old errors.new)) }
    ensures writes { AsksToWrite manner.on_command (P.to_write place.old) (P.to_write place.new) }
    ensures files { AnswersIn (disks P.D.Disk ⟦<CachedDisk<P::D> as Disk>⟧ ⟦<DelayedDisk<P::D> as Disk>⟧ ⟦<DelayedDisk<CachedDisk<P::D>> as Disk>⟧)
        (place_use P.state P.denied P.to_write place.old place.new)
        (reported result (written_to W.contents output.old output.new) (written_to F.contents errors.old errors.new))
        file.now in_memory manner (R.remaining input.old) }
    ensures served { ServesIn (disks P.D.Disk ⟦<CachedDisk<P::D> as Disk>⟧ ⟦<DelayedDisk<P::D> as Disk>⟧ ⟦<DelayedDisk<CachedDisk<P::D>> as Disk>⟧)
        (place_use P.state P.denied P.to_write place.old place.new)
        (reported result (written_to W.contents output.old output.new) (written_to F.contents errors.old errors.new))
        file.now in_memory manner (R.remaining input.old) }
{
    let Some(disk) = opened(file, manner.on_command, place) else {
        return no_file(b"altctl: cannot open ", file, errors);
    };
    let (exit, served) = answer_lines_in_memory(
        alloc, disk, in_memory, manner, input, output, errors,
    );
    place.give_back(file, served);
    exit
}

/// Opens a file: read only, if commands are refused.
fn opened<P: Place>(file: &str, on_command: OnCommand, place: &mut P) -> Option<P::D>
    ensures asked { IsAsked P.state P.denied P.to_write (AsksToWrite on_command) file.now (is_some result) place.old place.new }
    ensures honest { FindsIn P.state P.D.Disk.state file.now result place.old place.new }
{
    match on_command {
        OnCommand::CarryOut => place.find(file),
        OnCommand::GrowIfFull(_) => place.find(file),
        OnCommand::Refuse => place.look(file),
    }
}

/// Opens the store on a disk, and answers the lines of the input.
pub(crate) fn answer_lines<D: Disk, R: Read, W: Write, F: Write>(
    alloc: Global,
    disk: D,
    manner: Manner,
    input: &mut R,
    output: &mut W,
    errors: &mut F,
) -> (Exit, D)
    ensures ends { SessionEnds manner.on_refusal result.0
        (writers (writer W.contents output.old output.new) (writer F.contents errors.old errors.new)) }
    // As long as the disk is honest, the lines are answered as `serve` promises, from what it
    // shows, and a crash at any moment leaves what the commands so far keep; or it is reported why
    // it shows no store, and it is at most synced.
    ensures served { AnswersOver D.Disk manner disk result
        (streams_of (R.remaining input.old) (W.contents output.old) (W.contents output.new))
        ⊎ TellsRefusal D.Disk disk result (written_to F.contents errors.old errors.new) }
{
    match open_store(alloc, disk) {
        Ok(mut store) => {
            let served = serve_by(alloc, input, output, &mut store, manner);
            (end_of(manner.on_refusal, &served), store.close())
        }
        Err((disk, why)) => (unopened(&why, errors), disk),
    }
}

/// Opens the store in a file read only, and says what it holds.
fn check<P: Place, W: Write, F: Write>(
    alloc: Global,
    file: &str,
    place: &mut P,
    output: &mut W,
    errors: &mut F,
) -> Exit
    ensures says { JobEnds (check_wanted file.now) result
        (writers (writer W.contents output.old output.new) (writer F.contents errors.old errors.new)) }
    ensures reads { P.to_write place.new ≡ P.to_write place.old }
    ensures files { ChecksIn P.D.Disk (place_use P.state P.denied P.to_write place.old place.new)
        (reported result (written_to W.contents output.old output.new) (written_to F.contents errors.old errors.new))
        file.now }
{
    let Some(disk) = place.look(file) else {
        return no_file(b"altctl: cannot open ", file, errors);
    };
    let (exit, checked) = check_disk(alloc, disk, output, errors);
    place.give_back(file, checked);
    exit
}

/// Opens the store on a disk, and says what it holds.
fn check_disk<D: Disk, W: Write, F: Write>(
    alloc: Global,
    disk: D,
    output: &mut W,
    errors: &mut F,
) -> (Exit, D)
    ensures ends { CheckEnds result.0 (writers (writer W.contents output.old output.new) (writer F.contents errors.old errors.new)) }
    // The numbers are those of the tree that the disk shows, or it is reported why the disk was
    // refused, and which blocks are damaged. At each moment nothing has changed, or everything is
    // synced.
    ensures told { TellsCount D.Disk disk result (written_to W.contents output.old output.new)
        ⊎ TellsDamage D.Disk disk result (written_to F.contents errors.old errors.new) }
{
    let mut damaged = None;
    match open_surveyed_store(alloc, disk, &mut damaged) {
        Ok(store) => {
            let counts = count(alloc, &store);
            let disk = store.close();
            match counts {
                Ok(counts) => (counted(&counts, output), disk),
                Err(refusal) => (refused(&refusal, errors), disk),
            }
        }
        Err((disk, why)) => (unopened_whole(&why, &damaged, errors), disk),
    }
}

/// Says what a store holds.
fn counted<W: Write>(counts: &Counts, output: &mut W) -> Exit
    ensures { Tells Exit.Done result (written_to W.contents output.old output.new) (counts_text counts.now) }
{
    let mut text = Text::new();
    counts.push_onto(&mut text);
    unless_fault(say(output, text.as_bytes()), Exit::Done)
}

/// Says that a store was made.
fn created<W: Write>(blocks: u32, output: &mut W) -> Exit
    ensures { Tells Exit.Done result (written_to W.contents output.old output.new) (created_text blocks) }
{
    let mut text = Text::new();
    text.push_bytes(b"created ");
    text.push_number(u64::from(blocks));
    text.push(b'\n');
    unless_fault(say(output, text.as_bytes()), Exit::Done)
}

/// Says that a file could not be made or opened.
pub(crate) fn no_file<F: Write>(what: &[u8], file: &str, errors: &mut F) -> Exit
    ensures { Tells Exit.Refused result (written_to F.contents errors.old errors.new) (file_text what.now file.now) }
{
    unless_fault(say_with_file(what, file, b"\n", errors), Exit::Refused)
}

/// Writes a text with the name of a file in it, and flushes it.
fn say_with_file<W: Write>(
    before: &[u8],
    file: &str,
    behind: &[u8],
    writer: &mut W,
) -> Result<(), WriteFault>
    ensures ok { OnOk result (Gains W.contents (named_text before.now file.now behind.now)
        writer.old writer.new) }
    ensures err { OnErr result (Begins W.contents (named_text before.now file.now behind.now)
        writer.old writer.new) }
{
    put_all(writer, before)?;
    put_all(writer, file.as_bytes())?;
    say(writer, behind)
}

/// Says why a disk is not a store, or cannot become one.
pub(crate) fn refused<F: Write>(refusal: &Refusal, errors: &mut F) -> Exit
    ensures { Tells Exit.Refused result (written_to F.contents errors.old errors.new) (refused_text refusal.now) }
{
    let mut text = Text::new();
    text.push_bytes(b"altctl: ");
    push_refusal(&mut text, refusal);
    text.push(b'\n');
    unless_fault(say(errors, text.as_bytes()), Exit::Refused)
}

/// Says what is wrong with the words, or gives the help that they ask for.
fn explain<W: Write, F: Write>(alloc: Global, error: &Error, output: &mut W, errors: &mut F) -> Exit
    ensures memory { StopsUnsaid error.now result
        (writers (writer W.contents output.old output.new) (writer F.contents errors.old errors.new)) }
    ensures help { Helps error.now result (writers (writer W.contents output.old output.new) (writer F.contents errors.old errors.new)) }
    ensures wrong { Blames error.now result (writers (writer W.contents output.old output.new) (writer F.contents errors.old errors.new)) }
{
    if let ErrorKind::OutOfMemory = error.kind() {
        return Exit::Stopped;
    }
    let Ok(text) = error.to_string(alloc) else {
        return Exit::Stopped;
    };
    if error.use_stderr() {
        return unless_fault(say(errors, text.as_bytes()), Exit::WrongWords);
    }
    unless_fault(say(output, text.as_bytes()), Exit::Done)
}

/// Writes a text, and flushes it.
pub(crate) fn say<W: Write>(writer: &mut W, text: &[u8]) -> Result<(), WriteFault>
    ensures ok { OnOk result (Gains W.contents text.now writer.old writer.new) }
    ensures err { OnErr result (Begins W.contents text.now writer.old writer.new) }
{
    put_all(writer, text)?;
    flush(writer)
}

/// The intended exit, unless its text could not be written.
pub(crate) fn unless_fault(said: Result<(), WriteFault>, exit: Exit) -> Exit
    ensures ok { OnOk said (result ≡ exit) }
    ensures err { OnErr said (result ≡ Exit.Stopped) }
{
    match said {
        Ok(()) => exit,
        Err(_) => Exit::Stopped,
    }
}

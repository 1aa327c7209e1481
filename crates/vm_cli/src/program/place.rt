//! Finding disks by name.
ghost use Rattle.std.specs.Prelude.{◌≡◌, ◌∷◌, ℕ, List, [], true, is_some, option_map, ⊤};
ghost use Rattle.vm_sums.specs.Summed.{inner_of};
ghost use Rattle.vm_cli.specs.program.Places.{AsksNever, AsksOnce, IsAsked, PlaceCall, PlaceState, CreatesIn, FindsIn, LacksIn, LinksIn, RemovesIn, TakesBackIn, names_in};

use crate::program::progress::{Progress, Watched};
use crate::program::selector::rewrite_selector;
use std::fs::{self, File};
use std::io::ErrorKind;
use std::marker::PhantomData;
use std::os::fd::AsRawFd;
use std::rt::Files;
use std::snapshot::Snapshot;
use vm_disk::{Disk, FileDisk, History, LAST_STANDARD, SystemFile, World, noted_bytes};
use vm_sums::SummedDisk;

/// A file system, in which disks are found by name.
///
/// The laws of a place stand here, and no impl repeats them: its calls have no clauses of their
/// own. What one kind of place promises beside them is its `does`.
///
/// If it is not honest, the clauses `honest` say nothing: the contents of its files are unknown.
pub trait Place {
    type D: Disk;

    /// What is known of it, for contracts alone.
    ghost state: { Self → PlaceState };

    /// The names that it gave no disk for, or that it said to be taken, the newest first, for
    /// contracts alone.
    ghost denied: { Self → List (List ℕ) };

    /// How often it was asked for a writable disk, for contracts alone.
    ghost to_write: { Self → ℕ };

    /// What each call does beside its other clauses, in this kind of place: by default no more.
    ghost does: { PlaceCall Self.D → Self → Self → Type 0 } = { λ _ _ _. ⊤ };

    /// Makes a disk that does not exist yet, of this many blocks. The first is zero.
    fn create(&mut self, file: &str, blocks: u32) -> Option<Self::D>
        ensures asked { IsAsked state denied to_write AsksOnce file.now (is_some result) self.old self.new }
        ensures honest { CreatesIn state Self.D.state file.now blocks result self.old self.new }
        ensures does { does (PlaceCall.Create file.now blocks result) self.old self.new };

    /// An existing disk.
    fn find(&mut self, file: &str) -> Option<Self::D>
        ensures asked { IsAsked state denied to_write AsksOnce file.now (is_some result) self.old self.new }
        ensures honest { FindsIn state Self.D.state file.now result self.old self.new }
        ensures does { does (PlaceCall.Find file.now result) self.old self.new };

    /// An existing disk, for reading only. It need not be writable.
    fn look(&mut self, file: &str) -> Option<Self::D>
        ensures asked { IsAsked state denied to_write AsksNever file.now (is_some result) self.old self.new }
        ensures honest { FindsIn state Self.D.state file.now result self.old self.new }
        ensures does { does (PlaceCall.Look file.now result) self.old self.new };

    /// Takes back a disk that it gave.
    fn give_back(&mut self, file: &str, disk: Self::D)
        ensures asked { IsAsked state denied to_write AsksNever file.now true self.old self.new }
        ensures honest { TakesBackIn state Self.D.state file.now disk self.old self.new }
        ensures does { does (PlaceCall.GiveBack file.now disk) self.old self.new };

    /// Whether there is nothing of this name.
    fn lacks(&mut self, file: &str) -> bool
        ensures asked { IsAsked state denied to_write AsksNever file.now result self.old self.new }
        ensures honest { LacksIn state file.now result self.old self.new }
        ensures does { does (PlaceCall.Lack file.now result) self.old self.new };

    /// Gives an existing file another name, beside its own or in its place. If something has that
    /// name, or it cannot be done, nothing changes.
    fn link(&mut self, from: &str, to: &str) -> bool
        ensures asked { IsAsked state denied to_write AsksNever to.now result self.old self.new }
        ensures honest { LinksIn state from.now to.now result self.old self.new }
        ensures does { does (PlaceCall.Link from.now to.now result) self.old self.new };

    /// Removes a file, if that is possible.
    fn remove(&mut self, file: &str)
        ensures asked { IsAsked state denied to_write AsksNever file.now true self.old self.new }
        ensures honest { RemovesIn state file.now self.old self.new }
        ensures does { does (PlaceCall.Remove file.now) self.old self.new };
}

/// Notes a name.
pub(crate) fn note_name(names: &mut History<History<u8>>, name: &str)
    ensures { names_in names.new ≡ name.now ∷ names_in names.old }
{
    let name = noted_bytes(name.as_bytes());
    names.note(&name);
}

/// A file of the system as a disk with checksums.
type RealDisk<'a, W> = SummedDisk<FileDisk<Watched<'a, SystemFile<W>>>>;

/// A disk with checksums over another, if there is one.
fn with_sums<D: Disk>(disk: Option<D>) -> Option<SummedDisk<D>>
    ensures { option_map inner_of result ≡ disk }
{
    match disk {
        Some(disk) => Some(SummedDisk::new(disk)),
        None => None,
    }
}

/// What was done with a file of the system. `Missed`: a writable file was requested and could not
/// be opened. `Lacking`: nothing had this name. `Linked`: the file of the first name got the
/// second. `Removed`: a file lost this name.
#[derive(Drop)]
enum Event<'a, W> {
    Found(Snapshot<SystemFile<W>>),
    Made(Snapshot<SystemFile<W>>),
    Missed,
    Given(History<u8>, Snapshot<RealDisk<'a, W>>),
    Lacking(History<u8>),
    Linked(History<u8>, History<u8>),
    Removed(History<u8>),
}

/// The files of the system. No program can know what they hold when they are opened: the world W
/// says it, for contracts alone. They are honest as long as each is found as it was left, none is
/// made that already existed, none is named or said to be lacking whose name is taken, and each
/// disk that comes back does so under its name and has kept the disk model.
///
/// Assumed, and in no contract: that no one else writes a file between two openings, or changes its
/// name, that a file keeps what the disk model says that a crash may leave, and that the system
/// gives and takes names as it answers.
///
/// While this value lives, the standard input, output and error are open, if a folder can be
/// opened: one that was closed is open on the folder, and both reads and writes fail there. If no
/// folder can be opened it stays closed, and no file is opened in its place.
#[derive(Drop)]
pub struct RealFiles<'a, R, W> {
    rt: &'a R,
    progress: &'a Progress,
    folders: [Option<File>; 3],
    opened: History<()>,
    events: History<Event<'a, W>>,
    denied: History<History<u8>>,
    world: PhantomData<W>,
}

/// Folders in place of those of the standard input, output and error that are closed, as far as
/// they can be opened.
fn take_standard(rt: &impl Files<File = File>) -> [Option<File>; 3] {
    let mut folders = [None, None, None];
    for folder in &mut folders {
        // An opened file gets the lowest free number.
        match File::open(rt, "/") {
            Ok(opened) if opened.as_raw_fd() <= LAST_STANDARD => *folder = Some(opened),
            _ => break,
        }
    }
    folders
}

impl<'a, R: Files<File = File>, W: World> RealFiles<'a, R, W> {
    ghost use Rattle.vm_cli.specs.program.RealFiles.{asked_to_write, real_state, names_denied, untouched};

    /// The files that a runtime reaches. None has been asked for yet. It opens those of the
    /// standard input, output and error that are closed, if that is possible.
    pub fn new(rt: &'a R, progress: &'a Progress) -> RealFiles<'a, R, W>
        ensures state { real_state W.held W.torn result ≡ untouched W.held }
        ensures denied { names_denied result ≡ [] }
        ensures to_write { asked_to_write result ≡ 0 }
    {
        RealFiles {
            rt,
            progress,
            folders: take_standard(rt),
            opened: History::new(),
            events: History::new(),
            denied: History::new(),
            world: PhantomData,
        }
    }
}

impl<'a, R: Files<File = File>, W: World> RealFiles<'a, R, W> {
    ghost use Rattle.vm_cli.specs.program.RealFiles.{CreatesReal, FindsReal, IsAskedReal, NotesFound, NotesLooked, NotesMade};

    /// Makes a file that does not exist yet, and a disk of it.
    fn made(&mut self, file: &str, blocks: u32) -> Option<RealDisk<'a, W>>
        ensures asked { IsAskedReal W.held W.torn AsksOnce file.now true self.old self.new }
        ensures notes { NotesMade file.now self.old self.new }
        ensures honest { CreatesReal W.held W.torn file.now blocks result self.old self.new }
    {
        let Some(made) = SystemFile::create(self.rt, file, &self.opened) else {
            self.events.note(&Event::Missed);
            return None;
        };
        self.opened.note(&());
        self.events.note(&Event::Made(Snapshot::of(&made)));
        self.progress.begin(u64::from(blocks));
        with_sums(FileDisk::create(Watched::new(made, self.progress), blocks).ok())
    }

    /// Opens an existing file as a disk, once its selector was written again.
    fn found(&mut self, file: &str) -> Option<RealDisk<'a, W>>
        ensures asked { IsAskedReal W.held W.torn AsksOnce file.now true self.old self.new }
        ensures notes { NotesFound file.now self.old self.new }
        ensures honest { FindsReal W.held W.torn file.now result self.old self.new }
    {
        let Some(mut found) = SystemFile::open(self.rt, file, &self.opened) else {
            self.events.note(&Event::Missed);
            return None;
        };
        self.opened.note(&());
        self.events.note(&Event::Found(Snapshot::of(&found)));
        let Ok(()) = rewrite_selector(&mut found) else {
            return None;
        };
        with_sums(FileDisk::open(Watched::new(found, self.progress)).ok())
    }

    /// Opens an existing file read only, as a disk.
    fn looked(&mut self, file: &str) -> Option<RealDisk<'a, W>>
        ensures asked { IsAskedReal W.held W.torn AsksNever file.now true self.old self.new }
        ensures notes { NotesLooked file.now self.old self.new }
        ensures honest { FindsReal W.held W.torn file.now result self.old self.new }
    {
        let found = SystemFile::open_to_read(self.rt, file, &self.opened)?;
        self.opened.note(&());
        self.events.note(&Event::Found(Snapshot::of(&found)));
        with_sums(FileDisk::open(Watched::new(found, self.progress)).ok())
    }
}

impl<'a, R: Files<File = File>, W: World> RealFiles<'a, R, W> {
    ghost use Rattle.vm_cli.specs.program.RealFiles.{names_denied, NotesLink, NotesRemoval};

    /// Notes that a file got another name.
    fn note_link(&mut self, from: &str, to: &str)
        ensures denied { names_denied self.new ≡ names_denied self.old }
        ensures notes { NotesLink from.now to.now self.old self.new }
    {
        let from = noted_bytes(from.as_bytes());
        let to = noted_bytes(to.as_bytes());
        self.events.note(&Event::Linked(from, to));
    }

    /// Notes that a file lost its name.
    fn note_removal(&mut self, file: &str)
        ensures denied { names_denied self.new ≡ names_denied self.old }
        ensures notes { NotesRemoval file.now self.old self.new }
    {
        let name = noted_bytes(file.as_bytes());
        self.events.note(&Event::Removed(name));
    }
}

/// Whether the system says that nothing has this name, not even a link that leads nowhere.
fn is_lacking(rt: &impl Files, file: &str) -> bool {
    match fs::symlink_metadata(rt, file) {
        Ok(_) => false,
        Err(error) => error.kind() == ErrorKind::NotFound,
    }
}

impl<'a, R: Files<File = File>, W: World> Place for RealFiles<'a, R, W> {
    type D = RealDisk<'a, W>;

    ghost use Rattle.vm_cli.specs.program.RealFiles.{asked_to_write, real_does, real_state, names_denied};

    ghost state = { real_state W.held W.torn };

    ghost denied = { names_denied };

    ghost to_write = { asked_to_write };

    ghost does = { real_does W.held W.torn };

    fn create(&mut self, file: &str, blocks: u32) -> Option<RealDisk<'a, W>> {
        let made = self.made(file, blocks);
        if made.is_none() {
            note_name(&mut self.denied, file);
        }
        made
    }

    fn find(&mut self, file: &str) -> Option<RealDisk<'a, W>> {
        let found = self.found(file);
        if found.is_none() {
            note_name(&mut self.denied, file);
        }
        found
    }

    fn look(&mut self, file: &str) -> Option<RealDisk<'a, W>> {
        let found = self.looked(file);
        if found.is_none() {
            note_name(&mut self.denied, file);
        }
        found
    }

    fn give_back(&mut self, file: &str, disk: RealDisk<'a, W>) {
        let name = noted_bytes(file.as_bytes());
        self.events.note(&Event::Given(name, Snapshot::of(&disk)));
    }

    fn lacks(&mut self, file: &str) -> bool {
        if !is_lacking(self.rt, file) {
            note_name(&mut self.denied, file);
            return false;
        }
        let name = noted_bytes(file.as_bytes());
        self.events.note(&Event::Lacking(name));
        true
    }

    fn link(&mut self, from: &str, to: &str) -> bool {
        if fs::hard_link(self.rt, from, to).is_ok() {
            self.note_link(from, to);
            return true;
        }
        // Not every file system gives a file two names.
        if is_lacking(self.rt, to) && fs::rename(self.rt, from, to).is_ok() {
            self.note_link(from, to);
            self.note_removal(from);
            return true;
        }
        note_name(&mut self.denied, to);
        false
    }

    fn remove(&mut self, file: &str) {
        if fs::remove_file(self.rt, file).is_ok() {
            self.note_removal(file);
        }
    }
}

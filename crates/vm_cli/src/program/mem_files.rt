//! Files in memory, found by name.
ghost use Rattle.std.specs.Prelude.{◌≡◌, ℕ, true, List, None, IfSome, IsSome, is_some, max};
ghost use Rattle.std.specs.Option.{ForSome};
ghost use Rattle.vm_disk.specs.Memory.{memory_state, room_of};

use crate::program::place::{Place, note_name};
use std::alloc::Global;
use std::collections::BTreeMap;
use std::snapshot::Snapshot;
use vm_disk::{History, MemDisk};

/// A file: its disk, unless that is out, and the disk as it was when it was made or last came back.
/// The slot of a file that was removed stays, without a disk.
#[derive(Drop)]
struct Slot {
    disk: Option<MemDisk>,
    held: Snapshot<MemDisk>,
    is_there: bool,
    ghost same: { ForSome disk (λ it. (it ≡ held.value) × (is_there ≡ true)) },
}

/// Files in memory, each a `MemDisk` under its name. A file whose disk is out is not found. The
/// files are honest until a disk comes back under a name that no file was made with.
#[derive(Drop)]
pub struct MemFiles {
    alloc: Global,
    slots: BTreeMap<String, Slot>,
    honest: bool,
    room: u32,
    denied: History<History<u8>>,
    to_write: History<()>,
}

impl MemFiles {
    ghost use Rattle.vm_cli.specs.program.MemFiles.{FilesStay, IsAskedFiles, IsIn, IsLast, IsSameState, files_state, room_given};
    ghost use Rattle.vm_cli.specs.program.Places.{AsksNever, CreatesIn, FindsIn, LinksIn};

    /// No files. Disks that are made cannot grow.
    pub fn new(alloc: Global) -> MemFiles
        ensures honest { (files_state result).honest ≡ true }
        ensures empty { (name : List ℕ) → (files_state result).files name ≡ None }
        ensures room { room_given result ≡ 0 }
    {
        MemFiles::with_room(alloc, 0)
    }

    /// No files. Disks that are made have room to grow, up to `room` blocks.
    pub fn with_room(alloc: Global, room: u32) -> MemFiles
        ensures honest { (files_state result).honest ≡ true }
        ensures empty { (name : List ℕ) → (files_state result).files name ≡ None }
        ensures room { room_given result ≡ room }
    {
        MemFiles {
            alloc,
            slots: BTreeMap::new(alloc),
            honest: true,
            room,
            denied: History::new(),
            to_write: History::new(),
        }
    }

    /// Whether each disk that came back did so under the name of a file that was made.
    pub fn is_honest(&self) -> bool
        ensures { result ≡ (files_state self.now).honest }
    {
        self.honest
    }

    /// Whether there is a file of this name, whether its disk is in or out.
    fn has(&self, file: &str) -> bool
        ensures { result ≡ is_some ((files_state self.now).files file.now) }
    {
        match self.slots.get(file) {
            Some(slot) => slot.is_there,
            None => false,
        }
    }

    /// Makes a disk under a name that does not exist yet.
    fn made(&mut self, file: &str, blocks: u32) -> Option<MemDisk>
        ensures asked { IsAskedFiles AsksNever file.now true self.old self.new }
        ensures stays { FilesStay self.old self.new }
        ensures honest { CreatesIn files_state memory_state file.now blocks result self.old self.new }
        ensures room { IfSome result (λ disk. room_of disk ≡ max (room_given self.old) blocks) }
    {
        if self.has(file) {
            return None;
        }
        let name = String::from_str(self.alloc, file).ok()?;
        let room = self.room.max(blocks);
        let disk = MemDisk::with_room(self.alloc, blocks, room).ok()?;
        let slot = Slot {
            disk: None,
            held: Snapshot::of(&disk),
            is_there: true,
        };
        self.slots.insert(name, slot).ok()?;
        Some(disk)
    }

    /// Takes out a disk that is in, as it came back.
    fn taken(&mut self, file: &str) -> Option<MemDisk>
        ensures asked { IsAskedFiles AsksNever file.now true self.old self.new }
        ensures stays { IsSameState (files_state self.old) (files_state self.new) }
        ensures taken { IfSome result (λ disk. IsLast file.now (memory_state disk) (files_state self.old)) }
        ensures there { IsIn file.now self.old → IsSome result }
    {
        let slot = self.slots.get_mut(file)?;
        slot.disk.take()
    }

    /// Takes out a disk that is in.
    fn found(&mut self, file: &str) -> Option<MemDisk>
        ensures asked { IsAskedFiles AsksNever file.now true self.old self.new }
        ensures stays { FilesStay self.old self.new }
        ensures honest { FindsIn files_state memory_state file.now result self.old self.new }
        ensures there { IsIn file.now self.old → IsSome result }
    {
        let disk = self.taken(file)?;
        // It came back whole, so what was not synced is durable, too.
        Some(disk.crash(&[]))
    }

    /// Gives the file of a disk that is in another name, under which the disk is in then.
    fn linked(&mut self, from: &str, to: &str) -> Option<()>
        ensures asked { IsAskedFiles AsksNever to.now true self.old self.new }
        ensures stays { FilesStay self.old self.new }
        ensures honest { LinksIn files_state from.now to.now (is_some result) self.old self.new }
    {
        if self.has(to) {
            return None;
        }
        let name = String::from_str(self.alloc, to).ok()?;
        let disk = self.taken(from)?;
        let held = Snapshot::of(&disk);
        let slot = Slot {
            disk: Some(disk),
            held,
            is_there: true,
        };
        self.slots.insert(name, slot).ok()?;
        Some(())
    }
}

impl Place for MemFiles {
    type D = MemDisk;

    ghost use Rattle.vm_cli.specs.program.MemFiles.{asked_to_write, files_does, files_state, names_denied};

    ghost state = { files_state };

    ghost denied = { names_denied };

    ghost to_write = { asked_to_write };

    ghost does = { files_does };

    fn create(&mut self, file: &str, blocks: u32) -> Option<MemDisk> {
        self.to_write.note(&());
        let made = self.made(file, blocks);
        if made.is_none() {
            note_name(&mut self.denied, file);
        }
        made
    }

    fn find(&mut self, file: &str) -> Option<MemDisk> {
        self.to_write.note(&());
        self.look(file)
    }

    fn look(&mut self, file: &str) -> Option<MemDisk> {
        let found = self.found(file);
        if found.is_none() {
            note_name(&mut self.denied, file);
        }
        found
    }

    fn give_back(&mut self, file: &str, disk: MemDisk) {
        match self.slots.get_mut(file) {
            Some(slot) => {
                let held = Snapshot::of(&disk);
                *slot = Slot {
                    disk: Some(disk),
                    held,
                    is_there: true,
                };
            }
            None => self.honest = false,
        }
    }

    fn lacks(&mut self, file: &str) -> bool {
        let is_taken = self.has(file);
        if is_taken {
            note_name(&mut self.denied, file);
        }
        !is_taken
    }

    fn link(&mut self, from: &str, to: &str) -> bool {
        let is_linked = self.linked(from, to).is_some();
        if !is_linked {
            note_name(&mut self.denied, to);
        }
        is_linked
    }

    fn remove(&mut self, file: &str) {
        if let Some(slot) = self.slots.get_mut(file) {
            slot.disk = None;
            slot.is_there = false;
        }
    }
}

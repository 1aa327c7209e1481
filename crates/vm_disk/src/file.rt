//! A file as a disk.
ghost use Rattle.std.specs.Prelude.{◌≡◌, ◌+◌, ◌<◌, ◌≤◌, ◌^◌, ◌/◌, ◌*◌, true, [], length, IfOk, OnOk};
ghost use Rattle.vm_disk.specs.Positional.{IfHonestFile, CountsFailures, ReadsAt};

use crate::disk::{DeviceFault, Disk, Need};
use crate::history::History;
use crate::positional::Positional;
use std::snapshot::Snapshot;
use vm_types::{BLOCK_SIZE, Block, BlockNumber};

/// The size of a block in bytes.
const BLOCK: u64 = BLOCK_SIZE as u64;

/// How many zero blocks are added with one call.
const AT_ONCE: u32 = 16_384;

/// The state of a disk over a file before a call, for contracts alone.
struct Earlier<F> {
    file: Snapshot<F>,
    blocks: u32,
    sure: u32,
}

impl<F> Drop for Earlier<F> {
    fn drop(self) {
        let Earlier {
            file: _,
            blocks: _,
            sure: _,
        } = self;
    }
}

/// A file as a disk: block n is the 4,096 bytes at offset 4096 n. It knows how many blocks the file
/// had when it was last synced or was opened. It has a buffer for the loaded block.
#[derive(Drop)]
pub struct FileDisk<F> {
    file: F,
    blocks: u32,
    sure: u32,
    past: History<Earlier<F>>,
    reads: History<()>,
    room: Block,
    ghost small: { blocks < 2 ^ 32 },
    ghost known: { sure ≤ blocks },
}

/// Where a block begins.
fn offset_of(n: BlockNumber) -> u64
    ensures { result ≡ BLOCK_SIZE * n }
{
    u64::from(n) * BLOCK
}

/// Reads block n of a file into these bytes.
fn read_block<F: Positional>(
    file: &mut F,
    n: BlockNumber,
    into: &mut Block,
) -> Result<(), DeviceFault>
    ensures any { CountsFailures result (F.state file.old) (F.state file.new) }
    ensures full { length into.new ≡ BLOCK_SIZE }
    ensures honest { IfHonestFile F.state (ReadsAt (BLOCK_SIZE * n) into.new result) file.old file.new }
{
    file.read_at(into, offset_of(n))
}

impl<F: Positional> FileDisk<F> {
    ghost use Rattle.vm_disk.specs.File.{file_left, file_of, file_state, part_of, part_then, part_with, IsPart, IsOver, IsOverFile, IsMadeFile, OpensFile, StartsZero, EndsItsFile, AddsZerosIn, KeepsBehindIn};

    /// A disk of the whole blocks of a file, at most 4,294,967,295. If the file does not tell its
    /// length, it comes back.
    pub fn open(mut file: F) -> Result<FileDisk<F>, F>
        ensures any { CountsFailures result (F.state file) (F.state (file_left result)) }
        ensures over { IfOk result (λ disk. IsOverFile F.state disk.blocks disk) }
        ensures opened { IfOk result (OpensFile F.state file) }
    {
        let Ok(len) = file.len() else {
            return Err(file);
        };
        let blocks = (len / BLOCK).min(u64::from(u32::MAX)) as u32;
        Ok(FileDisk::over(file, blocks))
    }

    /// Adds zero blocks to an empty file and makes it a disk of them. None of them is sure before
    /// a sync. If they could not all be added, the file comes back.
    pub fn create(mut file: F, blocks: u32) -> Result<FileDisk<F>, F>
        ensures any { CountsFailures result (F.state file) (F.state (file_left result)) }
        ensures made { IfOk result (IsMadeFile F.state blocks) }
        ensures created { IfOk result (StartsZero F.state file) }
        ensures whole { IfOk result (EndsItsFile F.state file) }
    {
        match FileDisk::write_zeros(&mut file, &mut 0, blocks) {
            Ok(()) => Ok(FileDisk::part(file, blocks, 0)),
            Err(DeviceFault) => Err(file),
        }
    }

    /// The first blocks of an existing file, which may have more.
    pub fn over(file: F, blocks: u32) -> FileDisk<F>
        ensures file { file_of result ≡ file }
        ensures over { IsOver blocks (F.state file) (file_state F.state result) }
    {
        FileDisk::part(file, blocks, blocks)
    }

    /// The first `blocks` blocks of a file. `sure` of them are sure.
    fn part(file: F, blocks: u32, sure: u32) -> FileDisk<F>
        requires { sure ≤ blocks }
        ensures file { file_of result ≡ file }
        ensures part { IsPart (part_with (F.state file) blocks sure) (file_state F.state result) }
    {
        FileDisk {
            file,
            blocks,
            sure,
            past: History::new(),
            reads: History::new(),
            room: [0; 4096],
        }
    }

    /// Its state now, to be noted.
    fn earlier(&self) -> Earlier<F>
        ensures { part_then F.state result ≡ part_of F.state self.now }
    {
        Earlier {
            file: Snapshot::of(&self.file),
            blocks: self.blocks,
            sure: self.sure,
        }
    }

    /// Adds zero blocks to a file, many per call, from block `done` up to block `blocks`, and nothing
    /// after them. `done` counts the blocks that were added.
    fn write_zeros(file: &mut F, done: &mut u32, blocks: u32) -> Result<(), DeviceFault>
        requires { done.old ≤ blocks }
        ensures any { CountsFailures result (F.state file.old) (F.state file.new) }
        ensures least { done.old ≤ done.new }
        ensures most { done.new ≤ blocks }
        ensures all { OnOk result (done.new ≡ blocks) }
        ensures added { IfHonestFile F.state (AddsZerosIn done.old done.new) file.old file.new }
        ensures behind { IfHonestFile F.state (KeepsBehindIn done.old blocks) file.old file.new }
    {
        while *done < blocks {
            let more = (blocks - *done).min(AT_ONCE);
            file.write_zeros_at(more as usize * BLOCK_SIZE, offset_of(*done))?;
            *done += more;
        }
        Ok(())
    }

    /// The file below.
    pub fn into_file(self) -> F
        ensures { result ≡ file_of self }
    {
        self.file
    }
}

impl<F: Positional> Disk for FileDisk<F> {
    ghost use Rattle.std.proofs.lemmas.List.FromFn.{length-map-range_with_len};
    ghost use Rattle.vm_disk.specs.File.{file_state, file_hand, file_does};

    ghost state = { file_state F.state };

    ghost hand = { file_hand };

    ghost does = { file_does F.state };

    ghost whole = { λ disk honest. length-map-range_with_len _ 0 disk.blocks };

    ghost small = { λ disk. disk.small };

    fn blocks(&self) -> u32 {
        self.blocks
    }

    fn read(&mut self, n: BlockNumber, into: &mut Block) -> Result<(), DeviceFault> {
        self.reads.note(&());
        let was = self.earlier();
        self.past.note(&was);
        self.file.read_at(into, offset_of(n))
    }

    fn load(&mut self, n: BlockNumber, _: Need) -> Result<(), DeviceFault> {
        self.reads.note(&());
        let was = self.earlier();
        self.past.note(&was);
        read_block(&mut self.file, n, &mut self.room)
    }

    fn at_hand(&self) -> &Block {
        &self.room
    }

    fn write(&mut self, n: BlockNumber, from: &Block) -> Result<(), DeviceFault> {
        let was = self.earlier();
        self.past.note(&was);
        self.file.write_at(from, offset_of(n))
    }

    fn write_run(&mut self, n: BlockNumber, blocks: &[Block]) -> Result<(), DeviceFault> {
        let was = self.earlier();
        self.past.note(&was);
        self.file.write_blocks_at(blocks, offset_of(n))
    }

    fn sync(&mut self) -> Result<(), DeviceFault> {
        let was = self.earlier();
        self.past.note(&was);
        self.file.sync()?;
        self.sure = self.blocks;
        Ok(())
    }

    fn extend(&mut self, blocks: u32) -> Result<(), DeviceFault> {
        let was = self.earlier();
        self.past.note(&was);
        FileDisk::write_zeros(&mut self.file, &mut self.blocks, blocks)
    }
}

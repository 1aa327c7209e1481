//! The trait of a disk.
ghost use Rattle.std.specs.Prelude.{◌≡◌, ◌+◌, ◌<◌, ◌≤◌, ◌^◌, ℕ, true, List, length, ⊤};
ghost use Rattle.vm_disk.specs.Calls.{DiskCall};
ghost use Rattle.vm_disk.specs.Moments.{WritesRun};
ghost use Rattle.vm_disk.specs.Disk.{DiskState, Counts, Reads, Writes, Syncs, Extends, Enlarges};

use vm_types::{Block, BlockNumber};

/// The device failed in this call.
#[derive(Clone, Copy, Debug, PartialEq, Eq)]
pub struct DeviceFault;

/// Whether a loaded block will be needed again, as far as the caller knows. It tells a disk what is
/// worth keeping, and nothing else.
#[derive(Clone, Copy, Debug, PartialEq, Eq)]
pub enum Need {
    /// It will be needed again soon.
    Again,
    /// It is needed only this time.
    Once,
}

/// A disk of blocks of 4,096 bytes, numbered from 0.
///
/// The laws of a disk stand here, and no impl repeats them: its calls have no clauses of their own.
/// What one kind of disk promises beside them is its `does`.
///
/// If a disk is not honest, its contents are unknown: of the laws, only the clauses `any` hold.
pub trait Disk {
    /// What is known of it, for contracts alone.
    ghost state: { Self → DiskState };

    /// The bytes of the loaded block.
    ghost hand: { Self → List ℕ };

    /// What each call does beside its other clauses, on this kind of disk: by default no more.
    ghost does: { DiskCall → Self → Self → Type 0 } = { λ _ _ _. ⊤ };

    /// How many blocks it has.
    fn blocks(&self) -> u32
        ensures { result ≡ (state self.now).blocks };

    /// Reads block n. On failure, `into` may hold any bytes.
    fn read(&mut self, n: BlockNumber, into: &mut Block) -> Result<(), DeviceFault>
        requires { n < (state self.old).blocks }
        ensures any { Counts 1 result (state self.old) (state self.new) }
        ensures honest { (state self.new).honest ≡ true
            → Reads n into.new result (state self.old) (state self.new) }
        ensures does { does (DiskCall.Read n into.new result) self.old self.new };

    /// Loads block n. It stays loaded until the next call that may change the disk. On failure, the
    /// loaded block may have any bytes. `need` changes none of this.
    fn load(&mut self, n: BlockNumber, need: Need) -> Result<(), DeviceFault>
        requires { n < (state self.old).blocks }
        ensures any { Counts 1 result (state self.old) (state self.new) }
        ensures honest { (state self.new).honest ≡ true
            → Reads n (hand self.new) result (state self.old) (state self.new) }
        ensures does { does (DiskCall.Load n need result) self.old self.new };

    /// The loaded block, by reference.
    fn at_hand(&self) -> &Block
        ensures { result.now ≡ hand self.now };

    /// Writes block n. Until the next successful sync, a crash may leave any bytes there.
    fn write(&mut self, n: BlockNumber, from: &Block) -> Result<(), DeviceFault>
        requires { n < (state self.old).blocks }
        ensures any { Counts 0 result (state self.old) (state self.new) }
        ensures honest { (state self.new).honest ≡ true
            → Writes n from.now result (state self.old) (state self.new) }
        ensures does { does (DiskCall.Write n from.now result) self.old self.new };

    /// Writes blocks in a row, from block n on, as single writes do.
    fn write_run(&mut self, n: BlockNumber, blocks: &[Block]) -> Result<(), DeviceFault>
        requires { n + length blocks.now ≤ (state self.old).blocks }
        ensures any { Counts 0 result (state self.old) (state self.new) }
        ensures honest { (state self.new).honest ≡ true
            → WritesRun n blocks.now result (state self.old) (state self.new) }
        ensures does { does (DiskCall.WriteRun n blocks.now result) self.old self.new };

    /// Writes blocks in a row, from block n on, one by one: for a disk that has no other way to
    /// write a run.
    fn write_each(&mut self, n: BlockNumber, blocks: &[Block]) -> Result<(), DeviceFault>
        requires { n + length blocks.now ≤ (state self.old).blocks }
        ensures any { Counts 0 result (state self.old) (state self.new) }
        ensures honest { (state self.new).honest ≡ true
            → WritesRun n blocks.now result (state self.old) (state self.new) }
    {
        let mut at = n;
        for block in blocks {
            self.write(at, block)?;
            at += 1;
        }
        Ok(())
    }

    /// Makes all writes so far durable.
    fn sync(&mut self) -> Result<(), DeviceFault>
        ensures any { Counts 0 result (state self.old) (state self.new) }
        ensures honest { (state self.new).honest ≡ true
            → Syncs result (state self.old) (state self.new) }
        ensures does { does (DiskCall.Sync result) self.old self.new };

    /// Lengthens the disk to `blocks` blocks in all. A new block holds any bytes, and is dirty.
    /// Until the next successful sync, a crash may leave any number of the new blocks. On failure,
    /// some of them may be there.
    fn extend(&mut self, blocks: u32) -> Result<(), DeviceFault>
        requires { (state self.old).blocks ≤ blocks }
        ensures any { Extends blocks result (state self.old) (state self.new) }
        ensures honest { (state self.new).honest ≡ true
            → Enlarges (state self.old) (state self.new) }
        ensures does { does (DiskCall.Extend blocks result) self.old self.new };

    /// An honest disk holds all of its blocks.
    ghost whole: { (disk : Self)
        → (state disk).honest ≡ true
        → length (state disk).now.contents ≡ (state disk).blocks };

    /// A block number fits 32 bits.
    ghost small: { (disk : Self) → (state disk).blocks < 2 ^ 32 };
}

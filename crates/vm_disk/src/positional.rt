//! The trait of a file with positioned reads and writes.
ghost use Rattle.std.specs.Prelude.{◌≡◌, ◌≤◌, true, length, replicate, ⊤};
ghost use Rattle.vm_disk.specs.Calls.{FileCall};
ghost use Rattle.vm_disk.specs.Positional.{FileState, IfHonestFile, joined, zeros, CountsFailures, ReadsAt, WritesIn, SyncsFile, Measures};

use crate::disk::DeviceFault;
use vm_types::Block;

/// The maximum number of zeros that one call adds: 64 MiB.
pub const MAX_ZEROS: usize = 67_108_864;

/// A file with positioned reads and writes. An offset counts bytes from the start of the file.
///
/// The laws of a file stand here, and no impl repeats them: its calls have no clauses of their own.
/// What one kind of file promises beside them is its `does`.
///
/// If a file is not honest, its contents are unknown: of the laws, only the clauses `any` hold.
pub trait Positional {
    /// What is known of it, for contracts alone.
    ghost state: { Self → FileState };

    /// What each call does beside its other clauses, on this kind of file: by default no more.
    ghost does: { FileCall → Self → Self → Type 0 } = { λ _ _ _. ⊤ };

    /// The length of the file in bytes.
    fn len(&mut self) -> Result<u64, DeviceFault>
        ensures any { CountsFailures result (state self.old) (state self.new) }
        ensures honest { IfHonestFile state (Measures result) self.old self.new }
        ensures does { does (FileCall.Measure result) self.old self.new };

    /// Reads 4,096 bytes at an offset. On failure, `into` may hold any bytes.
    fn read_at(&mut self, into: &mut Block, offset: u64) -> Result<(), DeviceFault>
        ensures any { CountsFailures result (state self.old) (state self.new) }
        ensures honest { IfHonestFile state (ReadsAt offset into.new result) self.old self.new }
        ensures does { does (FileCall.ReadAt offset into.new result) self.old self.new };

    /// Writes 4,096 bytes at an offset, which lies in the file or at its end. Past the end, the
    /// file grows.
    fn write_at(&mut self, from: &Block, offset: u64) -> Result<(), DeviceFault>
        ensures any { CountsFailures result (state self.old) (state self.new) }
        ensures honest { IfHonestFile state (WritesIn offset from.now result) self.old self.new }
        ensures does { does (FileCall.WriteAt offset from.now result) self.old self.new };

    /// Writes blocks one after another from an offset on, as `write_at` writes one.
    fn write_blocks_at(&mut self, from: &[Block], offset: u64) -> Result<(), DeviceFault>
        ensures any { CountsFailures result (state self.old) (state self.new) }
        ensures honest { IfHonestFile state (WritesIn offset (joined from.now) result) self.old self.new }
        ensures does { does (FileCall.WriteAt offset (joined from.now) result) self.old self.new };

    /// Makes `count` bytes from an offset on zero, as `write_at` writes bytes. At the end of a file
    /// they may be a hole, which takes no room on the device.
    fn write_zeros_at(&mut self, count: usize, offset: u64) -> Result<(), DeviceFault>
        requires { count ≤ MAX_ZEROS }
        ensures any { CountsFailures result (state self.old) (state self.new) }
        ensures honest { IfHonestFile state (WritesIn offset (zeros count) result) self.old self.new }
        ensures does { does (FileCall.WriteAt offset (zeros count) result) self.old self.new };

    /// Makes all writes so far durable.
    fn sync(&mut self) -> Result<(), DeviceFault>
        ensures any { CountsFailures result (state self.old) (state self.new) }
        ensures honest { IfHonestFile state (SyncsFile result) self.old self.new }
        ensures does { does (FileCall.SyncFile result) self.old self.new };
}

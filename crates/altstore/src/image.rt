//! The image of a store: its blocks with their checksums, one after another, as a file holds them.
ghost use Rattle.std.specs.Prelude.{◌≡◌, ◌/◌, ◌≤◌, ◌<◌, ◌^◌, ◌+◌, IfErr, IfOk, OnErr, OnOk, length, take, []};
ghost use Rattle.vm_cli.specs.answers.Carried.{Gains};
ghost use Rattle.vm_disk.specs.Between.{Between};
ghost use Rattle.vm_disk.specs.Memory.{memory_state, room_of};
ghost use Rattle.vm_types.specs.declared.sizes.TheConstants.{BLOCK_SIZE};
ghost use Rattle.altstore.specs.Images.{HoldsImage, KeepsBlocks, Loads, OpensBlocks, image_of};

use crate::session::Session;
use std::alloc::Global;
use std::io::Write;
use vm_disk::{Disk, MemDisk};
use vm_store::open;
use vm_sums::exchange_sum;
use vm_types::Refusal;

/// The image could not be written.
#[derive(Clone, Copy, Debug, PartialEq, Eq)]
pub struct SaveFault;

/// A disk that holds what the blocks of an image show, with room for this many blocks, or for those of the
/// image.
pub fn disk_of_image(alloc: Global, image: &[u8], room: u32) -> Result<MemDisk, Refusal>
    ensures holds { IfOk result (λ disk. HoldsImage image.now (memory_state disk).now.contents) }
    ensures memory { IfErr result (λ refusal. refusal ≡ Refusal.Memory) }
{
    let Ok(count) = u32::try_from(image.len() / 4096) else {
        return Err(Refusal::Memory);
    };
    let Ok(mut disk) = MemDisk::with_room(alloc, count, count.max(room)) else {
        return Err(Refusal::Memory);
    };
    fill(&mut disk, image, count)?;
    Ok(disk)
}

/// Writes what the blocks of an image show to a disk of that many blocks.
fn fill(disk: &mut MemDisk, image: &[u8], count: u32) -> Result<(), Refusal>
    requires blocks { (memory_state disk.old).blocks ≡ count }
    requires image { count ≡ length image.now / 4096 }
    ensures holds { OnOk result (HoldsImage image.now (memory_state disk.new).now.contents) }
    ensures memory { IfErr result (λ refusal. refusal ≡ Refusal.Memory) }
{
    let mut n = 0;
    while n < count {
        let at = n as usize * 4096;
        let mut block = [0; 4096];
        block.copy_from_slice(&image[at..at + 4096]);
        exchange_sum(n, &mut block);
        let Ok(()) = disk.write(n, &block) else {
            return Err(Refusal::Memory);
        };
        n += 1;
    }
    Ok(())
}

/// Writes all the bytes.
fn put_all<W: Write>(writer: &mut W, bytes: &[u8]) -> Result<(), SaveFault>
    ensures ok { OnOk result (Gains W.contents bytes.now writer.old writer.new) }
{
    match writer.write_all(bytes) {
        Ok(()) => Ok(()),
        Err(_) => Err(SaveFault),
    }
}

/// Writes the blocks of a disk with their checksums, one after another.
pub fn write_blocks<W: Write>(disk: &mut MemDisk, writer: &mut W) -> Result<(), SaveFault>
    ensures kept { KeepsBlocks (memory_state disk.old) (memory_state disk.new) }
    ensures written { OnOk result (Gains W.contents (image_of (memory_state disk.old).now.contents)
        writer.old writer.new) }
{
    let mut block = [0; 4096];
    let mut n = 0;
    let count = disk.blocks();
    while n < count {
        let Ok(()) = disk.read(n, &mut block) else {
            return Err(SaveFault);
        };
        exchange_sum(n, &mut block);
        put_all(writer, &block)?;
        n += 1;
    }
    Ok(())
}

/// Opens the store that a disk holds.
pub fn open_session(alloc: Global, disk: MemDisk) -> Result<Session, Refusal>
    ensures { OpensBlocks (memory_state disk).now.contents result }
{
    match open(alloc, disk) {
        Ok(store) => Ok(Session {
            store,
            answers: Vec::new(alloc),
        }),
        Err((_, refusal)) => Err(refusal),
    }
}

/// Loads an image.
pub fn load(alloc: Global, image: &[u8], room: u32) -> Result<Session, Refusal>
    ensures { Loads image.now result }
{
    open_session(alloc, disk_of_image(alloc, image, room)?)
}

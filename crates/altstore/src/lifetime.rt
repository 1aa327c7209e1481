//! A session with a new store, and the end of one.
ghost use Rattle.std.specs.Prelude.{◌≡◌, OnOk};
ghost use Rattle.vm_cli.specs.answers.Carried.{Gains};
ghost use Rattle.altstore.specs.Images.{Creates, OpensBlocks, blocks_of, image_of};

use crate::image::{SaveFault, open_session, write_blocks};
use crate::session::Session;
use std::alloc::Global;
use std::io::Write;
use vm_disk::MemDisk;
use vm_store::format;
use vm_types::{MAX_BLOCKS, MIN_BLOCKS, Refusal};

/// Makes a new store of 64 to 67,108,864 blocks. It may grow to as many as there is room for.
pub fn create(alloc: Global, blocks: u32, room: u32) -> Result<Session, Refusal>
    ensures { Creates blocks result }
{
    if blocks < MIN_BLOCKS || blocks > MAX_BLOCKS {
        return Err(Refusal::BadSize);
    }
    let Ok(disk) = MemDisk::with_room(alloc, blocks, blocks.max(room)) else {
        return Err(Refusal::Memory);
    };
    match format(disk, blocks) {
        Ok(disk) => open_session(alloc, disk),
        Err((_, refusal)) => Err(refusal),
    }
}

/// Writes the blocks of a session's store, and opens them again: uncommitted changes are gone.
pub fn save<W: Write>(
    alloc: Global,
    session: Session,
    writer: &mut W,
) -> (Result<(), SaveFault>, Result<Session, Refusal>)
    ensures written { OnOk result.0 (Gains W.contents (image_of (blocks_of session)) writer.old writer.new) }
    ensures opened { OpensBlocks (blocks_of session) result.1 }
{
    let mut disk = session.into_store().close();
    let written = write_blocks(&mut disk, writer);
    (written, open_session(alloc, disk))
}

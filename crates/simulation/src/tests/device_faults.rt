//! The scripts, on a device that fails at each of its calls in turn, and goes on.
ghost use Rattle.std.specs.Prelude.{◌<◌};

use super::BLOCKS;
use super::device_calls::{Met, NEVER, Place, Stage, blank, look, run, torn_bytes};
use super::scripts::Script;
use std::alloc::Global;
use testkit::{Fill, RecordingDisk, Wrong};
use vm_disk::{Disk, FuseDisk};
use vm_store::{Store, format, open};
use vm_types::{Block, Command, Refusal};

/// What a failed write leaves in its block.
const TORN: [Fill; 5] = [
    Fill::Synced,
    Fill::Written,
    Fill::Byte(0),
    Fill::Byte(0x5A),
    Fill::Byte(0xFF),
];

/// Formats a disk on which `format` failed. It may already be a store.
fn format_again<D: Disk + Drop>(disk: D) -> Result<D, Wrong> {
    match format(disk, BLOCKS) {
        Ok(disk) => Ok(disk),
        Err((disk, Refusal::AlreadyAStore)) => Ok(disk),
        Err((_, refusal)) => Err(Wrong::Refused(refusal)),
    }
}

/// Runs the commands of a script. One of them may fail, and then the next one is refused.
fn run_to_fault<D: Disk>(
    alloc: Global,
    store: &mut Store<D>,
    script: Script,
) -> Result<Stage, Wrong> {
    let stage = run(alloc, store, script, 0, script.count())?;
    if stage != Stage::End {
        let next = store.apply(&Command::Commit);
        if next != Err(Refusal::Failed) {
            return Err(Wrong::Answer(next, Err(Refusal::Failed)));
        }
    }
    Ok(stage)
}

/// Runs a script on a device that fails one call. Returns the disk, and the call in which it
/// failed.
fn run_past_fault(
    alloc: Global,
    script: Script,
    passes: u32,
    torn: Block,
) -> Result<(RecordingDisk, Stage), Wrong>
    requires { passes < 1000 }
{
    let fuse = FuseDisk::once(blank(alloc)?, passes, torn);
    let disk = match format(fuse, BLOCKS) {
        Ok(disk) => disk,
        Err((disk, Refusal::Device)) => format_again(disk)?,
        Err((_, refusal)) => return Err(Wrong::Refused(refusal)),
    };
    let formatted = !disk.blown();
    let mut store = match open(alloc, disk) {
        Ok(store) => store,
        Err((disk, Refusal::Device)) => open(alloc, disk)?,
        Err((_, refusal)) => return Err(Wrong::Refused(refusal)),
    };
    let stage = run_to_fault(alloc, &mut store, script);
    let disk = store.close();
    let blown = disk.blown();
    let failed = match stage? {
        Stage::End if !blown => Stage::End,
        Stage::End if formatted => Stage::Open,
        Stage::End => Stage::Format,
        stage => stage,
    };
    Ok((disk.into_inner(), failed))
}

/// Runs the commands of a script from a number on, on a disk that does not fail.
fn finish(
    alloc: Global,
    script: Script,
    disk: RecordingDisk,
    number: u32,
) -> Result<RecordingDisk, Wrong> {
    let mut store = open(alloc, disk)?;
    let end = run(alloc, &mut store, script, number, script.count());
    let disk = store.close();
    match end? {
        Stage::End => Ok(disk),
        _ => Err(Wrong::Device),
    }
}

/// Runs a script to its end on a device that fails one call. Returns the call in which it failed.
fn fail_at(alloc: Global, script: Script, passes: u32, torn: Fill) -> Result<Stage, Wrong>
    requires { passes < 1000 }
{
    let bytes = torn_bytes(alloc, script, passes, torn)?;
    let (disk, failed) = run_past_fault(alloc, script, passes, bytes)?;
    let shown = match failed {
        Stage::Command(_) => failed,
        _ => Stage::End,
    };
    let (disk, kept) = look(alloc, script, disk, shown)?;
    let Some(kept) = kept else {
        return Err(Wrong::Differs(passes));
    };
    let disk = finish(alloc, script, disk, kept)?;
    let (_disk, all) = look(alloc, script, disk, Stage::End)?;
    if all.is_none() {
        return Err(Wrong::Differs(passes));
    }
    Ok(failed)
}

/// Fails each call of a script in turn, and keeps track of the place.
fn fail_everywhere(alloc: Global, script: Script, place: &mut Place) -> Result<(), Wrong> {
    for torn in TORN {
        let mut met = Met::none();
        for passes in 0..NEVER {
            *place = (passes, torn, torn);
            let stage = fail_at(alloc, script, passes, torn)?;
            met.meet(stage);
            if stage == Stage::End {
                break;
            }
        }
        met.are_all(script)?;
    }
    Ok(())
}

#[test]
fn script_ends_as_usual_after_each_fault(rt: HostRuntime) {
    for script in [Script::Versions, Script::Posting] {
        let mut place = (0, Fill::Synced, Fill::Synced);
        let found = fail_everywhere(rt.alloc(), script, &mut place);
        assert_eq!(rt; found, Ok(()), "{script:?}, {place:?}");
    }
}

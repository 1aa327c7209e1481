//! The scripts, on a device that fails at each of its calls in turn and from there on.
ghost use Rattle.std.specs.Prelude.{◌<◌};

use super::BLOCKS;
use super::cast::shows;
use super::model::Model;
use super::scripts::Script;
use std::alloc::Global;
use testkit::{Fill, RecordingDisk, Wrong};
use vm_disk::{Disk, FuseDisk, MemDisk};
use vm_store::{Store, format, open};
use vm_types::{Block, Refusal};

/// More device calls than a script makes.
pub const NEVER: u32 = 1000;

/// What a failed write leaves in its block, and what a crash then leaves in each one that was not
/// synced. That block is among those, so the first matters only if the second leaves what was
/// written.
const LEFT: [(Fill, Fill); 8] = [
    (Fill::Synced, Fill::Written),
    (Fill::Written, Fill::Written),
    (Fill::Byte(0), Fill::Written),
    (Fill::Byte(0x5A), Fill::Written),
    (Fill::Byte(0xFF), Fill::Written),
    (Fill::Byte(0x5A), Fill::Synced),
    (Fill::Byte(0x5A), Fill::Byte(0)),
    (Fill::Byte(0x5A), Fill::Byte(0xFF)),
];

/// The calls of a script in order. Its commands have numbers from 0.
#[derive(Clone, Copy, Debug, PartialEq, Eq)]
pub enum Stage {
    Format,
    Open,
    Command(u32),
    End,
}

/// After how many device calls one fails, and what the failed write and the crash leave there.
pub type Place = (u32, Fill, Fill);

/// A new disk for a store.
pub(super) fn blank(alloc: Global) -> Result<RecordingDisk, Wrong> {
    RecordingDisk::new(alloc, MemDisk::new(alloc, BLOCKS)?)
}

/// What the definitions make of a script up to a command.
fn model_before(alloc: Global, script: Script, number: u32) -> Result<Model, Wrong> {
    let mut model = Model::new(alloc, BLOCKS)?;
    for n in 0..number {
        let answer = model.apply(&script.command(alloc, n))?;
        if answer != script.answer(n) {
            return Err(Wrong::Answer(answer, script.answer(n)));
        }
    }
    Ok(model)
}

/// Carries out the commands of a script from a number on, up to another, or to one in which the
/// device failed. Any other answer than these and the script's is wrong.
pub(super) fn run<D: Disk>(
    alloc: Global,
    store: &mut Store<D>,
    script: Script,
    from: u32,
    to: u32,
) -> Result<Stage, Wrong> {
    for n in from..to {
        let answer = store.apply(&script.command(alloc, n));
        if answer == Err(Refusal::Device) {
            return Ok(Stage::Command(n));
        }
        if answer != script.answer(n) {
            return Err(Wrong::Answer(answer, script.answer(n)));
        }
    }
    Ok(Stage::End)
}

/// Runs a script on a device that stops after this many calls. Returns the disk that is left, and
/// the call in which the device stopped.
fn run_until_stop(
    alloc: Global,
    script: Script,
    passes: u32,
    torn: Block,
) -> Result<(RecordingDisk, Stage), Wrong>
    requires { passes < 2000 }
{
    let fuse = FuseDisk::stop(blank(alloc)?, passes, torn);
    let disk = match format(fuse, BLOCKS) {
        Ok(disk) => disk,
        Err((disk, Refusal::Device)) => return Ok((disk.into_inner(), Stage::Format)),
        Err((_, refusal)) => return Err(Wrong::Refused(refusal)),
    };
    match open(alloc, disk) {
        Ok(mut store) => {
            let stage = run(alloc, &mut store, script, 0, script.count());
            let disk = store.close().into_inner();
            Ok((disk, stage?))
        }
        Err((disk, Refusal::Device)) => Ok((disk.into_inner(), Stage::Open)),
        Err((_, refusal)) => Err(Wrong::Refused(refusal)),
    }
}

/// What a write that fails after this many calls leaves: what its block held at the last sync, as
/// found in a run that is stopped there; what it was given, as found in a run that is stopped one
/// call later; or one byte repeated.
pub(super) fn torn_bytes(
    alloc: Global,
    script: Script,
    passes: u32,
    fill: Fill,
) -> Result<Block, Wrong>
    requires { passes < 1000 }
{
    if let Fill::Byte(byte) = fill {
        return Ok([byte; 4096]);
    }
    let (stopped, _stage) = run_until_stop(alloc, script, passes, [0; 4096])?;
    if let Fill::Synced = fill {
        return Ok(stopped.bytes_in(stopped.last(), fill));
    }
    let (later, _stage) = run_until_stop(alloc, script, passes + 1, [0; 4096])?;
    Ok(later.bytes_in(stopped.last(), fill))
}

/// The disk of a script in which the device failed in this call, and how many commands the disk has
/// kept: those up to the last acknowledged Commit, or up to the Commit in which the device failed.
/// No number if it shows neither.
pub(super) fn look(
    alloc: Global,
    script: Script,
    disk: RecordingDisk,
    stage: Stage,
) -> Result<(RecordingDisk, Option<u32>), Wrong> {
    let number = match stage {
        Stage::Format | Stage::Open => 0,
        Stage::Command(n) => n,
        Stage::End => script.count(),
    };
    let (disk, is_acknowledged) = shows(alloc, disk, &model_before(alloc, script, number)?)?;
    if is_acknowledged {
        return Ok((disk, Some(script.last_kept(alloc, number))));
    }
    match stage {
        Stage::Command(n) if script.is_commit(alloc, n) => {
            let next = n.saturating_add(1);
            let (disk, is_next) = shows(alloc, disk, &model_before(alloc, script, next)?)?;
            Ok((disk, if is_next { Some(next) } else { None }))
        }
        _ => Ok((disk, None)),
    }
}

/// Whether a stop in this call may leave this disk. While `format` runs it may be no store.
fn is_due(alloc: Global, script: Script, disk: RecordingDisk, stage: Stage) -> Result<bool, Wrong> {
    let looked = look(alloc, script, disk, stage);
    if let Err(Wrong::Refused(Refusal::NotAStore)) = looked {
        return Ok(stage == Stage::Format);
    }
    let (_disk, shown) = looked?;
    Ok(shown.is_some())
}

/// Counts the calls of a script that fail one after another as the device fails later.
#[derive(Clone, Copy)]
pub struct Met {
    last: Stage,
    count: u32,
}

impl Met {
    pub(super) fn none() -> Met {
        Met {
            last: Stage::End,
            count: 0,
        }
    }

    pub(super) fn meet(&mut self, stage: Stage) {
        if stage != self.last {
            self.last = stage;
            self.count = self.count.saturating_add(1);
        }
    }

    /// Checks that exactly the calls of the script were met.
    pub(super) fn are_all(&self, script: Script) -> Result<(), Wrong> {
        if self.count == script.stages() {
            Ok(())
        } else {
            Err(Wrong::Differs(self.count))
        }
    }
}

/// Stops a script after this many calls, and crashes. Returns the call in which the device stopped.
fn stop_at(
    alloc: Global,
    script: Script,
    passes: u32,
    torn: Fill,
    fill: Fill,
) -> Result<Stage, Wrong>
    requires { passes < 1000 }
{
    let bytes = torn_bytes(alloc, script, passes, torn)?;
    let (disk, stage) = run_until_stop(alloc, script, passes, bytes)?;
    if !is_due(alloc, script, disk.crash(alloc, fill)?, stage)? {
        return Err(Wrong::Differs(passes));
    }
    Ok(stage)
}

/// Stops a script at each of its calls in turn, and keeps track of the place.
fn stop_everywhere(alloc: Global, script: Script, place: &mut Place) -> Result<(), Wrong> {
    for (torn, fill) in LEFT {
        let mut met = Met::none();
        for passes in 0..NEVER {
            *place = (passes, torn, fill);
            let stage = stop_at(alloc, script, passes, torn, fill)?;
            met.meet(stage);
            if stage == Stage::End {
                break;
            }
        }
        met.are_all(script)?;
    }
    Ok(())
}

#[test]
fn each_stop_leaves_what_was_acknowledged(rt: HostRuntime) {
    for script in [Script::Versions, Script::Posting] {
        let mut place = (0, Fill::Synced, Fill::Synced);
        let found = stop_everywhere(rt.alloc(), script, &mut place);
        assert_eq!(rt; found, Ok(()), "{script:?}, {place:?}");
    }
}

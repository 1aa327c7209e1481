//! Runs of the commands on a device that fails one call, or stops, or both.
use super::BLOCKS;
use super::commands::Script;
use super::image::Image;
use super::layers::Layer;
use super::states::{Shown, shows};
use std::alloc::Global;
use testkit::Wrong;
use vm_disk::{Disk, FuseDisk, MemDisk};
use vm_store::{Store, format, open};
use vm_types::{Block, Command, Refusal};

/// More device calls than a run makes.
pub const NEVER: u32 = 1000;

/// What a crash may show in the call in which the device failed: what was acknowledged last, or
/// what the call makes.
#[derive(Clone, Copy, Debug, PartialEq, Eq)]
pub struct Due {
    pub last: Shown,
    pub next: Shown,
}

impl Due {
    /// Exactly this.
    pub(super) fn of(last: Shown) -> Due {
        Due { last, next: last }
    }

    pub(super) fn has(self, shown: Shown) -> bool {
        shown == self.last || shown == self.next
    }
}

/// A device call that fails, what it leaves in its block if it is a write, and what the disk then
/// shows. If that is not known, the run ends there.
#[derive(Clone, Copy)]
pub struct Fault {
    pub passes: u32,
    pub torn: Block,
    pub then: Option<Shown>,
}

/// Which commands are run, from where on, in which call the device fails, and how many blocks are
/// in memory at most.
#[derive(Drop)]
pub struct Scene {
    pub script: Script,
    pub image: Image,
    pub from: Shown,
    pub fault: Option<Fault>,
    pub blocks: u32,
}

/// The end of a run: the disk, how many calls the device has counted, and what a crash may show. If
/// that is not given, all commands were carried out.
#[derive(Drop)]
pub struct Left {
    pub disk: MemDisk,
    pub calls: u32,
    pub due: Option<Due>,
}

/// Carries out the commands from this number on, up to one in which the device fails.
fn apply_from<D: Disk>(
    alloc: Global,
    store: &mut Store<D>,
    script: Script,
    from: u32,
) -> Result<Option<Due>, Wrong> {
    for n in from..script.count() {
        let given = store.apply(&script.command(alloc, n));
        if given == Err(Refusal::Device) {
            let after = store.apply(&Command::Commit);
            if after != Err(Refusal::Failed) {
                return Err(Wrong::Answer(after, Err(Refusal::Failed)));
            }
            let last = Shown::After(script.committed(n));
            return Ok(Some(Due {
                last,
                next: if script.is_commit(n) {
                    Shown::After(n.saturating_add(1))
                } else {
                    last
                },
            }));
        }
        if given != script.answer(n) {
            return Err(Wrong::Answer(given, script.answer(n)));
        }
    }
    Ok(None)
}

/// Checks whether the store shows what this many commands have committed, and carries out the
/// others.
fn look_and_apply<D: Disk>(
    alloc: Global,
    store: &mut Store<D>,
    script: Script,
    from: u32,
) -> Result<Option<Due>, Wrong> {
    match shows(alloc, store, script, from) {
        Ok(true) => apply_from(alloc, store, script, from),
        Ok(false) => Err(Wrong::Differs(from)),
        Err(Wrong::Refused(Refusal::Device)) => Ok(Some(Due::of(Shown::After(from)))),
        Err(wrong) => Err(wrong),
    }
}

/// Opens a disk that shows this state, and carries out the commands from there.
fn open_and_apply<D: Disk + Drop>(
    alloc: Global,
    disk: D,
    script: Script,
    from: u32,
) -> Result<(D, Option<Due>), Wrong> {
    match open(alloc, disk) {
        Ok(mut store) => {
            let due = look_and_apply(alloc, &mut store, script, from);
            let disk = store.close();
            Ok((disk, due?))
        }
        Err((disk, Refusal::Device)) => Ok((disk, Some(Due::of(Shown::After(from))))),
        Err((_, refusal)) => Err(Wrong::Refused(refusal)),
    }
}

/// Carries out the commands on a disk that shows this, and formats it if it is not a store.
fn go_on<D: Disk + Drop>(
    alloc: Global,
    disk: D,
    script: Script,
    from: Shown,
) -> Result<(D, Option<Due>), Wrong> {
    let commands = match from {
        Shown::After(commands) => return open_and_apply(alloc, disk, script, commands),
        Shown::NoStore => 0,
    };
    match format(disk, BLOCKS) {
        Ok(disk) => open_and_apply(alloc, disk, script, commands),
        Err((disk, Refusal::Device)) => {
            let last = Shown::NoStore;
            let next = Shown::After(0);
            Ok((disk, Some(Due { last, next })))
        }
        Err((_, refusal)) => Err(Wrong::Refused(refusal)),
    }
}

/// Opens a disk again after a call failed, and goes on.
fn resume<D: Disk + Drop>(
    alloc: Global,
    disk: D,
    script: Script,
    from: Shown,
) -> Result<(D, Option<Due>), Wrong> {
    if let Shown::After(_) = from {
        return go_on(alloc, disk, script, from);
    }
    match open(alloc, disk) {
        Ok(store) => {
            let _disk = store.close();
            Err(Wrong::NoStore)
        }
        Err((disk, Refusal::NotAStore)) => go_on(alloc, disk, script, from),
        Err((disk, Refusal::Device)) => Ok((disk, Some(Due::of(Shown::NoStore)))),
        Err((_, refusal)) => Err(Wrong::Refused(refusal)),
    }
}

/// Runs a scene on a device that stops after this many calls, and leaves this in a block if that
/// call is a write.
pub(super) fn run<D: Layer>(
    alloc: Global,
    scene: &Scene,
    stop: u32,
    torn: &Block,
) -> Result<Left, Wrong> {
    let stopping = FuseDisk::stop(scene.image.disk(alloc)?, stop.min(NEVER), *torn);
    let failing = match scene.fault {
        Some(fault) => FuseDisk::once(stopping, fault.passes.min(NEVER), fault.torn),
        None => FuseDisk::once(stopping, NEVER, *torn),
    };
    let disk = D::over(alloc, failing, scene.blocks).ok_or(Wrong::Memory)?;
    let (disk, due) = go_on(alloc, disk, scene.script, scene.from)?;
    let (disk, due) = match scene.fault {
        Some(
            Fault {
                then: Some(then),
                ..
            },
        ) => {
            let disk = disk.anew(alloc, scene.blocks).ok_or(Wrong::Memory)?;
            resume(alloc, disk, scene.script, then)?
        }
        _ => (disk, due),
    };
    let stopped = disk.below().into_inner();
    Ok(Left {
        calls: stopped.calls(),
        disk: stopped.into_inner(),
        due,
    })
}

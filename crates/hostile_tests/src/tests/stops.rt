//! The commands on a device that stops or fails at each of its calls in turn, and once more after
//! that.
use super::commands::Script;
use super::halts::{FILLS, Halt};
use super::image::Image;
use super::layers::{Device, Layer};
use super::runs::{Due, Fault, NEVER, Scene, run};
use super::states::{Shown, look};
use std::alloc::Global;
use std::process::Abort;
use testkit::{Fill, Wrong};
use vm_disk::{CachedDisk, DelayedDisk, MemDisk};

/// What is done at each device call.
#[derive(Clone, Copy, PartialEq, Eq)]
enum Trial {
    Stop,
    StopTwice,
    Fail,
    FailThenStop,
}

/// Checks that what is shown after a crash is expected.
fn expect(due: Due, shown: Shown) -> Result<(), Wrong> {
    if due.has(shown) {
        return Ok(());
    }
    Err(match shown {
        Shown::NoStore => Wrong::NoStore,
        Shown::After(commands) => Wrong::Differs(commands),
    })
}

/// A run that starts with a new disk.
fn whole(alloc: Global, script: Script, fault: Option<Fault>, blocks: u32) -> Result<Scene, Wrong> {
    Ok(Scene {
        script,
        image: Image::blank(alloc)?,
        from: Shown::NoStore,
        fault,
        blocks,
    })
}

/// Stops a scene at each call from this one on. At that call, what is shown may be this.
fn stop_each<D: Layer>(
    alloc: Global,
    scene: &Scene,
    first: u32,
    synced: Image,
    before: Due,
) -> Result<(), Wrong> {
    let mut halt = Halt::at::<D>(alloc, scene, first, synced)?;
    for passes in first..NEVER {
        let Some(due) = halt.due() else {
            break;
        };
        let due = if passes == first { before } else { due };
        for fill in FILLS {
            let disk = halt.crash::<D>(alloc, scene, fill)?;
            expect(due, look(alloc, disk, scene.script)?)?;
        }
        halt = halt.next::<D>(alloc, scene)?;
    }
    Ok(())
}

/// Looks at what a crash left. The rest of the commands, from what is shown on, may be stopped
/// again.
fn go_on_from<D: Layer>(
    alloc: Global,
    scene: &Scene,
    mut disk: MemDisk,
    due: Due,
    again: bool,
) -> Result<(), Wrong> {
    let image = Image::of(alloc, &mut disk)?;
    let script = scene.script;
    let from = look(alloc, disk, script)?;
    expect(due, from)?;
    if again {
        let synced = image.copy(alloc)?;
        let rest = Scene {
            script,
            image,
            from,
            fault: None,
            blocks: scene.blocks,
        };
        stop_each::<D>(alloc, &rest, 0, synced, Due::of(from))?;
    }
    Ok(())
}

/// Crashes at a call.
fn stop_at<D: Layer>(
    alloc: Global,
    scene: &Scene,
    halt: &Halt,
    due: Due,
    fill: Fill,
    again: bool,
) -> Result<(), Wrong> {
    let disk = halt.crash::<D>(alloc, scene, fill)?;
    go_on_from::<D>(alloc, scene, disk, due, again)
}

/// Crashes at a call at which not all blocks are sure, and leaves each possible number of blocks.
/// The rest of the commands is stopped again once, with all but one of the blocks.
fn stop_short<D: Layer>(
    alloc: Global,
    scene: &Scene,
    halt: &Halt,
    due: Due,
    fill: Fill,
    again: bool,
) -> Result<(), Wrong> {
    let (sure, blocks) = halt.sizes();
    for left in sure..blocks {
        let disk = halt.crash_short::<D>(alloc, scene, fill, left)?;
        let again = again && fill == Fill::Written && left + 1 == blocks;
        go_on_from::<D>(alloc, scene, disk, due, again)?;
    }
    Ok(())
}

/// Fails a call. The rest of the commands, from what is shown on, ends as usual, or may be stopped.
fn fail_at<D: Layer>(
    alloc: Global,
    scene: &Scene,
    halt: &Halt,
    due: Due,
    fill: Fill,
    again: bool,
) -> Result<(), Wrong> {
    let Scene { script, blocks, .. } = *scene;
    let fault = Fault {
        passes: halt.passes,
        torn: halt.filling(alloc, fill)?.torn,
        then: None,
    };
    let left = run::<D>(
        alloc,
        &whole(alloc, script, Some(fault), blocks)?,
        NEVER,
        &[0; 4096],
    )?;
    let shown = look(alloc, left.disk, script)?;
    expect(due, shown)?;
    let then = Some(shown);
    let scene = whole(alloc, script, Some(Fault { then, ..fault }), blocks)?;
    if again {
        let synced = halt.synced.copy(alloc)?;
        return stop_each::<D>(alloc, &scene, left.calls, synced, due);
    }
    let left = run::<D>(alloc, &scene, NEVER, &[0; 4096])?;
    if left.due.is_some() {
        return Err(Wrong::Device);
    }
    let end = Due::of(Shown::After(script.count()));
    expect(end, look(alloc, left.disk, script)?)
}

fn try_at<D: Layer>(
    alloc: Global,
    scene: &Scene,
    halt: &Halt,
    due: Due,
    trial: Trial,
) -> Result<(), Wrong> {
    for fill in FILLS {
        match trial {
            Trial::Stop | Trial::StopTwice => {
                let again = trial == Trial::StopTwice;
                stop_at::<D>(alloc, scene, halt, due, fill, again)?;
                stop_short::<D>(alloc, scene, halt, due, fill, again)?;
            }
            Trial::Fail => fail_at::<D>(alloc, scene, halt, due, fill, false)?,
            Trial::FailThenStop => fail_at::<D>(alloc, scene, halt, due, fill, true)?,
        }
    }
    Ok(())
}

/// Does this at each device call, and passes on the number of the call. Returns the number of
/// calls.
fn try_script<D: Layer>(
    alloc: Global,
    script: Script,
    trial: Trial,
    blocks: u32,
    at: &mut u32,
) -> Result<u32, Wrong> {
    let scene = whole(alloc, script, None, blocks)?;
    let mut halt = Halt::at::<D>(alloc, &scene, 0, Image::blank(alloc)?)?;
    for passes in 0..NEVER {
        *at = passes;
        let Some(due) = halt.due() else {
            return Ok(passes);
        };
        try_at::<D>(alloc, &scene, &halt, due, trial)?;
        halt = halt.next::<D>(alloc, &scene)?;
    }
    Ok(NEVER)
}

/// What is between a store and the device.
#[derive(Clone, Copy)]
enum Over {
    Nothing,
    /// A cache of two blocks.
    Cache,
    /// This many written blocks that wait.
    Late(u32),
}

/// The minimum and the maximum number of device calls that a script makes this way. Through a cache
/// each write, each sync and each growth reaches the device, but not each read. If written blocks
/// wait, a block that is written again before it goes out makes no call of its own.
fn bounds(over: Over, script: Script) -> (u32, u32) {
    let calls = script.calls();
    match over {
        Over::Nothing => (calls, calls),
        Over::Cache => (script.changing_calls(), calls.saturating_sub(1)),
        Over::Late(_) => (10, calls),
    }
}

fn try_over(
    alloc: Global,
    over: Over,
    script: Script,
    trial: Trial,
    at: &mut u32,
) -> Result<u32, Wrong> {
    match over {
        Over::Nothing => try_script::<Device>(alloc, script, trial, 0, at),
        Over::Cache => try_script::<CachedDisk<Device>>(alloc, script, trial, 2, at),
        Over::Late(blocks) => {
            try_script::<DelayedDisk<Device>>(alloc, script, trial, blocks, at)
        }
    }
}

/// What is done at each device call, and over what.
type Case = (&'static str, Over, Trial);

/// With nothing between store and device, and over written blocks that wait, one, two or all of
/// them: there without a second stop.
const BARE: &[Case] = &[
    ("each stop", Over::Nothing, Trial::Stop),
    ("each stop after a stop", Over::Nothing, Trial::StopTwice),
    ("each fault", Over::Nothing, Trial::Fail),
    (
        "each stop after a fault",
        Over::Nothing,
        Trial::FailThenStop,
    ),
    (
        "each stop below one block that waits",
        Over::Late(1),
        Trial::Stop,
    ),
    (
        "each stop below two blocks that wait",
        Over::Late(2),
        Trial::Stop,
    ),
    ("each stop below what waits", Over::Late(64), Trial::Stop),
    (
        "each fault below one block that waits",
        Over::Late(1),
        Trial::Fail,
    ),
    (
        "each fault below two blocks that wait",
        Over::Late(2),
        Trial::Fail,
    ),
    ("each fault below what waits", Over::Late(64), Trial::Fail),
];

const CACHED: &[Case] = &[
    ("each stop below a cache", Over::Cache, Trial::Stop),
    (
        "each stop after a stop below a cache",
        Over::Cache,
        Trial::StopTwice,
    ),
    ("each fault below a cache", Over::Cache, Trial::Fail),
    (
        "each stop after a fault below a cache",
        Over::Cache,
        Trial::FailThenStop,
    ),
];

/// What is shown is what was acknowledged, for the second script with the branch and the growth, or
/// the commands end as usual.
fn try_all<R: AllocGlobal + Abort>(rt: &R, script: Script, cases: &[Case]) {
    for (name, over, trial) in cases {
        let mut at = 0;
        let found = try_over(rt.alloc(), *over, script, *trial, &mut at);
        let (fewest, most) = bounds(*over, script);
        let is_due = matches!(found, Ok(calls) if fewest <= calls && calls <= most);
        assert!(rt; is_due, "{name}, {script:?}, call {at}: {found:?}");
    }
}

#[test]
fn each_stop_and_fault_shows_what_was_acknowledged(rt: HostRuntime) {
    try_all(&rt, Script::Posted, BARE);
}

#[test]
fn each_stop_and_fault_shows_the_branch_and_the_growth(rt: HostRuntime) {
    try_all(&rt, Script::Grown, BARE);
}

#[test]
fn each_stop_and_fault_below_a_cache_shows_what_was_acknowledged(rt: HostRuntime) {
    try_all(&rt, Script::Posted, CACHED);
}

#[test]
fn each_stop_and_fault_below_a_cache_shows_the_branch_and_the_growth(rt: HostRuntime) {
    try_all(&rt, Script::Grown, CACHED);
}

//! Random sessions: a store lives several times on one disk, and each life ends with a close or
//! with a device that stops, and maybe with a crash.
use super::BLOCKS;
use super::cast::{agrees, alternatives, shows};
use super::dice::Dice;
use super::model::Model;
use super::tally::{Case, Sight, Tally};
use std::alloc::Global;
use std::process::Abort;
use testkit::{Fill, RecordingDisk, Wrong, top};
use vm_disk::{DelayedDisk, Disk, FuseDisk, MemDisk};
use vm_store::{Store, format, open};
use vm_types::{Command, Key, Name, Refusal, Value};

/// More device calls than a life makes.
const NEVER: u32 = 1_000_000;

/// How many blocks a disk has room for beyond those that it has at first.
const ROOM: u32 = 64;

/// How the life of a store ended.
#[derive(Clone, Copy, PartialEq, Eq)]
enum End {
    Closed,
    Stopped,
    StoppedInCommit,
}

/// What a command may change apart from records.
fn sight(model: &Model, command: &Command<'_>) -> Sight {
    let level = match command {
        Command::Put { alt, .. } | Command::Remove { alt, .. } | Command::Merge { alt, .. } => {
            model.level(alt)
        }
        _ => 0,
    };
    Sight {
        level,
        free: model.free(),
        blocks: model.plain.blocks(),
    }
}

/// The alternatives that a command names, or that it changes.
fn near(alloc: Global, model: &Model, command: &Command<'_>) -> Result<Vec<Name>, Wrong> {
    let mut names = Vec::new(alloc);
    match command {
        Command::New { name, parent } | Command::NewAt { name, parent, .. } => {
            names.extend_from_slice(&[*name, *parent])?;
        }
        Command::Post { alt } => {
            names.extend_from_slice(&[*alt])?;
            if let Some(parent) = model.parent_of(alt)? {
                names.extend_from_slice(&[parent])?;
            }
        }
        Command::Drop { alt }
        | Command::Put { alt, .. }
        | Command::Remove { alt, .. }
        | Command::Checkpoint { alt, .. }
        | Command::Uncheck { alt, .. }
        | Command::Back { alt, .. }
        | Command::Merge { alt, .. } => names.extend_from_slice(&[*alt])?,
        Command::Rollback => names.extend_from_slice(&alternatives())?,
        Command::Commit | Command::Reclaim | Command::Grow { .. } => {}
    }
    Ok(names)
}

/// Compares the number of blocks and of free ones with the model's.
fn count<D: Disk>(store: &Store<D>, model: &Model) -> Result<(), Wrong> {
    if store.blocks() != Ok(model.plain.blocks()) {
        return Err(Wrong::Blocks(model.plain.blocks()));
    }
    if store.free() != Ok(model.free()) {
        return Err(Wrong::Free(model.free()));
    }
    Ok(())
}

/// Carries out a command, and compares its answer and the numbers of blocks with the model's. Tells
/// how the life ends, if the device stops in it.
fn play<D: Disk>(
    store: &mut Store<D>,
    model: &mut Model,
    tally: &mut Tally,
    command: &Command<'_>,
) -> Result<Option<End>, Wrong> {
    let answer = store.apply(command);
    if answer == Err(Refusal::Device) {
        return Ok(match command {
            Command::Commit => Some(End::StoppedInCommit),
            _ => Some(End::Stopped),
        });
    }
    let before = sight(model, command);
    let expected = model.apply(command)?;
    if answer != expected {
        return Err(Wrong::Answer(answer, expected));
    }
    tally.count(command, &answer, before, sight(model, command));
    if let Command::Merge { .. } = command {
        tally.count_side(model.merged_in);
    }
    count(store, model)?;
    Ok(None)
}

/// Compares what the store shows in these alternatives with the model, and the value of one key.
fn compare<D: Disk>(
    alloc: Global,
    store: &mut Store<D>,
    model: &Model,
    alternatives: &[Name],
    at: Key,
) -> Result<Option<End>, Wrong> {
    let agreed = agrees(alloc, store, &model.plain, alternatives, at);
    if let Err(Wrong::Refused(Refusal::Device)) = agreed {
        return Ok(Some(End::Stopped));
    }
    if agreed? { Ok(None) } else { Err(Wrong::Shown) }
}

/// Carries out a command. If the life looks, it compares what the store shows in the alternatives
/// near it, and now and then in all.
fn step<D: Disk>(
    alloc: Global,
    store: &mut Store<D>,
    model: &mut Model,
    dice: &mut Dice,
    tally: &mut Tally,
    looks: bool,
) -> Result<Option<End>, Wrong> {
    let mut value = Value::default();
    let command = dice.command(alloc, &model.plain, &mut value)?;
    if let Some(end) = play(store, model, tally, &command)? {
        return Ok(Some(end));
    }
    if !looks {
        return Ok(None);
    }
    if dice.once_in(8) {
        compare(alloc, store, model, &alternatives(), dice.key())
    } else {
        let names = near(alloc, model, &command)?;
        compare(alloc, store, model, &names, dice.key())
    }
}

/// Carries out commands on a freshly opened store. At the end it compares everything that the store
/// shows.
fn play_on<D: Disk>(
    alloc: Global,
    store: &mut Store<D>,
    model: &mut Model,
    dice: &mut Dice,
    tally: &mut Tally,
    looks: bool,
) -> Result<End, Wrong> {
    count(store, model)?;
    dice.turn(model.level(&top()) > 0);
    for _ in 0..dice.below(64) {
        if let Some(end) = step(alloc, store, model, dice, tally, looks)? {
            return Ok(end);
        }
    }
    let end = compare(alloc, store, model, &alternatives(), dice.key())?;
    Ok(end.unwrap_or(End::Closed))
}

/// How many written blocks wait over the device, life by life. With 0 they are written at once.
const WAITING: [usize; 8] = [0, 1, 2, 64, 0, 64, 2, 1];

/// A life of a store on a disk: it opens, and plays until it is closed, or until the device stops.
fn live_over<D: Disk + Drop>(
    alloc: Global,
    disk: D,
    model: &mut Model,
    dice: &mut Dice,
    tally: &mut Tally,
    looks: bool,
) -> Result<(D, End), Wrong> {
    match open(alloc, disk) {
        Ok(mut store) => {
            let end = play_on(alloc, &mut store, model, dice, tally, looks);
            let disk = store.close();
            Ok((disk, end?))
        }
        Err((disk, Refusal::Device)) => Ok((disk, End::Stopped)),
        Err((_, refusal)) => Err(Wrong::Refused(refusal)),
    }
}

/// One life of a store on the disk, on a device that may stop at any call, with up to this many
/// written blocks waiting. Those that still wait at the end are lost.
fn live(
    alloc: Global,
    disk: RecordingDisk,
    waiting: usize,
    model: &mut Model,
    dice: &mut Dice,
    tally: &mut Tally,
) -> Result<(RecordingDisk, End), Wrong> {
    if disk.blocks() > model.plain.blocks() {
        tally.meet(Case::LongerDisk);
    }
    let (passes, looks) = match dice.below(4) {
        0 | 1 => (NEVER, true),
        2 => (dice.below(400), true),
        _ => (dice.below(60), false),
    };
    let device = FuseDisk::stop(disk, passes, dice.bytes());
    let (device, end) = if waiting == 0 {
        live_over(alloc, device, model, dice, tally, looks)?
    } else {
        let Ok(late) = DelayedDisk::new(alloc, device, waiting) else {
            return Err(Wrong::Memory);
        };
        let (late, end) = live_over(alloc, late, model, dice, tally, looks)?;
        (late.into_inner(), end)
    };
    let stopped = device.blown();
    match end {
        End::Closed if stopped => Err(Wrong::Hidden),
        End::Stopped | End::StoppedInCommit if !stopped => Err(Wrong::Device),
        end => Ok((device.into_inner(), end)),
    }
}

/// Opens the disk that a life left, and finds which model it shows: what was committed, or what the
/// Commit in which the device stopped commits. None if it shows both.
fn resolve(
    alloc: Global,
    disk: RecordingDisk,
    mut model: Model,
    end: End,
    tally: &mut Tally,
) -> Result<Option<(RecordingDisk, Model)>, Wrong> {
    let old = model.reopened()?;
    let (disk, shows_old) = shows(alloc, disk, &old)?;
    if end != End::StoppedInCommit {
        return if shows_old {
            Ok(Some((disk, old)))
        } else {
            Err(Wrong::Shown)
        };
    }
    let _answer = model.apply(&Command::Commit)?;
    let new = model.reopened()?;
    let (disk, shows_new) = shows(alloc, disk, &new)?;
    match (shows_old, shows_new) {
        (true, true) => Ok(None),
        (true, false) => {
            tally.meet(Case::KeptOld);
            Ok(Some((disk, old)))
        }
        (false, true) => {
            tally.meet(Case::KeptNew);
            Ok(Some((disk, new)))
        }
        (false, false) => Err(Wrong::Shown),
    }
}

/// How many blocks a store has at first: the minimum, or room for one change more than that, or for
/// many.
fn size(seed: u64) -> u32 {
    match seed % 6 {
        0 | 1 => BLOCKS,
        2 | 3 => 2 * BLOCKS,
        _ => 8 * BLOCKS,
    }
}

/// The disk after a crash that leaves anything in blocks that were not synced, and takes away any
/// number of those that are not sure.
fn crash_at_random(
    alloc: Global,
    disk: RecordingDisk,
    dice: &mut Dice,
) -> Result<RecordingDisk, Wrong> {
    let mut left = Vec::new(alloc);
    for n in 0..disk.inner().blocks() {
        if disk.inner().is_dirty(n) {
            let synced = disk.bytes_in(n, Fill::Synced);
            let bytes = dice.left(&synced, &disk.bytes_in(n, Fill::Written));
            left.push((n, bytes))?;
        }
    }
    let inner = disk.into_inner();
    let unsure = inner.blocks().saturating_sub(inner.sure());
    let lost = dice.below(unsure.saturating_add(1));
    let blocks = inner.blocks().saturating_sub(lost);
    let inner = if inner.sure() <= blocks && blocks <= inner.blocks() {
        inner.crash_short(&left, blocks)
    } else {
        inner.crash(&left)
    };
    RecordingDisk::new(alloc, inner)
}

/// A crash, every second time.
fn crash_or_not(
    alloc: Global,
    disk: RecordingDisk,
    dice: &mut Dice,
    tally: &mut Tally,
) -> Result<RecordingDisk, Wrong> {
    if !dice.once_in(2) {
        return Ok(disk);
    }
    let blocks = disk.blocks();
    let disk = crash_at_random(alloc, disk, dice)?;
    if disk.blocks() < blocks {
        tally.meet(Case::CutShort);
    }
    Ok(disk)
}

/// Several lives of a store on one disk.
fn session(alloc: Global, seed: u64, tally: &mut Tally) -> Result<(), Wrong> {
    let blocks = size(seed);
    let room = blocks.saturating_add(ROOM);
    let mut dice = Dice::new(seed, room);
    let mut model = Model::new(alloc, blocks)?;
    let disk = RecordingDisk::new(alloc, MemDisk::with_room(alloc, blocks, room)?)?;
    let mut disk = format(disk, blocks)?;
    for waiting in WAITING {
        let (left, end) = live(alloc, disk, waiting, &mut model, &mut dice, tally)?;
        let left = crash_or_not(alloc, left, &mut dice, tally)?;
        let Some((next_disk, next_model)) = resolve(alloc, left, model, end, tally)? else {
            return Ok(());
        };
        disk = next_disk;
        model = next_model;
    }
    Ok(())
}

/// Plays a session of each seed from one up to another.
fn play_all<R: AllocGlobal + Abort>(rt: &R, from: u64, to: u64) -> Tally {
    let mut tally = Tally::new();
    for seed in from..to {
        assert_eq!(rt;
            session(rt.alloc(), seed, &mut tally),
            Ok(()),
            "seed {seed}"
        );
    }
    tally
}

#[test]
fn stores_answer_and_keep_what_the_model_does(rt: HostRuntime) {
    let tally = play_all(&rt, 0, 72);
    assert_eq!(rt; tally.too_low(), None);
}

#[test]
fn more_stores_answer_and_keep_what_the_model_does(rt: HostRuntime) {
    let _tally = play_all(&rt, 72, 144);
}

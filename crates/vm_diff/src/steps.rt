//! Two walks, step by step.
ghost use Rattle.std.specs.Prelude.{◌≡◌, ◌≢◌, ◌+◌, ◌<◌, ◌≤◌};
ghost use Rattle.vm_types.specs.Places.{place};
ghost use Rattle.vm_tree.specs.Calls.{OnlyLooks};
ghost use Rattle.vm_diff.specs.Walk.{size};
ghost use Rattle.vm_diff.specs.Front.{front_of, next_of, place_of};
ghost use Rattle.vm_diff.specs.Front.Front.{Top};
ghost use Rattle.vm_diff.specs.Differ.{PassesChange, ReadsWithin, Steps, StepsUnread};
ghost use Rattle.vm_diff.specs.Opened.{StandsAt};
ghost use Rattle.vm_diff.specs.Steps.{Falls, FoundBy, Meet, moved_by};

use crate::cursor::Cursor;
use crate::descent::open;
use crate::front::{Next, Step};
use crate::part::Part;
use crate::shared::skip_shared;
use vm_disk::Disk;
use vm_tree::{Root, TreeFault};
use vm_types::Key;

/// The step of opening a subtree.
fn moved(opened: Result<(), TreeFault>) -> Result<Step, TreeFault>
    ensures { result ≡ moved_by opened }
{
    opened?;
    Ok(Step::Moved)
}

/// The step if subtrees with the same lowest key come next in both walks. A shared subtree is
/// skipped; of two different ones, the higher one is opened.
fn meet_tops<D: Disk>(
    disk: &mut D,
    blocks: u32,
    part: Part,
    one: &mut Cursor,
    other: &mut Cursor,
    first: Root,
    second: Root,
) -> Result<Step, TreeFault>
    requires blocks { blocks ≤ (D.state disk.old).blocks }
    requires first { front_of one.old ≡ Top first }
    requires second { front_of other.old ≡ Top second }
    requires level { place first.low ≡ place second.low }
    ensures looks { OnlyLooks result (D.state disk.old) (D.state disk.new) }
    ensures falls { Falls result (size one.old + size other.old) (size one.new + size other.new) }
    ensures found { FoundBy result (front_of one.new) (front_of other.new) }
    ensures bound { ReadsWithin (D.state disk.old) (D.state disk.new)
        blocks (place part.low) (place part.high) one.old other.old }
    ensures steps { Steps result (D.state disk.old) (D.state disk.new)
        blocks (place part.low) (place part.high) one.old other.old one.new other.new }
{
    if first.block == second.block && first.level == second.level {
        one.skip(first);
        other.skip(second);
        skip_shared(one, other);
        return Ok(Step::Moved);
    }
    if first.level < second.level {
        moved(open(disk, blocks, part, other, second))
    } else {
        moved(open(disk, blocks, part, one, first))
    }
}

/// The step if records of one key come next in both walks.
fn meet_pairs(one: &mut Cursor, other: &mut Cursor, key: Key) -> Step
    requires first { next_of (front_of one.old) ≡ Next.Record key }
    requires second { StandsAt key other.old }
    ensures falls { Falls (Ok result) (size one.old + size other.old)
        (size one.new + size other.new) }
    ensures found { FoundBy (Ok result) (front_of one.new) (front_of other.new) }
    ensures steps { StepsUnread (Ok result) one.old other.old one.new other.new }
{
    if one.value() == other.value() {
        one.take();
        other.take();
        skip_shared(one, other);
        Step::Moved
    } else {
        Step::Found(key)
    }
}

/// The step if both walks are at the same key, or both at the end.
fn meet<D: Disk>(
    disk: &mut D,
    blocks: u32,
    part: Part,
    one: &mut Cursor,
    other: &mut Cursor,
    here: Next,
    there: Next,
) -> Result<Step, TreeFault>
    requires blocks { blocks ≤ (D.state disk.old).blocks }
    requires here { here ≡ next_of (front_of one.old) }
    requires there { there ≡ next_of (front_of other.old) }
    requires level { place_of (front_of one.old) ≡ place_of (front_of other.old) }
    ensures looks { OnlyLooks result (D.state disk.old) (D.state disk.new) }
    ensures falls { Falls result (size one.old + size other.old) (size one.new + size other.new) }
    ensures found { FoundBy result (front_of one.new) (front_of other.new) }
    ensures bound { ReadsWithin (D.state disk.old) (D.state disk.new)
        blocks (place part.low) (place part.high) one.old other.old }
    ensures steps { Steps result (D.state disk.old) (D.state disk.new)
        blocks (place part.low) (place part.high) one.old other.old one.new other.new }
{
    match here {
        Next::Subtree(first) => match there {
            Next::Subtree(second) => meet_tops(disk, blocks, part, one, other, first, second),
            _ => moved(open(disk, blocks, part, one, first)),
        },
        Next::Record(key) => match there {
            Next::Subtree(second) => moved(open(disk, blocks, part, other, second)),
            Next::Record(_) => Ok(meet_pairs(one, other, key)),
            Next::End => Ok(Step::Done),
        },
        Next::End => match there {
            Next::Subtree(second) => moved(open(disk, blocks, part, other, second)),
            _ => Ok(Step::Done),
        },
    }
}

/// The next step of two walks. It advances the walk with the smaller next key. If a record comes
/// next there, the record is a difference.
pub(crate) fn step<D: Disk>(
    disk: &mut D,
    blocks: u32,
    part: Part,
    one: &mut Cursor,
    other: &mut Cursor,
) -> Result<Step, TreeFault>
    requires { blocks ≤ (D.state disk.old).blocks }
    ensures looks { OnlyLooks result (D.state disk.old) (D.state disk.new) }
    ensures falls { Falls result (size one.old + size other.old) (size one.new + size other.new) }
    ensures found { FoundBy result (front_of one.new) (front_of other.new) }
    ensures bound { ReadsWithin (D.state disk.old) (D.state disk.new)
        blocks (place part.low) (place part.high) one.old other.old }
    ensures steps { Steps result (D.state disk.old) (D.state disk.new)
        blocks (place part.low) (place part.high) one.old other.old one.new other.new }
{
    let (here, there) = (one.next(), other.next());
    let (near, far) = (here.place(), there.place());
    if near < far {
        return match here {
            Next::Record(key) => Ok(Step::Found(key)),
            Next::Subtree(top) => moved(open(disk, blocks, part, one, top)),
            Next::End => Ok(Step::Done),
        };
    }
    if far < near {
        return match there {
            Next::Record(key) => Ok(Step::Found(key)),
            Next::Subtree(top) => moved(open(disk, blocks, part, other, top)),
            Next::End => Ok(Step::Done),
        };
    }
    meet(disk, blocks, part, one, other, here, there)
}

/// Passes the difference at this key, which comes next in both walks.
pub(crate) fn pass_change(one: &mut Cursor, other: &mut Cursor, key: Key)
    requires { Meet key (front_of one.old) (front_of other.old) }
    ensures falls { size one.new + size other.new < size one.old + size other.old }
    ensures change { PassesChange key one.old other.old one.new other.new }
{
    one.pass_at(key);
    other.pass_at(key);
}

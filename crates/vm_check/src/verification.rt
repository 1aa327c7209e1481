//! Validates the trees under untrusted block numbers.
ghost use Rattle.std.specs.Prelude.{◌≡◌, ◌↔◌, ◌<◌, ◌≤◌, length, IsErr, IsTrue, IfOk};
ghost use Rattle.vm_block.specs.Leaf.{BeginsWith};
ghost use Rattle.vm_block.specs.Look.{IfRecords};
ghost use Rattle.vm_tree.specs.Root.{AreSizes, sizes_of};
ghost use Rattle.vm_tree.specs.Tree.{IsData};
ghost use Rattle.vm_check.specs.Keys.{IsHighest};
ghost use Rattle.vm_check.specs.Surveys.{Surveys, SurveysChild, SurveysChildren, SurveysRoot, Walks};
ghost use Rattle.vm_check.specs.Verification.{SizeFits, TellsDamaged, Verifies};
ghost use Rattle.vm_check.specs.Visits.{AcceptsChild, AcceptsSubtree, AcceptsTree, EndsBelowNext, SpansFit, Visits, VisitsChild, VisitsChildren, VisitsRoot, met_of, span_of};

use crate::form::{Form, form_at};
use crate::notes::{Notes, OnDamage};
use std::alloc::Global;
use vm_alloc::Marks;
use vm_block::{MAX_CHILDREN, MAX_RECORDS, child_at, lowest_key, record_key};
use vm_disk::{DeviceFault, Disk, Need};
use vm_tree::{ListFault, Root, TreeFault, is_data};
use vm_types::{Block, BlockNumber, Key};

/// What was found at a block: its level, and the lowest and the highest key under it.
#[derive(Clone, Copy, Debug)]
pub(crate) struct Span {
    level: u8,
    low: Key,
    high: Key,
}

/// The span of a block that was met, kept in 24 bytes. While the blocks under an inner block are
/// visited, only its level is known.
#[derive(Clone, Copy, Debug, Default)]
pub(crate) struct Met {
    low_number: u64,
    high_number: u64,
    low_table: u16,
    high_table: u16,
    level: u8,
}

/// The kept form of a span.
fn keep(span: Span) -> Met
    ensures { result ≡ met_of span }
{
    Met {
        low_number: span.low.number,
        high_number: span.high.number,
        low_table: span.low.table,
        high_table: span.high.table,
        level: span.level,
    }
}

/// The span with this kept form.
fn span_met(met: Met) -> Span
    ensures { result ≡ span_of met }
{
    Span {
        level: met.level,
        low: Key {
            table: met.low_table,
            number: met.low_number,
        },
        high: Key {
            table: met.high_table,
            number: met.high_number,
        },
    }
}

/// Visits a block, whose level must lie from `least` to `most`, and all blocks under it. A block
/// that was met before is not read again. None if the block was noted as damaged.
#[cycle(walk)]
fn visit<D: Disk, const FAN: usize>(
    disk: &mut D,
    blocks: u32,
    least: u8,
    most: u8,
    block: BlockNumber,
    marks: &mut Marks,
    spans: &mut [Met],
    notes: &mut Notes,
) -> Result<Option<Span>, DeviceFault>
    requires fit { SpansFit blocks (D.state disk.old) marks.old spans.old notes.old }
    requires low { most ≤ 7 }
    requires inside { IsData blocks block }
    ensures walks { Walks (IsErr result) (D.state disk.old) (D.state disk.new)
        marks.old marks.new notes.old notes.new }
    ensures found { Visits result FAN (D.state disk.old) (D.state disk.new)
        blocks least most block marks.old spans.old marks.new spans.new notes.new }
    ensures only { AcceptsSubtree FAN (D.state disk.old) (D.state disk.new)
        blocks least most block marks.old spans.old notes.old notes.new }
    ensures surveyed { Surveys result FAN (D.state disk.old) (D.state disk.new)
        blocks least most block marks.old spans.old notes.old marks.new spans.new notes.new }
{
    let at = block as usize;
    if marks.is_set(block) {
        if notes.has(block) {
            return Ok(None);
        }
        let span = span_met(spans[at]);
        if span.level < least || span.level > most {
            notes.note(block);
            return Ok(None);
        }
        return Ok(Some(span));
    }
    marks.set(block);
    // What a leaf says is used at once; later commands go through the inner blocks.
    let need = if most == 0 { Need::Once } else { Need::Again };
    let form = match form_at(disk, blocks, block, need) {
        Ok(form) => form,
        Err(TreeFault::Device) => return Err(DeviceFault),
        Err(TreeFault::Damaged(_)) => {
            notes.note(block);
            return Ok(None);
        }
    };
    match form {
        Form::Leaf(count) => {
            if least > 0 {
                notes.note(block);
                return Ok(None);
            }
            let span = leaf_span(disk.at_hand(), count);
            spans[at] = keep(span);
            Ok(Some(span))
        }
        Form::Node(level, count) => {
            if level < least || level > most || count > FAN {
                notes.note(block);
                return Ok(None);
            }
            spans[at].level = level;
            let bytes = *disk.at_hand();
            let below = level - 1;
            let high = visit_children::<D, FAN>(
                disk, blocks, below, block, &bytes, count, marks, spans, notes,
            )?;
            if notes.has(block) {
                return Ok(None);
            }
            let low = lowest_key(&bytes);
            let span = node_span(level, low, high);
            spans[at] = keep(span);
            Ok(Some(span))
        }
    }
}

/// The span of a leaf of `count` records.
fn leaf_span(bytes: &Block, count: usize) -> Span
    requires some { 0 < count }
    requires few { count ≤ MAX_RECORDS }
    ensures level { result.level ≡ 0 }
    ensures low { IfRecords bytes.now (BeginsWith result.low) }
    ensures high { IfRecords bytes.now (λ rs. length rs ≡ count → IsHighest result.high rs) }
{
    Span {
        level: 0,
        low: lowest_key(bytes),
        high: record_key(bytes, count - 1),
    }
}

/// The span of an inner block of this level, with these lowest and highest keys under it.
fn node_span(level: u8, low: Key, high: Key) -> Span
    ensures { result ≡ record { level = level; low = low; high = high } }
{
    Span { level, low, high }
}

/// Visits the child at `i` of an inner block with `count` children, which are of this level, and
/// returns the highest key known under it. What lies under it must begin with the key of its entry,
/// and end below that of the next entry. If it is damaged, only the key of its entry is known.
#[cycle(walk)]
fn visit_child<D: Disk, const FAN: usize>(
    disk: &mut D,
    blocks: u32,
    level: u8,
    parent: BlockNumber,
    bytes: &Block,
    count: usize,
    i: usize,
    marks: &mut Marks,
    spans: &mut [Met],
    notes: &mut Notes,
) -> Result<Key, DeviceFault>
    requires fit { SpansFit blocks (D.state disk.old) marks.old spans.old notes.old }
    requires few { count ≤ MAX_CHILDREN }
    requires within { i < count }
    requires low { level ≤ 7 }
    requires inside { IsData blocks parent }
    ensures walks { Walks (IsErr result) (D.state disk.old) (D.state disk.new)
        marks.old marks.new notes.old notes.new }
    ensures found { VisitsChild result FAN (D.state disk.old) (D.state disk.new)
        blocks level bytes.now count i marks.old spans.old marks.new spans.new notes.new }
    ensures only { AcceptsChild FAN (D.state disk.old) (D.state disk.new)
        blocks level bytes.now count marks.old spans.old notes.old notes.new }
    ensures surveyed { SurveysChild result FAN (D.state disk.old) (D.state disk.new) blocks level
        parent bytes.now count i marks.old spans.old notes.old marks.new spans.new notes.new }
{
    let child = child_at(bytes, i);
    if !is_data(blocks, child.block) {
        notes.note_listing(parent, child.block);
        return Ok(child.low);
    }
    let Some(span) = visit::<D, FAN>(disk, blocks, level, level, child.block, marks, spans, notes)?
    else {
        return Ok(child.low);
    };
    if span.low != child.low || !is_below_next(span.high, bytes, count, i) {
        notes.note(child.block);
        return Ok(child.low);
    }
    Ok(span.high)
}

/// Visits the children of an inner block, which are of this level, in order, and returns the
/// highest key known under them.
#[cycle(walk)]
fn visit_children<D: Disk, const FAN: usize>(
    disk: &mut D,
    blocks: u32,
    level: u8,
    parent: BlockNumber,
    bytes: &Block,
    count: usize,
    marks: &mut Marks,
    spans: &mut [Met],
    notes: &mut Notes,
) -> Result<Key, DeviceFault>
    requires fit { SpansFit blocks (D.state disk.old) marks.old spans.old notes.old }
    requires few { count ≤ MAX_CHILDREN }
    requires low { level ≤ 7 }
    requires inside { IsData blocks parent }
    ensures walks { Walks (IsErr result) (D.state disk.old) (D.state disk.new)
        marks.old marks.new notes.old notes.new }
    ensures found { VisitsChildren result FAN (D.state disk.old) (D.state disk.new)
        blocks level bytes.now count marks.old spans.old marks.new spans.new notes.new }
    ensures only { AcceptsChild FAN (D.state disk.old) (D.state disk.new)
        blocks level bytes.now count marks.old spans.old notes.old notes.new }
    ensures surveyed { SurveysChildren result FAN (D.state disk.old) (D.state disk.new) blocks level
        parent bytes.now count marks.old spans.old notes.old marks.new spans.new notes.new }
{
    let mut high = Key::default();
    for i in 0..count {
        if notes.is_over() {
            return Ok(high);
        }
        high = visit_child::<D, FAN>(
            disk, blocks, level, parent, bytes, count, i, marks, spans, notes,
        )?;
    }
    Ok(high)
}

/// Whether a key is below the lowest key of the child after child `i`, if there is one.
fn is_below_next(high: Key, bytes: &Block, count: usize, i: usize) -> bool
    requires within { i < count }
    requires few { count ≤ MAX_CHILDREN }
    ensures { EndsBelowNext high bytes.now count i (IsTrue result) }
{
    if i + 1 >= count {
        return true;
    }
    high.place() < child_at(bytes, i + 1).low.place()
}

/// Walks the trees under the numbers, in order, and returns the root of each, and marks on exactly
/// the blocks under them. Numbers and blocks may hold anything: the walk always ends, and makes at
/// most as many reads as there are data blocks. Number 0 is the empty map.
///
/// If a number has no tree, it answers Damaged, with the first wrong block of the walk. It answers
/// Device if the device failed, and Memory if memory could not be allocated for the roots, two marks
/// and 24 bytes for each block of the store.
pub fn verify<D: Disk, const FAN: usize, const LEVELS: usize>(
    alloc: Global,
    disk: &mut D,
    blocks: u32,
    numbers: &[u32],
) -> Result<(Vec<Root>, Marks), ListFault>
    requires sizes { AreSizes FAN LEVELS }
    requires fit { SizeFits blocks (D.state disk.old) }
    ensures { Verifies result (sizes_of FAN LEVELS) (D.state disk.old) (D.state disk.new)
        blocks numbers.now }
{
    let mut damaged = None;
    walk_numbers::<D, FAN, LEVELS>(alloc, disk, blocks, numbers, OnDamage::Stop, &mut damaged)
}

/// Walks the trees under the numbers as `verify` does, and goes on behind a damaged block, so that
/// each is met that is reached by whole ones. If it answers Damaged, it leaves marks on all of them;
/// otherwise it leaves `damaged` as it is.
///
/// A number that is none of a data block has no mark: if it is not the first that is wrong, the block
/// that lists it tells.
pub fn survey<D: Disk, const FAN: usize, const LEVELS: usize>(
    alloc: Global,
    disk: &mut D,
    blocks: u32,
    numbers: &[u32],
    damaged: &mut Option<Marks>,
) -> Result<(Vec<Root>, Marks), ListFault>
    requires sizes { AreSizes FAN LEVELS }
    requires fit { SizeFits blocks (D.state disk.old) }

    // It reads, answers and finds what `verify` does.
    ensures verifies { Verifies result (sizes_of FAN LEVELS) (D.state disk.old) (D.state disk.new)
        blocks numbers.now }

    // With Damaged, each marked block is damaged, and so is each other one that is reached by whole
    // blocks: these list whole blocks alone, and marked ones.
    ensures damaged { TellsDamaged result (sizes_of FAN LEVELS)
        (D.state disk.old) (D.state disk.new) blocks numbers.now damaged.old damaged.new }
{
    walk_numbers::<D, FAN, LEVELS>(alloc, disk, blocks, numbers, OnDamage::GoOn, damaged)
}

/// Walks the trees under the numbers, as far as `on_damage` says. If it goes on behind damaged
/// blocks, marks on them are left.
fn walk_numbers<D: Disk, const FAN: usize, const LEVELS: usize>(
    alloc: Global,
    disk: &mut D,
    blocks: u32,
    numbers: &[u32],
    on_damage: OnDamage,
    damaged: &mut Option<Marks>,
) -> Result<(Vec<Root>, Marks), ListFault>
    requires sizes { AreSizes FAN LEVELS }
    requires fit { SizeFits blocks (D.state disk.old) }
    ensures verifies { Verifies result (sizes_of FAN LEVELS) (D.state disk.old) (D.state disk.new)
        blocks numbers.now }
    ensures damaged { on_damage ≡ OnDamage.GoOn → TellsDamaged result (sizes_of FAN LEVELS)
        (D.state disk.old) (D.state disk.new) blocks numbers.now damaged.old damaged.new }
{
    let (Ok(mut marks), Ok(none), Ok(mut spans)) = (
        Marks::new(alloc, blocks),
        Marks::new(alloc, blocks),
        vec![in alloc; Met::default(); blocks as usize],
    ) else {
        return Err(ListFault::Memory);
    };
    let mut notes = Notes::new(on_damage, none);
    let spans = spans.as_mut_slice();
    let mut roots = Vec::new(alloc);
    for number in numbers {
        let root = match visit_root::<D, FAN, LEVELS>(
            disk, blocks, *number, &mut marks, spans, &mut notes,
        ) {
            Ok(root) => root,
            Err(DeviceFault) => return Err(ListFault::Tree(TreeFault::Device)),
        };
        match roots.push(root) {
            Ok(()) => {}
            Err(_) => return Err(ListFault::Memory),
        }
    }
    match notes.first {
        None => Ok((roots, marks)),
        Some(first) => {
            *damaged = Some(notes.damaged);
            Err(ListFault::Tree(TreeFault::Damaged(first)))
        }
    }
}

/// Visits the tree under a number, and returns its root, as far as no block is damaged.
fn visit_root<D: Disk, const FAN: usize, const LEVELS: usize>(
    disk: &mut D,
    blocks: u32,
    number: u32,
    marks: &mut Marks,
    spans: &mut [Met],
    notes: &mut Notes,
) -> Result<Root, DeviceFault>
    requires sizes { AreSizes FAN LEVELS }
    requires fit { SpansFit blocks (D.state disk.old) marks.old spans.old notes.old }
    ensures walks { Walks (IsErr result) (D.state disk.old) (D.state disk.new)
        marks.old marks.new notes.old notes.new }
    ensures named { IfOk result (λ root. root.block ≡ number) }
    ensures found { VisitsRoot result (sizes_of FAN LEVELS) (D.state disk.old) (D.state disk.new)
        blocks number marks.old spans.old marks.new spans.new notes.new }
    ensures only { AcceptsTree (sizes_of FAN LEVELS) (D.state disk.old) (D.state disk.new)
        blocks number marks.old spans.old notes.old notes.new }
    ensures surveyed { SurveysRoot result (sizes_of FAN LEVELS) (D.state disk.old) (D.state disk.new)
        blocks number marks.old spans.old notes.old marks.new spans.new notes.new }
{
    if notes.is_over() {
        return Ok(no_root(number));
    }
    if number == 0 {
        return Ok(Root::default());
    }
    if !is_data(blocks, number) {
        notes.note_number(number);
        return Ok(no_root(number));
    }
    let most = (LEVELS - 1) as u8;
    let span = visit::<D, FAN>(disk, blocks, 0, most, number, marks, spans, notes)?;
    Ok(match span {
        Some(span) => Root {
            block: number,
            level: span.level,
            low: span.low,
        },
        None => no_root(number),
    })
}

/// What stands for the root of a tree that is not known.
fn no_root(number: u32) -> Root
    ensures { result.block ≡ number }
{
    Root {
        block: number,
        level: 0,
        low: Key::default(),
    }
}

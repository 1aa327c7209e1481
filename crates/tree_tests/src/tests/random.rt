//! Over a hundred thousand random changes of trees, at the sizes of the store and at small ones.
ghost use Rattle.vm_tree.specs.Root.{AreSizes};

use arrayvec::ArrayVec;
use rand_core::{Rng, SeedableRng};
use rand_xoshiro::Xoshiro256PlusPlus;
use std::alloc::{AllocError, Global};
use std::collections::BTreeMap;
use std::test::Fail;
use vm_alloc::{Baseline, Held, Marks};
use vm_block::{Child, read_node};
use vm_check::mark;
use vm_disk::{DeviceFault, Disk, MemDisk};
use vm_tree::{ListFault, PutFault, Root, TreeFault, get, put, remove, scan, scan_from, scan_part};
use vm_types::{Block, FIRST_DATA, Key, Records, Refusal, Value};

const BLOCKS: u32 = 16_384;

/// The maximum number of blocks that a change may take, and one more.
const NEEDED: u32 = 17;

/// The lengths in bytes of one in eight values.
const LENGTHS: [usize; 6] = [0, 1, 240, 241, 2000, 4000];

const CHANGES: u32 = 40_000;

/// How many changes are made with more puts than removes, and then again with fewer.
const SEASON: u32 = 5_000;

/// What went wrong.
#[derive(Clone, Copy, Debug, PartialEq, Eq)]
enum Wrong {
    /// Memory for the test itself could not be allocated.
    Memory,
    /// A call on the tree gave no answer when it should have.
    Tree(Refusal),
    /// The disk, the held blocks and the marks do not have one size.
    Sizes,
    /// A put found no room for a value that is not longer than the key's, or took a block before it
    /// found no room.
    Deep(u64),
    /// A remove found a record that is not there, or missed one that is.
    Removed(u64),
    /// This key does not have the same value as in the sorted map.
    Got(u64),
    /// After this many changes the records are not those of the sorted map.
    Records(u32),
    /// After this many changes a root from before the series has other records than it had then.
    Changed(u32),
    /// This block lies under the root, and is not held.
    Free(u32),
    /// After a marking the first number of blocks is free, and the second was expected.
    Count(u32, u32),
}

impl From<AllocError> for Wrong {
    fn from(_: AllocError) -> Wrong {
        Wrong::Memory
    }
}

impl From<DeviceFault> for Wrong {
    fn from(_: DeviceFault) -> Wrong {
        Wrong::Tree(Refusal::Device)
    }
}

impl From<TreeFault> for Wrong {
    fn from(fault: TreeFault) -> Wrong {
        Wrong::Tree(Refusal::from(fault))
    }
}

impl From<PutFault> for Wrong {
    fn from(fault: PutFault) -> Wrong {
        Wrong::Tree(Refusal::from(fault))
    }
}

impl From<ListFault> for Wrong {
    fn from(fault: ListFault) -> Wrong {
        Wrong::Tree(Refusal::from(fault))
    }
}

/// A tree on its own disk, and the sorted map that it must agree with.
#[derive(Drop)]
struct Pair {
    disk: MemDisk,
    held: Held,
    marks: Marks,
    root: Root,
    plain: BTreeMap<u64, Vec<u8>>,
    dice: Xoshiro256PlusPlus,
    /// How many keys there are.
    keys: u64,
    /// How many bytes seven of eight values have at the most.
    usual: usize,
    /// The blocks that stand as they are, if the others are changed in their places; and the root
    /// and the records that there were when they were held.
    base: Option<Baseline>,
    stood: Root,
    then: Option<Records>,
    /// How many changes took no block.
    in_place: u32,
    markings: u32,
    deeps: u32,
    /// The highest level that the root has had.
    top: u8,
}

fn key(number: u64) -> Key {
    Key { table: 1, number }
}

fn bytes_at(disk: &mut MemDisk, block: u32) -> Result<Block, Wrong> {
    let mut bytes = [0; 4096];
    if block >= disk.blocks() {
        return Err(Wrong::Sizes);
    }
    disk.read(block, &mut bytes)?;
    Ok(bytes)
}

/// The children of an inner block.
fn children_at(disk: &mut MemDisk, block: u32) -> Result<ArrayVec<Child, 256>, Wrong> {
    let bytes = bytes_at(disk, block)?;
    match read_node(&bytes) {
        Some(node) => Ok(node.children),
        None => Err(Wrong::Tree(Refusal::Damaged(block))),
    }
}

/// How many blocks there are from this one of this level down. Each must be held.
fn count_under(disk: &mut MemDisk, held: &Held, level: u8, block: u32) -> Result<u32, Wrong> {
    if block >= held.blocks() || !held.is_held(block) {
        return Err(Wrong::Free(block));
    }
    if level == 0 {
        return Ok(1);
    }
    let mut count: u32 = 1;
    for child in children_at(disk, block)?.as_slice() {
        let under = count_under(disk, held, level - 1, child.block)?;
        count = count.saturating_add(under);
    }
    Ok(count)
}

impl Pair {
    fn new(alloc: Global, seed: u64, keys: u64, usual: usize) -> Result<Pair, AllocError> {
        Ok(Pair {
            disk: MemDisk::new(alloc, BLOCKS)?,
            held: Held::new(alloc, BLOCKS)?,
            marks: Marks::new(alloc, BLOCKS)?,
            root: Root::default(),
            plain: BTreeMap::new(alloc),
            dice: Xoshiro256PlusPlus::seed_from_u64(seed),
            keys,
            usual: usual.min(Value::MAX_LEN),
            base: None,
            stood: Root::default(),
            then: None,
            in_place: 0,
            markings: 0,
            deeps: 0,
            top: 0,
        })
    }

    /// If too few blocks are free, holds exactly those of the tree.
    fn let_go(&mut self) -> Result<(), Wrong> {
        if self.held.free_count() >= NEEDED {
            return Ok(());
        }
        self.marks.clear();
        if self.marks.blocks() > self.disk.blocks() || self.marks.blocks() != self.held.blocks() {
            return Err(Wrong::Sizes);
        }
        mark(&mut self.disk, &[self.root], &mut self.marks)?;
        if self.marks.blocks() != self.held.blocks() {
            return Err(Wrong::Sizes);
        }
        self.held.replace(&self.marks);
        self.base = None;
        self.markings = self.markings.saturating_add(1);
        self.check_count()
    }

    /// Checks that exactly the blocks of the tree are held, and those before the first data block.
    fn check_count(&mut self) -> Result<(), Wrong> {
        let mut due = BLOCKS.saturating_sub(FIRST_DATA);
        if self.root.block != 0 {
            let under = count_under(&mut self.disk, &self.held, self.root.level, self.root.block)?;
            due = due.saturating_sub(under);
        }
        if self.held.free_count() != due {
            return Err(Wrong::Count(self.held.free_count(), due));
        }
        Ok(())
    }

    fn number(&mut self) -> u64 {
        self.dice.next_u64() % self.keys.max(1)
    }

    /// The length of a value in bytes: one time in eight one of the list, and otherwise any up to
    /// the usual ones.
    fn length(&mut self) -> usize {
        let roll = self.dice.next_u32() as usize;
        if roll % 8 == 0 {
            LENGTHS[roll / 8 % LENGTHS.len()]
        } else {
            roll / 8 % (self.usual.min(Value::MAX_LEN) + 1)
        }
    }

    fn value(&mut self, alloc: Global) -> Result<Vec<u8>, AllocError> {
        let mut bytes = [0; Value::MAX_LEN];
        let value = &mut bytes[..self.length().min(Value::MAX_LEN)];
        self.dice.fill_bytes(value);
        value.to_vec(alloc)
    }

    fn put<const FAN: usize, const LEVELS: usize>(
        &mut self,
        number: u64,
        value: Vec<u8>,
    ) -> Result<(), Wrong>
        requires { AreSizes FAN LEVELS }
    {
        let free = self.held.free_count();
        if free < NEEDED || self.held.blocks() > self.disk.blocks() {
            return Err(Wrong::Sizes);
        }
        if value.len() > Value::MAX_LEN {
            return Err(Wrong::Sizes);
        }
        let changed = put::<MemDisk, FAN, LEVELS>(
            &mut self.disk,
            &mut self.held,
            self.base.as_ref(),
            self.root,
            key(number),
            value.as_slice(),
        );
        match changed {
            Ok(root) => {
                if self.held.free_count() == free {
                    self.in_place = self.in_place.saturating_add(1);
                }
                self.root = root;
                self.top = self.top.max(root.level);
                if self.plain.insert(number, value).is_err() {
                    return Err(Wrong::Memory);
                }
                Ok(())
            }
            Err(PutFault::Deep) => {
                self.deeps = self.deeps.saturating_add(1);
                let is_longer = match self.plain.get(&number) {
                    Some(before) => before.len() < value.len(),
                    None => true,
                };
                if self.held.free_count() != free || !is_longer {
                    return Err(Wrong::Deep(number));
                }
                Ok(())
            }
            Err(fault) => Err(Wrong::from(fault)),
        }
    }

    fn remove<const FAN: usize, const LEVELS: usize>(&mut self, number: u64) -> Result<(), Wrong>
        requires { AreSizes FAN LEVELS }
    {
        if self.held.free_count() < NEEDED || self.held.blocks() > self.disk.blocks() {
            return Err(Wrong::Sizes);
        }
        let removed = remove::<MemDisk, FAN, LEVELS>(
            &mut self.disk,
            &mut self.held,
            self.base.as_ref(),
            self.root,
            key(number),
        )?;
        if self.plain.remove(&number).is_some() != removed.is_some() {
            return Err(Wrong::Removed(number));
        }
        self.root = removed.unwrap_or(self.root);
        Ok(())
    }

    fn get<'a>(&mut self, number: u64, room: &'a mut Block) -> Result<Option<&'a [u8]>, TreeFault> {
        let blocks = self.disk.blocks();
        get(&mut self.disk, blocks, self.root, key(number), room)
    }

    /// Compares a part of the records, and its first ten.
    fn compare_part(&mut self, alloc: Global, changes: u32) -> Result<(), Wrong> {
        let (low, high) = (self.number(), self.number());
        let blocks = self.disk.blocks();
        let part = scan_part(
            alloc,
            &mut self.disk,
            blocks,
            self.root,
            key(low),
            key(high),
        )?;
        let page = scan_from(alloc, &mut self.disk, blocks, self.root, key(low), 10)?;
        let mut in_part = part.iter();
        let mut in_page = page.iter();
        let mut above = 0_usize;
        for (number, due) in self.plain.iter() {
            if *number < low {
                continue;
            }
            above = above.saturating_add(1);
            let record = (key(*number), due.as_slice());
            if *number <= high && in_part.next() != Some(record) {
                return Err(Wrong::Records(changes));
            }
            if let Some(found) = in_page.next() {
                if found != record {
                    return Err(Wrong::Records(changes));
                }
            }
        }
        if in_part.next().is_some() || page.len() != above.min(10) {
            return Err(Wrong::Records(changes));
        }
        Ok(())
    }

    /// Compares all records, and the values of a hundred keys.
    fn compare(&mut self, alloc: Global, changes: u32) -> Result<(), Wrong> {
        let blocks = self.disk.blocks();
        let records = scan(alloc, &mut self.disk, blocks, self.root)?;
        if records.len() != self.plain.len() {
            return Err(Wrong::Records(changes));
        }
        for ((found, value), (number, due)) in records.iter().zip(self.plain.iter()) {
            if found != key(*number) || value != due.as_slice() {
                return Err(Wrong::Records(changes));
            }
        }
        if changes % 10_000 == 9_999 {
            self.compare_part(alloc, changes)?;
        }
        let mut room = [0; 4096];
        for _ in 0..100 {
            let number = self.number();
            let found = self.get(number, &mut room)?;
            let is_so = match (found, self.plain.get(&number)) {
                (Some(found), Some(due)) => found == due.as_slice(),
                (None, None) => true,
                _ => false,
            };
            if !is_so {
                return Err(Wrong::Got(number));
            }
        }
        Ok(())
    }

    /// The records under the root that stood when the baseline was taken are the same still. Three
    /// times of four a new baseline is taken, and otherwise none.
    fn renew_base(&mut self, alloc: Global, changes: u32) -> Result<(), Wrong> {
        let blocks = self.disk.blocks();
        if let (Some(_), Some(then)) = (&self.base, &self.then) {
            let records = scan(alloc, &mut self.disk, blocks, self.stood)?;
            let is_so = records.len() == then.len()
                && records.iter().zip(then.iter()).all(|(now, due)| now == due);
            if !is_so {
                return Err(Wrong::Changed(changes));
            }
        }
        self.base = None;
        if self.dice.next_u32() % 4 < 3 {
            let mut base = Baseline::new(alloc, self.held.blocks())?;
            if base.blocks() != self.held.blocks() {
                return Err(Wrong::Sizes);
            }
            base.take(&self.held);
            self.base = Some(base);
            self.stood = self.root;
            self.then = Some(scan(alloc, &mut self.disk, blocks, self.root)?);
        }
        Ok(())
    }

    /// Makes the changes, and compares after each thousand.
    fn run<const FAN: usize, const LEVELS: usize>(&mut self, alloc: Global) -> Result<(), Wrong>
        requires { AreSizes FAN LEVELS }
    {
        for change in 0..CHANGES {
            self.let_go()?;
            if change % 2000 == 0 {
                self.renew_base(alloc, change)?;
            }
            let puts = if change / SEASON % 2 == 0 { 3 } else { 1 };
            let number = self.number();
            if self.dice.next_u32() % 4 < puts {
                let value = self.value(alloc)?;
                self.put::<FAN, LEVELS>(number, value)?;
            } else {
                self.remove::<FAN, LEVELS>(number)?;
            }
            if change % 1000 == 999 {
                self.compare(alloc, change)?;
            }
        }
        Ok(())
    }
}

#[test]
fn agrees_at_the_sizes_of_the_store(rt: HostRuntime) -> Result<(), Fail> {
    let mut pair = Pair::new(rt.alloc(), 1, 16_384, 240)?;
    pair.run::<256, 8>(rt.alloc())?;
    let is_so = pair.markings > 0 && pair.in_place > 0 && pair.top == 2 && pair.deeps == 0;
    assert!(rt;
        is_so,
        "{} markings, top {}, {} times Deep",
        pair.markings, pair.top, pair.deeps
    );
    Ok(())
}

#[test]
fn agrees_where_small_blocks_make_a_tree_deep(rt: HostRuntime) -> Result<(), Fail> {
    let mut pair = Pair::new(rt.alloc(), 2, 4_096, 2_000)?;
    pair.run::<3, 8>(rt.alloc())?;
    let is_so = pair.markings > 0 && pair.in_place > 0 && pair.top == 7 && pair.deeps > 0;
    assert!(rt;
        is_so,
        "{} markings, top {}, {} times Deep",
        pair.markings, pair.top, pair.deeps
    );
    Ok(())
}

#[test]
fn agrees_with_few_keys_of_any_length(rt: HostRuntime) -> Result<(), Fail> {
    let mut pair = Pair::new(rt.alloc(), 3, 512, 4_000)?;
    pair.run::<4, 8>(rt.alloc())?;
    let is_so = pair.markings > 0 && pair.in_place > 0 && pair.deeps == 0;
    assert!(rt;
        is_so,
        "{} markings, {} times Deep",
        pair.markings, pair.deeps
    );
    Ok(())
}

//! The records of a leaf that come next, in the leaf's bytes.
ghost use Rattle.std.specs.Prelude.{◌≡◌, ◌≢◌, ◌+◌, ◌<◌, ◌≤◌, [], drop, length, IsTrue, OnOk};
ghost use Rattle.vm_types.specs.Bytes.{longest};
ghost use Rattle.vm_types.specs.Places.{place};
ghost use Rattle.vm_block.specs.Look.{IfRecords};
ghost use Rattle.vm_tree.specs.Calls.{OnlyLooks};
ghost use Rattle.vm_diff.specs.Ahead.{PassedBoth, first_key};
ghost use Rattle.vm_diff.specs.Cuts.{CutAt};
ghost use Rattle.vm_diff.specs.Opened.{HoldsLeaf, IsFirstValue};
ghost use Rattle.vm_diff.specs.Rows.{AreSameRecords, IsSameRecord};

use crate::part::Part;
use std::marker::Model;
use vm_block::{Look, MAX_RECORDS, find_record, record_key, record_value};
use vm_disk::Disk;
use vm_tree::{TreeFault, leaf_into};
use vm_types::{Block, BlockNumber, Key};

/// The records of a leaf from one on, in the leaf's bytes.
#[derive(Drop)]
pub(crate) struct Records {
    bytes: Block,
    /// How many records the leaf has.
    len: usize,
    at: usize,
    count: usize,
}

impl Model for Records {
    ghost use Rattle.std.specs.Prelude.{List, ◌-◌, ◌≤◌};
    ghost use Rattle.vm_block.specs.Leaf.{Record};

    ghost Value = { List Record };

    ghost use Rattle.vm_diff.specs.Rows.{IsLeafTo, records_from};
    ghost use Rattle.vm_block.specs.declared.sizes.TheConstants.{MAX_RECORDS};

    ghost view = { λ r. records_from r.len r.bytes r.at (r.count - r.at) };

    ghost invariant = { λ r. (r.at ≤ r.count) × (r.len ≤ MAX_RECORDS) × IsLeafTo r.len r.bytes r.count };
}

impl Records {
    /// No records.
    pub(crate) fn new() -> Records
        ensures { result ≡ [] }
    {
        Records {
            bytes: [0; 4096],
            len: 0,
            at: 0,
            count: 0,
        }
    }

    /// The key of the next record.
    #[inline(always)]
    pub(crate) fn key(&self) -> Option<Key>
        ensures { result ≡ first_key self.now }
    {
        if self.at < self.count {
            Some(record_key(&self.bytes, self.at))
        } else {
            None
        }
    }

    /// The bytes of the value of the next record.
    pub(crate) fn value(&self) -> &[u8]
        ensures value { IsFirstValue result.now self.now }
        ensures short { length result.now ≤ longest }
    {
        if self.at < self.count {
            record_value(&self.bytes, self.at)
        } else {
            &[]
        }
    }

    /// Passes a record.
    pub(crate) fn pass(&mut self)
        ensures { self.new ≡ drop 1 self.old }
    {
        if self.at < self.count {
            self.at += 1;
        }
    }

    /// Whether no record comes.
    pub(crate) fn is_empty(&self) -> bool
        ensures { IsTrue result → self.now ≡ [] }
    {
        self.at == self.count
    }

    /// Passes the records that both lists begin with.
    pub(crate) fn pass_shared(&mut self, other: &mut Records)
        ensures { PassedBoth self.old other.old self.new other.new }
    {
        let (here, there) = (self.count - self.at, other.count - other.at);
        let most = if here < there { here } else { there };
        let shared = shared_records(&self.bytes, self.at, &other.bytes, other.at, most);
        self.at += shared;
        other.at += shared;
    }

    /// Reads a leaf. Its records of the part come next.
    pub(crate) fn read<D: Disk>(
        &mut self,
        disk: &mut D,
        blocks: u32,
        part: Part,
        block: BlockNumber,
    ) -> Result<(), TreeFault>
        requires { blocks ≤ (D.state disk.old).blocks }
        ensures looks { OnlyLooks result (D.state disk.old) (D.state disk.new) }
        ensures once { (D.state disk.new).reads ≤ (D.state disk.old).reads + 1 }
        ensures few { OnOk result (length self.new ≤ MAX_RECORDS) }
        ensures only { HoldsLeaf result (D.state disk.old) (D.state disk.new)
            blocks (place part.low) (place part.high) block self.new }
    {
        // Until the leaf is read, the bytes may be anything.
        self.at = 0;
        self.count = 0;
        self.len = leaf_into(disk, blocks, block, &mut self.bytes)?;
        let first = first_from(&self.bytes, part.low);
        let end = first_after(&self.bytes, part.high);
        self.at = first;
        self.count = end.max(first);
        Ok(())
    }
}

/// The index of the first record of a leaf at a key or after it.
fn first_from(bytes: &Block, low: Key) -> usize
    ensures few { result ≤ MAX_RECORDS }
    ensures cut { IfRecords bytes.now
        (CutAt result (λ p. p < place low) (λ p. place low ≤ p)) }
{
    match find_record(bytes, low) {
        Look::Found(index) => index,
        Look::Missing(index) => index,
    }
}

/// The index of the first record of a leaf after a key.
fn first_after(bytes: &Block, high: Key) -> usize
    ensures few { result ≤ MAX_RECORDS }
    ensures cut { IfRecords bytes.now
        (CutAt result (λ p. p ≤ place high) (λ p. place high < p)) }
{
    match find_record(bytes, high) {
        Look::Found(index) => index + 1,
        Look::Missing(index) => index,
    }
}

/// How many records from these on are equal in two leaves, at most `most`.
fn shared_records(one: &Block, at: usize, other: &Block, other_at: usize, most: usize) -> usize
    requires here { at + most ≤ MAX_RECORDS }
    requires there { other_at + most ≤ MAX_RECORDS }
    ensures most { result ≤ most }
    ensures same { AreSameRecords one.now at other.now other_at result }
{
    for i in 0..most {
        if !is_same(one, at + i, other, other_at + i) {
            return i;
        }
    }
    most
}

/// Whether two leaves have the same record at these indices.
fn is_same(one: &Block, index: usize, other: &Block, other_index: usize) -> bool
    requires here { index < MAX_RECORDS }
    requires there { other_index < MAX_RECORDS }
    ensures { IsTrue result → IsSameRecord one.now index other.now other_index }
{
    record_key(one, index) == record_key(other, other_index)
        && record_value(one, index) == record_value(other, other_index)
}

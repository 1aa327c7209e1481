//! Keys, values and names, and the expected contents of a block, for the tests of block forms.
use std::process::Abort;
use vm_block::{Placed, first_record, is_leaf, put_record, record_key, record_value, records_len};
use vm_types::{Block, Key, Name, Value};

pub(super) fn key(table: u16, number: u64) -> Key {
    Key { table, number }
}

pub(super) fn name(rt: &impl Abort, bytes: &[u8]) -> Name {
    Name::new(bytes).expect(rt, "a name")
}

/// Whether a block begins with these bytes, and is zero after them.
pub(super) fn is_block(block: &Block, front: &[u8]) -> bool {
    let mut due = [0; 4096];
    if front.len() > 4096 {
        return false;
    }
    due[..front.len()].copy_from_slice(front);
    *block == due
}

/// Whether a block is a leaf of exactly these records.
pub(super) fn is_leaf_of(block: &Block, records: &[(Key, &[u8])]) -> bool {
    if !is_leaf(block) || records_len(block) != records.len() {
        return false;
    }
    for (i, (key, value)) in records.iter().enumerate() {
        if i >= 340 || record_key(block, i) != *key || record_value(block, i) != *value {
            return false;
        }
    }
    true
}

/// Records of table 7: each has a number, and a value of this many bytes of one kind.
pub(super) type Lengths = &'static [(u64, usize)];

/// The byte that the value of this number and length consists of.
pub(super) fn letter(number: u64, len: usize) -> u8 {
    (number.wrapping_add(len as u64) % 251) as u8 + 1
}

/// What becomes of a record that is put into a leaf.
pub(super) fn put_len(rt: &impl Abort, block: &mut Block, number: u64, len: usize) -> Placed {
    assert!(rt; len <= Value::MAX_LEN);
    let value = [letter(number, len); 4000];
    put_record(block, key(7, number), &value[..len])
}

/// The leaf that these records are put into, one after another.
pub(super) fn leaf_of(rt: &impl Abort, lengths: &[(u64, usize)]) -> Block {
    let mut block = [0; 4096];
    let Some(((number, len), others)) = lengths.split_first() else {
        return block;
    };
    assert!(rt; *len <= Value::MAX_LEN);
    let value = [letter(*number, *len); 4000];
    first_record(key(7, *number), &value[..*len], &mut block);
    for (number, len) in others {
        assert!(rt;
            put_len(rt, &mut block, *number, *len) == Placed::Put,
            "{number}"
        );
    }
    block
}

/// The bytes of the leaf of these records: the head, the entries, the values and zeros.
pub(super) fn spelled(lengths: &[(u64, usize)]) -> Block {
    let mut block = [0; 4096];
    let count = lengths.len().min(340);
    let values = 16 + 12 * count;
    block[..4].copy_from_slice(b"LEF3");
    block[8..12].copy_from_slice(&(count as u32).to_le_bytes());
    let mut entry = 16_usize;
    let mut from = values;
    for (number, len) in lengths {
        if entry > 4084 || from > 4096 || *len > 4096 - from {
            return block;
        }
        let to = from + *len;
        let end = to.saturating_sub(values) as u16;
        block[entry] = 7;
        block[entry + 2..entry + 10].copy_from_slice(&number.to_le_bytes());
        block[entry + 10..entry + 12].copy_from_slice(&end.to_le_bytes());
        block[from..to].fill(letter(*number, *len));
        entry += 12;
        from = to;
    }
    block
}

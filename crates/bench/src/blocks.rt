//! How long it takes to put a record into a leaf, and to read one.
use byteorder::{ByteOrder, LittleEndian};
use std::io;
use std::time::{Clock, Instant};
use vm_block::{
    MAX_RECORDS, first_record, is_leaf, put_into, record_key, record_value, records_len,
};
use vm_types::{Block, Key};

const TIMES: u64 = 100_000;

/// How many records of 200 bytes a leaf has room for.
const RECORDS: u64 = 19;

const VALUE: [u8; 200] = [7; 200];

fn key(number: u64) -> Key {
    Key { table: 1, number }
}

/// A leaf of this many records.
fn leaf_of(records: u64) -> Block {
    let mut leaf = [0; 4096];
    let mut old = [0; 4096];
    first_record(key(0), &VALUE, &mut leaf);
    for number in 1..records {
        old.copy_from_slice(&leaf);
        put_into(&old, key(number), &VALUE, &mut leaf);
    }
    leaf
}

/// Looks at each record of a leaf.
fn sum_of(leaf: &Block) -> u64 {
    let mut sum: u64 = 0;
    for index in 0..records_len(leaf).min(MAX_RECORDS) {
        sum = sum.wrapping_add(record_key(leaf, index).number);
        sum = sum.wrapping_add(record_value(leaf, index).len() as u64);
    }
    sum
}

/// Looks at the entries of 19 records, without checking anything but their own bytes.
#[inline(never)]
fn decode(leaf: &Block) -> u64 {
    let mut sum: u64 = 0;
    for index in 0..19 {
        let entry = &leaf[16 + 12 * index..28 + 12 * index];
        sum = sum.wrapping_add(LittleEndian::read_u64(&entry[2..]));
        sum = sum.wrapping_add(u64::from(LittleEndian::read_u16(&entry[10..])));
    }
    sum
}

/// Puts the last record into a leaf, reads the leaf, and decodes it without checking its form, many
/// times.
pub(super) fn measure<R: Print + Clock>(rt: &R) -> io::Result<()> {
    let old = leaf_of(RECORDS - 1);
    let mut leaf = [0; 4096];
    let start = Instant::now(rt)?;
    for _ in 0..TIMES {
        put_into(&old, key(RECORDS - 1), &VALUE, &mut leaf);
    }
    let written = start.elapsed(rt)?;
    println!(rt; "put_into: {} ns for {TIMES}", written.as_nanos())?;

    let mut read: u64 = 0;
    let start = Instant::now(rt)?;
    for _ in 0..TIMES {
        if is_leaf(&leaf) {
            read = read.wrapping_add(sum_of(&leaf));
        }
    }
    let spent = start.elapsed(rt)?;
    println!(rt;
        "is_leaf and its records: {} ns for {TIMES} (sum {read})",
        spent.as_nanos()
    )?;

    let mut decoded: u64 = 0;
    let start = Instant::now(rt)?;
    for _ in 0..TIMES {
        decoded = decoded.wrapping_add(decode(&leaf));
    }
    let spent = start.elapsed(rt)?;
    println!(rt;
        "plain decode: {} ns for {TIMES} (sum {decoded})",
        spent.as_nanos()
    )
}

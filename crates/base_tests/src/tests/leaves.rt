//! Leaves: their bytes, bytes that are not one, and a record put into one or removed.
use super::spelled::{is_block, is_leaf_of, key};
use std::process::Abort;
use vm_block::{
    Look, Placed, Taken, find_record, first_record, is_leaf, lowest_key, node_size, put_into,
    put_record, read_node, record_key, record_value, records_len, remove_record,
};
use vm_types::Block;

/// The bytes of a leaf of three records: an entry for each, which ends with where its value ends
/// among the values, and then the values.
const THREE: &[u8; 60] = b"LEF3\0\0\0\0\x03\0\0\0\0\0\0\0\
    \x07\0\x01\0\0\0\0\0\0\0\x04\0\
    \x07\0\x02\0\0\0\0\0\0\0\x04\0\
    \x08\0\0\0\0\0\0\0\0\0\x08\0\
    ductpipe";

/// The block that begins with them.
fn three() -> Block {
    let mut block = [0; 4096];
    block[..60].copy_from_slice(THREE);
    block
}

#[test]
fn leaf_is_spelled_and_read(rt: HostRuntime) {
    let mut block = [7; 4096];
    first_record(key(7, 1), b"duct", &mut block);
    let due = b"LEF3\0\0\0\0\x01\0\0\0\0\0\0\0\x07\0\x01\0\0\0\0\0\0\0\x04\0duct";
    assert!(rt; is_block(&block, due));
    assert!(rt; is_leaf(&block));
    assert!(rt; read_node(&block).is_none());
    assert!(rt; node_size(&block).is_none());
    assert!(rt; records_len(&block) == 1);
    assert!(rt; record_key(&block, 0) == key(7, 1));
    assert!(rt; record_value(&block, 0) == b"duct".as_slice());
    assert!(rt; lowest_key(&block) == key(7, 1));

    // Values stand behind the entries.
    let mut block = [7; 4096];
    first_record(key(8, 0), b"pipe", &mut block);
    assert!(rt; put_record(&mut block, key(7, 1), b"duct") == Placed::Put);
    assert!(rt; put_record(&mut block, key(7, 2), b"") == Placed::Put);
    assert!(rt; block == three());
    let records = [
        (key(7, 1), b"duct".as_slice()),
        (key(7, 2), b"".as_slice()),
        (key(8, 0), b"pipe".as_slice()),
    ];
    assert!(rt; is_leaf_of(&block, &records));
}

#[test]
fn record_is_found_by_its_key(rt: HostRuntime) {
    for (table, number, due) in [
        (0, 0, Look::Missing(0)),
        (7, 0, Look::Missing(0)),
        (7, 1, Look::Found(0)),
        (7, 2, Look::Found(1)),
        (7, 3, Look::Missing(2)),
        (8, 0, Look::Found(2)),
        (8, 1, Look::Missing(3)),
    ] {
        assert!(rt;
            find_record(&three(), key(table, number)) == due,
            "{table}:{number}"
        );
    }
    let zeros = [0; 4096];
    assert!(rt; find_record(&zeros, key(0, 0)) == Look::Missing(0));
    assert!(rt; records_len(&zeros) == 0);
}

/// Whether the leaf of three records is no longer one with this byte at this offset.
fn is_refused_with(rt: &impl Abort, at: usize, byte: u8) -> bool {
    let mut block = three();
    assert!(rt; at < 4096);
    block[at] = byte;
    !is_leaf(&block)
}

/// Whether a leaf of one value of 4,000 bytes is one with this length.
fn is_leaf_with(len: u16) -> bool {
    let mut block = [0; 4096];
    first_record(key(7, 1), &[b'a'; 4000], &mut block);
    block[26..28].copy_from_slice(&len.to_le_bytes());
    is_leaf(&block)
}

#[test]
fn bytes_that_are_no_leaf_are_refused(rt: HostRuntime) {
    assert!(rt; !is_refused_with(&rt, 52, b'D'), "another value");
    assert!(rt; !is_refused_with(&rt, 50, 9), "a last value with a zero");
    for (at, byte, why) in [
        (0, b'N', "other letters"),
        (3, b'2', "the letters of an earlier form"),
        (4, 1, "a level"),
        (8, 0, "no record"),
        (8, 2, "a record fewer"),
        (8, 4, "a record more"),
        (9, 2, "too many records"),
        (12, 1, "a byte of the head"),
        (15, 1, "the last byte of the head"),
        (26, 5, "a value that ends behind the next one"),
        (38, 3, "a value that ends before the one before it"),
        (50, 3, "a last value that ends before the one before it"),
        (50, 7, "a byte behind the values"),
        (51, 16, "a value that ends behind the block"),
        (30, 1, "a key twice"),
        (16, 9, "keys that fall"),
        (60, 1, "a byte behind the last value"),
        (4095, 1, "the last byte"),
    ] {
        assert!(rt; is_refused_with(&rt, at, byte), "{why}");
    }
    // A value has up to 4,000 bytes.
    assert!(rt; is_leaf_with(4000));
    assert!(rt; !is_leaf_with(4001), "a byte more");
    assert!(rt; !is_leaf_with(3999), "a byte behind the value");
    assert!(rt; !is_leaf_with(4069), "a value that ends behind the block");
}

/// Whether the leaf has this value at table 7 and this number.
fn is_found(block: &Block, number: u64, due: &[u8]) -> bool {
    match find_record(block, key(7, number)) {
        Look::Found(index) => index < 340 && record_value(block, index) == due,
        Look::Missing(_) => false,
    }
}

#[test]
fn record_is_put_where_it_belongs(rt: HostRuntime) {
    let mut block = [0; 4096];
    first_record(key(7, 5), b"duct", &mut block);
    for (number, value) in [(9, b"pipe"), (1, b"wall"), (5, b"beam")] {
        assert!(rt;
            put_record(&mut block, key(7, number), value) == Placed::Put,
            "{number}"
        );
    }
    let records = [
        (key(7, 1), b"wall".as_slice()),
        (key(7, 5), b"beam".as_slice()),
        (key(7, 9), b"pipe".as_slice()),
    ];
    assert!(rt; is_leaf_of(&block, &records));
    assert!(rt; lowest_key(&block) == key(7, 1));
    assert!(rt; is_found(&block, 9, b"pipe"));
    assert!(rt; find_record(&block, key(7, 8)) == Look::Missing(2));

    // A copy has the record, and the leaf is as it was.
    let old = three();
    let mut new = [7; 4096];
    assert!(rt; put_into(&old, key(7, 2), b"trench", &mut new) == Placed::Put);
    let records = [
        (key(7, 1), b"duct".as_slice()),
        (key(7, 2), b"trench".as_slice()),
        (key(8, 0), b"pipe".as_slice()),
    ];
    assert!(rt; is_leaf_of(&new, &records));
    assert!(rt; old == three());
    let before = new;
    let mut full = [0; 4096];
    first_record(key(7, 1), &[b'a'; 4000], &mut full);
    assert!(rt; put_into(&full, key(7, 2), &[b'b'; 57], &mut new) == Placed::TooBig);
    assert!(rt; new == before, "nothing was written");
}

#[test]
fn record_is_removed_where_another_is_left(rt: HostRuntime) {
    let mut block = three();
    assert!(rt; remove_record(&mut block, key(7, 3)) == Taken::Absent);
    assert!(rt;
        block == three(),
        "the leaf without such a record is as it was"
    );
    assert!(rt; remove_record(&mut block, key(7, 1)) == Taken::Out);
    let records = [(key(7, 2), b"".as_slice()), (key(8, 0), b"pipe".as_slice())];
    assert!(rt; is_leaf_of(&block, &records));
    assert!(rt; remove_record(&mut block, key(8, 0)) == Taken::Out);
    let due = b"LEF3\0\0\0\0\x01\0\0\0\0\0\0\0\x07\0\x02";
    assert!(rt; is_block(&block, due));
    assert!(rt; remove_record(&mut block, key(7, 2)) == Taken::Last);
    assert!(rt; is_block(&block, due), "the last record stays");
}

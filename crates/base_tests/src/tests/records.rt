//! Packed lists of records, as they are filled and read.
use super::spelled::key;
use std::alloc::{AllocError, Global};
use std::process::Abort;
use std::test::Fail;
use vm_types::{Key, Records, Value};

/// Values of 0, 4,000 and 4 bytes, and then an empty one.
fn some_records(alloc: Global) -> Result<Records, AllocError> {
    let mut records = Records::new(alloc);
    records.push(key(1, 9), b"")?;
    records.push(key(1, 10), &[7; 4000])?;
    records.push(key(2, 0), b"duct")?;
    records.push(key(2, 3), b"")?;
    Ok(records)
}

/// The record of these bytes.
fn record(key: Key, bytes: &[u8]) -> (Key, Value) {
    (key, Value::new(bytes).unwrap_or_default())
}

/// The expected list.
fn due_records() -> [(Key, Value); 4] {
    [
        record(key(1, 9), b""),
        record(key(1, 10), &[7; 4000]),
        record(key(2, 0), b"duct"),
        record(key(2, 3), b""),
    ]
}

/// Record `i` must be this one, by its parts and as a whole.
fn expect_record(rt: &impl Abort, records: &Records, i: usize, due: (Key, Value)) {
    assert!(rt; i < records.len(), "no record {i}");
    assert_eq!(rt; records.key(i), due.0, "record {i}");
    assert!(rt; records.value(i) == due.1.as_bytes(), "record {i}");
    assert!(rt; records.at(i) == Some(due), "record {i}, whole");
}

/// How many records the walk passes until one is not the expected one.
fn walked(records: &Records, due: &[(Key, Value)]) -> usize {
    let mut walked = 0;
    for (key, value) in records {
        if due.get(walked).copied() != Some(record(key, value)) {
            return walked;
        }
        walked += 1;
    }
    walked
}

#[test]
fn list_of_an_empty_value_is_not_empty(rt: HostRuntime) -> Result<(), Fail> {
    let mut records = Records::new(rt.alloc());
    assert!(rt; records.is_empty());
    assert_eq!(rt; records.len(), 0);
    assert!(rt; records.at(0).is_none());
    assert!(rt; records.to_vec(rt.alloc())?.is_empty());
    records.push(key(0, 0), b"")?;
    assert!(rt; !records.is_empty());
    assert_eq!(rt; records.len(), 1);
    expect_record(&rt, &records, 0, record(key(0, 0), b""));
    Ok(())
}

#[test]
fn records_are_given_walked_and_copied_in_the_order_of_the_pushes(
    rt: HostRuntime,
) -> Result<(), Fail> {
    let records = some_records(rt.alloc())?;
    for (i, due) in due_records().iter().enumerate() {
        expect_record(&rt, &records, i, *due);
    }
    assert_eq!(rt; records.len(), 4);
    assert!(rt; records.at(4).is_none());
    assert_eq!(rt; walked(&records, &due_records()), 4);
    let list = records.to_vec(rt.alloc())?;
    assert!(rt; list.as_slice() == due_records().as_slice());
    Ok(())
}

//! The head of a slot and its entries, byte for byte, and bytes that are not one.
use super::spelled::name;
use std::process::Abort;
use vm_block::{Entry, Kind, SlotHead, read_entry, read_slot_head, write_entry, write_slot_head};

/// The head of a slot with one entry, in a store of 64 blocks.
const HEAD: SlotHead = SlotHead {
    blocks: 64,
    entries: 1,
};

/// Whether the head of a slot is no longer one with this byte at this offset.
fn head_is_refused_with(at: usize, byte: u8) -> bool {
    let mut bytes = [0; 128];
    write_slot_head(HEAD, &mut bytes);
    if at >= 128 {
        return false;
    }
    bytes[at] = byte;
    read_slot_head(&bytes).is_none()
}

#[test]
fn head_of_a_slot_is_spelled_read_and_refused(rt: HostRuntime) {
    let mut bytes = [7; 128];
    write_slot_head(HEAD, &mut bytes);
    let mut due = [0; 128];
    due[..16].copy_from_slice(b"SLOT\x03\0\0\0\x40\0\0\0\x01\0\0\0");
    assert!(rt; bytes == due);
    assert_eq!(rt; read_slot_head(&bytes), Some(HEAD));

    assert!(rt; !head_is_refused_with(13, 1), "257 entries");
    for (at, byte, why) in [
        (0, b'L', "other letters"),
        (4, 0, "format 0"),
        (4, 1, "format 1"),
        (4, 2, "format 2"),
        (4, 4, "format 4"),
        (5, 1, "format 259"),
        (8, 63, "too few blocks"),
        (11, 4, "too many blocks"),
        (12, 0, "no entry"),
        (13, 2, "too many entries"),
        (16, 1, "a byte behind the numbers"),
        (127, 1, "the last byte"),
    ] {
        assert!(rt; head_is_refused_with(at, byte), "{why}");
    }
}

/// Whether the entry of the checkpoint `now` of `top` is no longer one with this byte at this
/// offset.
fn entry_is_refused_with(rt: &impl Abort, at: usize, byte: u8) -> bool {
    let entry = Entry {
        kind: Kind::Checkpoint,
        name: name(rt, b"now"),
        owner: Some(name(rt, b"top")),
        current: 34,
        base: 0,
    };
    let mut bytes = [0; 128];
    write_entry(&entry, &mut bytes);
    if at >= 128 {
        return false;
    }
    bytes[at] = byte;
    read_entry(&bytes).is_none()
}

#[test]
fn entry_is_spelled_read_and_refused(rt: HostRuntime) {
    let entry = Entry {
        kind: Kind::Alternative,
        name: name(&rt, b"top"),
        owner: None,
        current: 34,
        base: 0,
    };
    let mut bytes = [7; 128];
    write_entry(&entry, &mut bytes);
    let mut due = [0; 128];
    due[..5].copy_from_slice(b"A\x03top");
    due[67] = 0x22;
    assert!(rt; bytes == due);
    assert_eq!(rt; read_entry(&bytes), Some(entry));

    assert!(rt; !entry_is_refused_with(&rt, 0, b'A'), "an alternative");
    for (at, byte, why) in [
        (0, b'B', "another tag"),
        (1, 0, "a name without bytes"),
        (1, 33, "a long name"),
        (1, 2, "a byte behind a name"),
        (2, b' ', "a byte that stands in no name"),
        (33, b'x', "the last byte behind a name"),
        (34, 0, "bytes behind no owner"),
        (34, 33, "a long owner"),
        (35, 0, "a byte that stands in no owner"),
        (75, 1, "a byte behind the roots"),
        (127, 1, "the last byte"),
    ] {
        assert!(rt; entry_is_refused_with(&rt, at, byte), "{why}");
    }
}

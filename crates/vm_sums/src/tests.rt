//! Sums that an implementation of XXH64 which shares no code gave (Debian's `python3-xxhash`), and a disk with sums over
//! one in memory.
use crate::{SummedDisk, exchange_sum, hash};
use std::process::Abort;
use std::test::Fail;
use vm_disk::{Disk, MemDisk};
use vm_types::Block;

/// Byte i is (7 * i + i / 256) mod 251.
fn pattern() -> Block {
    let mut block = [0; 4096];
    for i in 0..4096 {
        block[i] = ((7 * i + i / 256) % 251) as u8;
    }
    block
}

#[test]
fn hashes_are_those_of_xxhash(rt: HostRuntime) -> Result<(), Fail> {
    assert_eq!(rt; hash(&[0; 4096]), 0xac86_9b6f_32d8_bbdb);
    assert_eq!(rt; hash(&pattern()), 0xe2f2_a867_2e38_9edf);
    Ok(())
}

/// Block n, where these bytes have been exchanged, from byte 12 and from byte 124 on.
fn assert_exchanged(rt: &impl Abort, n: u32, bytes: &Block, from_12: [u8; 4], from_124: [u8; 4]) {
    let mut block = *bytes;
    exchange_sum(n, &mut block);
    assert!(rt; block[12..16].starts_with(&from_12), "block {n}");
    assert!(rt; block[124..128].starts_with(&from_124), "block {n}");
    exchange_sum(n, &mut block);
    assert!(rt; block == *bytes, "block {n}");
}

#[test]
fn sums_stand_in_slots_and_data_blocks(rt: HostRuntime) -> Result<(), Fail> {
    let zero = [0; 4096];
    assert_exchanged(&rt, 1, &zero, [0; 4], [0; 4]);
    assert_exchanged(&rt, 2, &zero, [0; 4], [0x6b, 0x32, 0x49, 0x3b]);
    assert_exchanged(&rt, 33, &zero, [0; 4], [0x33, 0x1d, 0x91, 0x15]);
    assert_exchanged(&rt, 34, &zero, [0xca, 0x77, 0xe8, 0x92], [0; 4]);
    assert_exchanged(&rt, 1_048_575, &zero, [0x36, 0x4d, 0xcf, 0xc1], [0; 4]);
    let other = [0x73, 0x7a, 0x81, 0x88];
    assert_exchanged(&rt, 34, &pattern(), [0x5b, 0xfd, 0xe5, 0xb4], other);
    Ok(())
}

/// The bytes of block n, which can be read.
fn read(rt: &impl Abort, disk: &mut impl Disk, n: u32) -> Block {
    assert!(rt; n < disk.blocks());
    let mut bytes = [0; 4096];
    assert!(rt; disk.read(n, &mut bytes).is_ok());
    bytes
}

/// Writes block n.
fn write(rt: &impl Abort, disk: &mut impl Disk, n: u32, bytes: &Block) {
    assert!(rt; n < disk.blocks());
    assert!(rt; disk.write(n, bytes).is_ok());
}

#[test]
fn other_bytes_and_other_blocks_show_a_sum(rt: HostRuntime) -> Result<(), Fail> {
    let zero = [0; 4096];
    let mut above = SummedDisk::new(MemDisk::new(rt.alloc(), 40)?);
    write(&rt, &mut above, 34, &zero);
    assert!(rt; read(&rt, &mut above, 34) == zero);

    let mut below = above.into_inner();
    let written = read(&rt, &mut below, 34);
    assert!(rt; written[12..16].starts_with(&[0xca, 0x77, 0xe8, 0x92]));
    let mut turned = written;
    turned[4095] = 1;
    write(&rt, &mut below, 34, &turned);
    write(&rt, &mut below, 35, &written);

    let mut again = SummedDisk::new(below);
    for n in [34, 35] {
        let shown = read(&rt, &mut again, n);
        assert!(rt; !shown[12..16].starts_with(&[0; 4]), "block {n}");
    }
    Ok(())
}

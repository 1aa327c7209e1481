//! Header and selector, byte for byte.
use super::spelled::is_block;
use vm_block::{
    SlotName, is_earlier_header, is_header, read_selector, write_header, write_selector,
};

#[test]
fn header_is_spelled_and_read(rt: HostRuntime) {
    let mut block = [7; 4096];
    write_header(&mut block);
    assert!(rt; is_block(&block, b"ALTSTORE\x03\0\0\0\0\x10\0\0"));
    assert!(rt; is_header(&block));
    block[4095] = 1;
    assert!(rt; !is_header(&block), "a byte behind it");
    block[8] = 1;
    assert!(rt; !is_earlier_header(&block), "a byte behind an earlier one");
    block[8] = 3;
    block[4095] = 0;
    assert!(rt; is_header(&block) && !is_earlier_header(&block));
    for (number, is_earlier) in [(0, false), (1, true), (2, true), (4, false)] {
        block[8] = number;
        assert!(rt; !is_header(&block), "format {number}");
        assert!(rt; is_earlier_header(&block) == is_earlier, "format {number}");
    }
}

#[test]
fn selector_is_its_lowest_bit(rt: HostRuntime) {
    let mut block = [7; 4096];
    write_selector(SlotName::B, &mut block);
    assert!(rt; is_block(&block, b"\x01"));
    assert_eq!(rt; read_selector(&block), SlotName::B);
    write_selector(SlotName::A, &mut block);
    assert!(rt; is_block(&block, b""));
    assert_eq!(rt; read_selector(&block), SlotName::A);
    block[0] = 0xfe;
    block[1] = 0xff;
    assert_eq!(rt; read_selector(&block), SlotName::A, "even");
    block[0] = 0xff;
    assert_eq!(rt; read_selector(&block), SlotName::B, "odd");
}

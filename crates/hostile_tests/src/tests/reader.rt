//! A second reader of stores, written from the description of their blocks alone: slow, and with
//! nothing in common with the code that opens them.
use super::BLOCKS;
use super::image::Image;
use std::alloc::Global;
use vm_types::{Block, Key, Value};

/// The first data block.
const FIRST_DATA: u32 = 34;

/// The length of a name, its bytes, and zero bytes after it.
type Label = [u8; 33];

/// The maximum length of a value in bytes.
const LONGEST: usize = 4000;

/// An entry of a slot.
#[derive(Clone, Copy)]
struct Found {
    tag: u8,
    name: Label,
    owner: Label,
    current: u32,
    base: u32,
}

/// A block of a tree: its lowest key, if that is known, and a key above all of its keys.
#[derive(Clone, Copy)]
struct Part {
    block: u32,
    low: Option<Key>,
    above: Option<Key>,
}

/// What a store's disk holds: the blocks of its trees, each once, and the records of `top`.
#[derive(Drop)]
pub struct Content {
    pub blocks: Vec<u32>,
    pub records: Vec<(Key, Value)>,
}

fn byte(bytes: &Block, at: usize) -> u8 {
    bytes.get(at).copied().unwrap_or(0xFF)
}

/// The number in this many bytes.
fn number(bytes: &Block, at: usize, width: usize) -> u64 {
    let mut number: u64 = 0;
    for i in 0..width {
        let place = at.wrapping_add(width).wrapping_sub(i).wrapping_sub(1);
        number = number
            .wrapping_mul(256)
            .wrapping_add(u64::from(byte(bytes, place)));
    }
    number
}

fn word(bytes: &Block, at: usize) -> u32 {
    u32::try_from(number(bytes, at, 4)).unwrap_or(u32::MAX)
}

fn are_zero(bytes: &Block, from: usize, to: usize) -> bool {
    for at in from..to {
        if byte(bytes, at) != 0 {
            return false;
        }
    }
    true
}

fn starts_with(bytes: &Block, start: &[u8]) -> bool {
    for (i, due) in start.iter().enumerate() {
        if byte(bytes, i) != *due {
            return false;
        }
    }
    true
}

fn key_at(bytes: &Block, at: usize) -> Key {
    Key {
        table: u16::try_from(number(bytes, at, 2)).unwrap_or(u16::MAX),
        number: number(bytes, at.wrapping_add(2), 8),
    }
}

/// Whether the keys at every `width` bytes from byte 16 on rise, lie below the bound, and begin
/// with the lowest.
fn have_keys(bytes: &Block, count: usize, width: usize, part: Part) -> bool {
    let mut before: Option<Key> = None;
    for i in 0..count {
        let key = key_at(bytes, i.wrapping_mul(width).wrapping_add(16));
        let rises = match before {
            Some(before) => before < key,
            None => true,
        };
        let is_low = match part.low {
            Some(low) => i > 0 || low == key,
            None => true,
        };
        let is_below = match part.above {
            Some(above) => key < above,
            None => true,
        };
        if !rises || !is_low || !is_below {
            return false;
        }
        before = Some(key);
    }
    true
}

/// Whether the bytes are the head of a block of a tree of this level, with keys for this many
/// records or children.
fn is_framed(bytes: &Block, level: u32, count: usize, part: Part) -> bool {
    let (letters, most, width): (&[u8], usize, usize) = if level > 0 {
        (b"NODE", 256, 14)
    } else {
        (b"LEF3", 340, 12)
    };
    starts_with(bytes, letters)
        && word(bytes, 4) == level
        && count >= 1
        && count <= most
        && word(bytes, 12) == 0
        && have_keys(bytes, count, width, part)
}

/// Adds the records of a leaf. Each entry says where its value ends, counted from the end of the
/// entries, and after the last value all bytes are zero.
fn read_records(bytes: &Block, count: usize, content: &mut Content) -> Option<()> {
    let values = count.wrapping_mul(12).wrapping_add(16);
    let mut from = values;
    for i in 0..count {
        let at = i.wrapping_mul(12).wrapping_add(16);
        let end = number(bytes, at.wrapping_add(10), 2) as usize;
        let to = values.wrapping_add(end);
        if to < from || to.wrapping_sub(from) > LONGEST {
            return None;
        }
        let value = Value::new(bytes.get(from..to)?)?;
        content.records.push((key_at(bytes, at), value)).ok()?;
        from = to;
    }
    are_zero(bytes, from, 4096).then_some(())
}

/// Adds the children of an inner block. Each one's keys lie below the lowest one of the next.
/// Behind them all bytes are zero.
fn read_children(
    bytes: &Block,
    count: usize,
    above: Option<Key>,
    parts: &mut Vec<Part>,
) -> Option<()> {
    for i in 0..count {
        let at = i.wrapping_mul(14).wrapping_add(16);
        let next = at.wrapping_add(14);
        let part = Part {
            block: word(bytes, at.wrapping_add(10)),
            low: Some(key_at(bytes, at)),
            above: if i.wrapping_add(1) < count {
                Some(key_at(bytes, next))
            } else {
                above
            },
        };
        parts.push(part).ok()?;
    }
    are_zero(bytes, count.wrapping_mul(14).wrapping_add(16), 4096).then_some(())
}

fn add_block(blocks: &mut Vec<u32>, block: u32) -> Option<()> {
    if !blocks.contains(&block) {
        blocks.push(block).ok()?;
    }
    Some(())
}

/// Reads the blocks of one level. Returns those of the level below.
fn read_level(
    alloc: Global,
    image: &Image,
    level: u32,
    parts: &[Part],
    content: &mut Content,
) -> Option<Vec<Part>> {
    let mut below = Vec::new(alloc);
    for part in parts {
        if part.block < FIRST_DATA || part.block >= BLOCKS {
            return None;
        }
        let bytes = image.block(part.block);
        let count = word(&bytes, 8) as usize;
        if !is_framed(&bytes, level, count, *part) {
            return None;
        }
        add_block(&mut content.blocks, part.block)?;
        if level == 0 {
            read_records(&bytes, count, content)?;
        } else {
            read_children(&bytes, count, part.above, &mut below)?;
        }
    }
    Some(below)
}

/// Reads the tree under a root. Its records become those of the content.
fn read_tree(alloc: Global, image: &Image, root: u32, content: &mut Content) -> Option<()> {
    content.records.clear();
    if root == 0 {
        return Some(());
    }
    let levels = word(&image.block(root), 4);
    if levels > 7 {
        return None;
    }
    let mut parts = Vec::new(alloc);
    let block = root;
    let (low, above) = (None, None);
    parts.push(Part { block, low, above }).ok()?;
    for depth in 0..=levels {
        let level = levels.saturating_sub(depth);
        parts = read_level(alloc, image, level, &parts, content)?;
    }
    Some(())
}

/// The name at an offset, if it is a name or empty.
fn label_at(bytes: &Block, at: usize) -> Option<Label> {
    let length = byte(bytes, at);
    let mut label = [0; 33];
    for (i, place) in label.iter_mut().enumerate() {
        let byte = byte(bytes, at.wrapping_add(i));
        let is_letter = byte.is_ascii_alphanumeric() || matches!(byte, b'_' | b'-' | b'.');
        if i > 0
            && (if i > length as usize {
                byte != 0
            } else {
                !is_letter
            })
        {
            return None;
        }
        *place = byte;
    }
    (length <= 32).then_some(label)
}

/// The entry at an offset.
fn entry_at(bytes: &Block, at: usize) -> Option<Found> {
    let found = Found {
        tag: byte(bytes, at),
        name: label_at(bytes, at.wrapping_add(1))?,
        owner: label_at(bytes, at.wrapping_add(34))?,
        current: word(bytes, at.wrapping_add(67)),
        base: word(bytes, at.wrapping_add(71)),
    };
    let is_whole = are_zero(bytes, at.wrapping_add(75), at.wrapping_add(128));
    (is_whole && found.name[0] > 0).then_some(found)
}

fn label(name: &[u8]) -> Label {
    let mut label = [0; 33];
    label[0] = u8::try_from(name.len()).unwrap_or(0);
    for (place, byte) in label.iter_mut().skip(1).zip(name) {
        *place = *byte;
    }
    label
}

/// Whether an entry may follow these.
fn fits(found: Found, before: &[Found]) -> bool {
    let top = label(b"top");
    if before.is_empty() {
        return found.tag == b'A' && found.name == top && found.owner[0] == 0 && found.base == 0;
    }
    let (mut owned, mut is_new) = (false, true);
    for other in before {
        owned = owned || other.tag == b'A' && other.name == found.owner;
        let is_same = other.tag == found.tag
            && other.name == found.name
            && (found.tag == b'A' || other.owner == found.owner);
        is_new = is_new && !is_same;
    }
    match found.tag {
        b'A' => owned && is_new,
        b'C' => owned && is_new && (found.owner != top || found.base == 0),
        _ => false,
    }
}

/// The entries of the slot in use.
fn read_slot(alloc: Global, image: &Image) -> Option<Vec<Found>> {
    let odd = byte(&image.block(1), 0) % 2 == 1;
    let first: u32 = if odd { 18 } else { 2 };
    let head = image.block(first);
    let count = word(&head, 12);
    let is_head = starts_with(&head, b"SLOT\x03\0\0\0") && are_zero(&head, 16, 128);
    if !is_head || word(&head, 8) != BLOCKS || count == 0 || count > 511 {
        return None;
    }
    let mut entries = Vec::new(alloc);
    for i in 1..=count {
        let bytes = image.block(first.wrapping_add(i / 32));
        let found = entry_at(&bytes, (i % 32) as usize * 128)?;
        if !fits(found, &entries) {
            return None;
        }
        entries.push(found).ok()?;
    }
    Some(entries)
}

fn is_header(bytes: &Block) -> bool {
    starts_with(bytes, b"ALTSTORE\x03\0\0\0\0\x10\0\0") && are_zero(bytes, 16, 4096)
}

/// What the store of a disk holds, if there is one with as many blocks as the disk.
pub(super) fn read_store(alloc: Global, image: &Image) -> Option<Content> {
    if !is_header(&image.block(0)) {
        return None;
    }
    let mut content = Content {
        blocks: Vec::new(alloc),
        records: Vec::new(alloc),
    };
    for entry in read_slot(alloc, image)?.iter().rev() {
        read_tree(alloc, image, entry.base, &mut content)?;
        read_tree(alloc, image, entry.current, &mut content)?;
    }
    Some(content)
}

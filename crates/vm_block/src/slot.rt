//! A slot: the list of alternatives and checkpoints, each with the roots of its records.
ghost use Rattle.std.specs.Prelude.{◌≡◌, ℕ, ◌≤◌, ◌++◌, ◌∷◌, ◌↔◌, IsTrue, List, length, take, drop, Option, IfSome, IsSomeAnd};
ghost use Rattle.vm_types.specs.Name.{IsName};
ghost use Rattle.vm_block.specs.declared.slot.Entry.{Entry};
ghost use Rattle.vm_block.specs.declared.slot.Kind.{Kind};
ghost use Rattle.vm_block.specs.Slot.{tag_of, name_bytes, owner_bytes, entry_bytes, EntryFits, IsEntry, head_bytes, HeadFits, IsHead};

use crate::bytes::put;
use crate::header::FORMAT;
use byteorder::{ByteOrder, LittleEndian};
use vm_types::{MAX_BLOCKS, MAX_VERSIONS, MIN_BLOCKS, Name};

/// What an entry of a slot represents.
#[derive(Clone, Copy, Debug, PartialEq, Eq)]
pub enum Kind {
    Alternative,
    Checkpoint,
}

/// An alternative or a checkpoint, with the roots of its current and its base records.
#[derive(Clone, Copy, Debug, PartialEq, Eq)]
pub struct Entry {
    pub kind: Kind,
    pub name: Name,
    /// The parent of an alternative, or the alternative of a checkpoint.
    pub owner: Option<Name>,
    pub current: u32,
    pub base: u32,
}

/// The head of a slot.
#[derive(Clone, Copy, Debug, PartialEq, Eq)]
pub struct SlotHead {
    /// How many blocks the store has.
    pub blocks: u32,
    /// How many entries follow the head.
    pub entries: u32,
}

impl SlotHead {
    /// Whether a store may have this many blocks, and a slot this many entries.
    fn fits(self) -> bool
        ensures { IsTrue result ↔ HeadFits self.blocks self.entries }
    {
        (MIN_BLOCKS..=MAX_BLOCKS).contains(&self.blocks)
            && (1..=MAX_VERSIONS as u32).contains(&self.entries)
    }
}

/// Writes the head of a slot into the first 128 bytes.
pub fn write_slot_head(head: SlotHead, out: &mut [u8])
    requires { 128 ≤ length out.old }
    ensures { out.new ≡ head_bytes head.blocks head.entries ++ drop 128 out.old }
{
    put(b"SLOT", out);
    LittleEndian::write_u32(&mut out[4..], FORMAT);
    LittleEndian::write_u32(&mut out[8..], head.blocks);
    LittleEndian::write_u32(&mut out[12..], head.entries);
    put(&[0; 112], &mut out[16..]);
}

/// The head of a slot, if the bytes are one.
pub fn read_slot_head(bytes: &[u8]) -> Option<SlotHead>
    requires { length bytes.now ≡ 128 }
    ensures found { IfSome result (λ head. IsHead bytes.now head.blocks head.entries) }
    ensures only { (limit n : ℕ) → IsHead bytes.now limit n
        → IsSomeAnd result (λ head. (head.blocks ≡ limit) × (head.entries ≡ n)) }
{
    let head = SlotHead {
        blocks: LittleEndian::read_u32(&bytes[8..]),
        entries: LittleEndian::read_u32(&bytes[12..]),
    };
    if !head.fits() {
        return None;
    }
    let mut again = [0; 128];
    write_slot_head(head, &mut again);
    if bytes[..] == again[..] {
        Some(head)
    } else {
        None
    }
}

fn write_name(name: &Name, out: &mut [u8])
    requires { 33 ≤ length out.old }
    ensures { out.new ≡ name_bytes name.now ++ drop 33 out.old }
{
    put(&[name.as_bytes().len() as u8], out);
    put(name.padded(), &mut out[1..]);
}

fn write_owner(owner: Option<Name>, out: &mut [u8])
    requires { 33 ≤ length out.old }
    ensures { out.new ≡ owner_bytes owner ++ drop 33 out.old }
{
    match owner {
        Some(name) => write_name(&name, out),
        None => put(&[0; 33], out),
    }
}

/// The name in the first 33 bytes, whatever follows it there.
fn read_name(bytes: &[u8]) -> Option<Name>
    requires { 33 ≤ length bytes.now }
    ensures found { IfSome result IsName }
    ensures only { (name rest : List ℕ) → IsName name → bytes.now ≡ name_bytes name ++ rest → result ≡ Some name }
{
    let len = bytes[0] as usize;
    if len > Name::MAX_LEN {
        return None;
    }
    Name::new(&bytes[1..1 + len])
}

/// The owner in the first 33 bytes, whatever follows it there. Some(None) if there is no owner.
fn read_owner(bytes: &[u8]) -> Option<Option<Name>>
    requires { 33 ≤ length bytes.now }
    ensures found { IfSome result (λ owner. IfSome owner IsName) }
    ensures only { (owner : Option (List ℕ)) (rest : List ℕ) → IfSome owner IsName → bytes.now ≡ owner_bytes owner ++ rest → result ≡ Some owner }
{
    if bytes[0] == 0 {
        return Some(None);
    }
    match read_name(bytes) {
        Some(name) => Some(Some(name)),
        None => None,
    }
}

/// The letter that an entry begins with.
fn tag(kind: Kind) -> u8
    ensures { result ≡ tag_of kind }
{
    match kind {
        Kind::Alternative => b'A',
        Kind::Checkpoint => b'C',
    }
}

fn kind_of(tag: u8) -> Option<Kind>
    ensures { (kind : Kind) → tag ≡ tag_of kind → result ≡ Some kind }
{
    match tag {
        b'A' => Some(Kind::Alternative),
        b'C' => Some(Kind::Checkpoint),
        _ => None,
    }
}

/// Writes an entry of a slot into the first 128 bytes.
pub fn write_entry(entry: &Entry, out: &mut [u8])
    requires { 128 ≤ length out.old }
    ensures { out.new ≡ entry_bytes entry.now ++ drop 128 out.old }
{
    put(&[tag(entry.kind)], out);
    write_name(&entry.name, &mut out[1..]);
    write_owner(entry.owner, &mut out[34..]);
    LittleEndian::write_u32(&mut out[67..], entry.current);
    LittleEndian::write_u32(&mut out[71..], entry.base);
    put(&[0; 53], &mut out[75..]);
}

/// What the fields of an entry say, whatever its zero bytes hold.
fn read_fields(bytes: &[u8]) -> Option<Entry>
    requires { length bytes.now ≡ 128 }
    ensures found { IfSome result EntryFits }
    ensures only { (e : Entry) → IsEntry bytes.now e → result ≡ Some e }
{
    let Some(kind) = kind_of(bytes[0]) else {
        return None;
    };
    let Some(name) = read_name(&bytes[1..]) else {
        return None;
    };
    let Some(owner) = read_owner(&bytes[34..]) else {
        return None;
    };
    Some(Entry {
        kind,
        name,
        owner,
        current: LittleEndian::read_u32(&bytes[67..]),
        base: LittleEndian::read_u32(&bytes[71..]),
    })
}

/// The entry of a slot, if the bytes are one.
pub fn read_entry(bytes: &[u8]) -> Option<Entry>
    requires { length bytes.now ≡ 128 }
    ensures found { IfSome result (λ e. IsEntry bytes.now e) }
    ensures only { (e : Entry) → IsEntry bytes.now e → result ≡ Some e }
{
    let Some(entry) = read_fields(bytes) else {
        return None;
    };
    let mut again = [0; 128];
    write_entry(&entry, &mut again);
    if bytes[..] == again[..] {
        Some(entry)
    } else {
        None
    }
}

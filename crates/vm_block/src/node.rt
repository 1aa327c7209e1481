//! An inner block of a tree: it holds the numbers of blocks one level below.
ghost use Rattle.std.specs.Prelude.{◌≡◌, ℕ, ◌<◌, ◌≤◌, ◌*◌, ◌++◌, ◌↔◌, [], length, take, drop, IsTrue, IfSome, IsSomeAnd};
ghost use Rattle.std.specs.List.{AllByRecursion, flat_map};
ghost use Rattle.vm_types.specs.Places.{RisesFrom};
ghost use Rattle.vm_block.specs.Padding.{padded};
ghost use Rattle.vm_block.specs.Node.{IsNode, ChildFits, lows, child_bytes, node_head, node_bytes};
ghost use Rattle.vm_block.specs.Told.{IfNode, IsNodeWith};

use crate::bytes::{is_framed, put, put_zeros};
use crate::keys::{read_key, write_key};
use crate::sizes::{MAX_CHILDREN, MAX_LEVEL};
use arrayvec::ArrayVec;
use byteorder::{ByteOrder, LittleEndian};
use vm_types::{Block, BlockNumber, Key};

/// A block one level below, and the lowest key under it.
#[derive(Clone, Copy, Debug, Default, PartialEq, Eq)]
pub struct Child {
    pub low: Key,
    pub block: BlockNumber,
}

/// An inner block: its level above the leaves, and its children.
#[derive(Debug, Drop)]
pub struct Node {
    pub level: u8,
    pub children: ArrayVec<Child, MAX_CHILDREN>,
}

pub(crate) fn write_child(child: Child, out: &mut [u8])
    requires { 14 ≤ length out.old }
    ensures { out.new ≡ child_bytes child ++ drop 14 out.old }
{
    write_key(child.low, out);
    LittleEndian::write_u32(&mut out[10..], child.block);
}

fn write_children(children: &[Child], out: &mut [u8])
    requires { 14 * length children.now ≤ length out.old }
    ensures { out.new ≡ flat_map child_bytes children.now ++ drop (14 * length children.now) out.old }
{
    for (i, child) in children.iter().enumerate() {
        write_child(*child, &mut out[14 * i..]);
    }
}

fn write_node_head(level: u32, count: u32, out: &mut [u8])
    requires { 16 ≤ length out.old }
    ensures { out.new ≡ node_head level count ++ drop 16 out.old }
{
    put(b"NODE", out);
    LittleEndian::write_u32(&mut out[4..], level);
    LittleEndian::write_u32(&mut out[8..], count);
    LittleEndian::write_u32(&mut out[12..], 0);
}

fn write_node_into(level: u8, children: &[Child], out: &mut [u8])
    requires few { length children.now ≤ MAX_CHILDREN }
    requires room { 3600 ≤ length out.old }
    ensures { out.new ≡ padded (length out.old) (node_head level (length children.now) ++ flat_map child_bytes children.now) }
{
    write_node_head(u32::from(level), children.len() as u32, out);
    write_children(children, &mut out[16..]);
    put_zeros(&mut out[16 + 14 * children.len()..]);
}

/// Writes the inner block of this level and these children.
#[tactic(auto, unfolding(crate::specs::Node::node_bytes))]
pub fn write_node(level: u8, children: &[Child], out: &mut Block)
    requires { length children.now ≤ MAX_CHILDREN }
    ensures { out.new ≡ node_bytes level children.now }
{
    write_node_into(level, children, out);
}

/// Whether the lowest keys rise strictly.
fn are_rising(children: &[Child]) -> bool
    ensures { IsTrue result ↔ RisesFrom 0 (lows children.now) }
{
    let mut low = 0;
    for child in children {
        let place = child.low.place();
        if place < low {
            return false;
        }
        low = place + 1;
    }
    true
}

pub(crate) fn read_child(bytes: &[u8]) -> Child
    requires { length bytes.now ≡ 14 }
    ensures fits { ChildFits result }
    ensures spelled { bytes.now ≡ child_bytes result }
{
    Child {
        low: read_key(bytes),
        block: LittleEndian::read_u32(&bytes[10..]),
    }
}

/// Reads the `count` children that the bytes begin with into an empty list.
fn read_children(bytes: &[u8], count: usize, children: &mut ArrayVec<Child, MAX_CHILDREN>)
    requires few { count ≤ MAX_CHILDREN }
    requires room { 14 * count ≤ length bytes.now }
    requires empty { children.old.items ≡ [] }
    ensures fit { AllByRecursion ChildFits children.new.items }
    ensures many { length children.new.items ≡ count }
    ensures spelled { take (14 * count) bytes.now ≡ flat_map child_bytes children.new.items }
{
    for i in 0..count {
        children.push(read_child(&bytes[14 * i..14 * i + 14]));
    }
}

/// The `count` children that are spelled after the head of an inner block. If the bytes are an
/// inner block of `count` children, these are its children; otherwise they are whatever is there.
pub fn spelled_children(bytes: &Block, count: usize) -> ArrayVec<Child, MAX_CHILDREN>
    requires { count ≤ MAX_CHILDREN }
    ensures many { length result.items ≡ count }
    ensures fit { AllByRecursion ChildFits result.items }
    ensures spelled { take (14 * count) (drop 16 bytes.now) ≡ flat_map child_bytes result.items }
    ensures only { IfNode bytes.now (λ level cs. count ≡ length cs → result.items ≡ cs) }
{
    let mut children = ArrayVec::new();
    read_children(&bytes[16..], count, &mut children);
    children
}

/// Whether an inner block may have this level and this many children.
pub(crate) fn is_in_range(level: u32, count: u32) -> bool
    ensures { IsTrue result ↔ ((0 < level) × (level ≤ MAX_LEVEL) × (0 < count) × (count ≤ MAX_CHILDREN)) }
{
    (1..=u32::from(MAX_LEVEL)).contains(&level) && (1..=MAX_CHILDREN as u32).contains(&count)
}

/// The inner block, if the bytes are one.
pub fn read_node(bytes: &Block) -> Option<Node>
    ensures found { IfSome result (λ node. IsNode bytes.now node.level node.children.items) }
    ensures only { IfNode bytes.now (λ level cs. IsSomeAnd result (IsNodeWith level cs)) }
{
    let level = LittleEndian::read_u32(&bytes[4..]);
    let count = LittleEndian::read_u32(&bytes[8..]);
    if !is_in_range(level, count) {
        return None;
    }
    let mut head = [0; 16];
    write_node_head(level, count, &mut head);
    if !is_framed(bytes, &head, 16 + 14 * count as usize) {
        return None;
    }
    let mut node = Node {
        level: level as u8,
        children: ArrayVec::new(),
    };
    read_children(&bytes[16..], count as usize, &mut node.children);
    if !are_rising(node.children.as_slice()) {
        return None;
    }
    Some(node)
}

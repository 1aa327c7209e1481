//! What a block of a tree is, read from a disk.
ghost use Rattle.std.specs.Prelude.{◌≡◌, ◌≢◌, ◌≤◌, IfOk};
ghost use Rattle.vm_tree.specs.BlockReads.{ReadsOnce};
ghost use Rattle.vm_check.specs.Form.{AcceptsLeaf, AcceptsNode, HasRead, IsFilled, IsForm};

use vm_block::{is_leaf, node_size, records_len};
use vm_disk::{Disk, Need};
use vm_tree::{TreeFault, load_data};
use vm_types::BlockNumber;

/// What a block of a tree is.
#[derive(Clone, Copy, Debug)]
pub(crate) enum Form {
    /// A leaf with this many records.
    Leaf(usize),
    /// An inner block of this level with this many children.
    Node(u8, usize),
}

/// Loads a block, and tells whether it is a leaf or an inner block.
pub(crate) fn form_at<D: Disk>(
    disk: &mut D,
    blocks: u32,
    block: BlockNumber,
    need: Need,
) -> Result<Form, TreeFault>
    requires { blocks ≤ (D.state disk.old).blocks }
    ensures looks { ReadsOnce result blocks block (D.state disk.old) (D.state disk.new) }
    ensures some { IfOk result IsFilled }
    ensures form { IfOk result (IsForm (D.hand disk.new)) }
    ensures found { HasRead result (D.state disk.old) (D.state disk.new) block (D.hand disk.new) }
    ensures leaf { AcceptsLeaf result (D.state disk.old) (D.state disk.new) blocks block }
    ensures node { AcceptsNode result (D.state disk.old) (D.state disk.new) blocks block }
{
    load_data(disk, blocks, block, need)?;
    let bytes = disk.at_hand();
    if is_leaf(bytes) {
        return Ok(Form::Leaf(records_len(bytes)));
    }
    match node_size(bytes) {
        Some((level, count)) => Ok(Form::Node(level, count)),
        None => Err(TreeFault::Damaged(block)),
    }
}

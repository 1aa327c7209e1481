//! The forms of a store's blocks: the header, the selector, leaves and inner blocks of trees, and
//! slots with their entries. Nothing else in the store writes or tests one, except that
//! `vm_catalog` knows the cells of a slot.
//!
//! It stands on `vm_types` for keys, values and names, on `byteorder` for numbers as bytes, on
//! `arrayvec` for inline lists, and on no disk. Its one promise: a block is read exactly when its
//! bytes are of the form, every zero byte included, and then as the one thing that it spells; and
//! what is written can be read back. A descent to a key, and a change of one child or row, work on
//! the bytes alone. On well-formed blocks they say and make what reading, changing and writing the
//! block would. On malformed blocks they fail if the 16-byte header is invalid. Behind a valid
//! header they trust the contents, except that a row that is looked up must be well formed. Whether
//! a block is a leaf or an inner block is decided from all of its bytes, and nothing is copied out
//! for it. No call takes memory.
#![tactic(auto)]

mod bounds;
mod bytes;
mod changes;
mod edits;
mod head;
mod header;
mod keys;
mod laws;
mod leaf;
mod look;
mod node;
mod node_form;
mod parts;
mod selector;
mod sizes;
mod slot;
mod split;
mod way;

pub use changes::{Placed, Taken, first_record, put_into, put_record, remove_record};
pub use edits::{divide_child, divide_in_three, set_child};
pub use header::{FORMAT, is_earlier_header, is_header, write_header};
pub use laws::{one_form, written_is_a_form};
pub use leaf::is_leaf;
pub use look::{Look, find_record, record_key, record_value, records_len};
pub use node::{Child, Node, read_node, spelled_children, write_node};
pub use node_form::node_size;
pub use selector::{SlotName, read_selector, write_selector};
pub use sizes::{LEAF_ROOM, MAX_CHILDREN, MAX_LEVEL, MAX_RECORDS};
pub use slot::{Entry, Kind, SlotHead, read_entry, read_slot_head, write_entry, write_slot_head};
pub use split::{Split, split_record};
pub use way::{Way, child_at, child_row, find_child, lowest_key};

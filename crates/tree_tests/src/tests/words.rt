//! What the words of a row mean.
use std::alloc::AllocError;
use std::num::ParseIntError;
use std::str::Utf8Error;
use vm_block::Child;
use vm_disk::DeviceFault;
use vm_tree::{ListFault, PutFault, Root, TreeFault};
use vm_types::{Key, Refusal, Value};

/// Why a step has no answer of its own.
#[derive(Clone, Copy, Debug, PartialEq, Eq)]
pub(super) enum Wrong {
    /// Memory for the row itself could not be allocated.
    Memory,
    /// There is no such step, or it asks for what the disk does not have.
    Unreadable,
    /// The call that the step makes was answered with this.
    Tree(Refusal),
}

impl From<AllocError> for Wrong {
    fn from(_: AllocError) -> Wrong {
        Wrong::Memory
    }
}

impl From<ParseIntError> for Wrong {
    fn from(_: ParseIntError) -> Wrong {
        Wrong::Unreadable
    }
}

impl From<Utf8Error> for Wrong {
    fn from(_: Utf8Error) -> Wrong {
        Wrong::Unreadable
    }
}

impl From<DeviceFault> for Wrong {
    fn from(_: DeviceFault) -> Wrong {
        Wrong::Tree(Refusal::Device)
    }
}

impl From<TreeFault> for Wrong {
    fn from(fault: TreeFault) -> Wrong {
        Wrong::Tree(Refusal::from(fault))
    }
}

impl From<PutFault> for Wrong {
    fn from(fault: PutFault) -> Wrong {
        Wrong::Tree(Refusal::from(fault))
    }
}

impl From<ListFault> for Wrong {
    fn from(fault: ListFault) -> Wrong {
        Wrong::Tree(Refusal::from(fault))
    }
}

pub(super) fn number(word: &str) -> Result<u32, Wrong> {
    Ok(word.parse::<u32>()?)
}

pub(super) fn long(word: &str) -> Result<u64, Wrong> {
    Ok(word.parse::<u64>()?)
}

pub(super) fn level(word: &str) -> Result<u8, Wrong> {
    Ok(word.parse::<u8>()?)
}

/// A byte of two hexadecimal digits.
pub(super) fn byte(word: &str) -> Result<u8, Wrong> {
    Ok(u8::from_str_radix(word, 16)?)
}

/// The key of this number in table 1.
pub(super) fn key(number: u64) -> Key {
    Key { table: 1, number }
}

/// The bytes that a word means. `''` is no bytes.
fn bytes_of(word: &str) -> &[u8] {
    if word == "''" { b"" } else { word.as_bytes() }
}

/// A value: `''` is the empty one, and `300*a` is 300 times the letter a.
pub(super) fn value(word: &str) -> Result<Value, Wrong> {
    let Some((count, letter)) = word.split_once('*') else {
        return Value::new(bytes_of(word)).ok_or(Wrong::Unreadable);
    };
    let count = number(count)? as usize;
    let letter = letter.as_bytes().first().ok_or(Wrong::Unreadable)?;
    if count > Value::MAX_LEN {
        return Err(Wrong::Unreadable);
    }
    Value::new(&[*letter; Value::MAX_LEN][..count]).ok_or(Wrong::Unreadable)
}

/// Appends a value to a text. One of more than 16 bytes is one letter repeated, as in `300*a`.
pub(super) fn add_value(text: &mut String, value: &[u8]) -> Result<(), Wrong> {
    let letters = str::from_utf8(value)?;
    if value.len() <= 16 {
        text.push_str(letters)?;
        return Ok(());
    }
    let first = value[0];
    for byte in value {
        if *byte != first {
            return Err(Wrong::Unreadable);
        }
    }
    write!(text, "{}*{}", value.len(), char::from(first))?;
    Ok(())
}

/// The lowest key and the block of a child, as in `10:36`.
pub(super) fn child(word: &str) -> Result<Child, Wrong> {
    let (low, block) = word.split_once(':').ok_or(Wrong::Unreadable)?;
    Ok(Child {
        low: key(long(low)?),
        block: number(block)?,
    })
}

/// The block, the level and the lowest key of a root, as in `37.1.1`, or `none`.
pub(super) fn root(word: &str) -> Result<Root, Wrong> {
    if word == "none" {
        return Ok(Root::default());
    }
    let (block, rest) = word.split_once('.').ok_or(Wrong::Unreadable)?;
    let (above, low) = rest.split_once('.').ok_or(Wrong::Unreadable)?;
    Ok(Root {
        block: number(block)?,
        level: level(above)?,
        low: key(long(low)?),
    })
}

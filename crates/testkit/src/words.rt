//! What the words of a script mean.
ghost use Rattle.std.specs.Prelude.{◌≡◌, codes, IfOk};

use crate::wrong::Wrong;
use vm_types::{Key, Name, Value};

/// The name of the first alternative.
pub fn top() -> Name
    ensures { result ≡ codes "top" }
{
    let Some(name) = Name::new(b"top") else {
        unreachable!();
    };
    name
}

pub fn number(word: &str) -> Result<u32, Wrong> {
    Ok(word.parse::<u32>()?)
}

/// A byte of two hexadecimal digits.
pub fn byte(word: &str) -> Result<u8, Wrong> {
    Ok(u8::from_str_radix(word, 16)?)
}

/// The name that a word is.
pub fn name(word: &str) -> Result<Name, Wrong>
    ensures { IfOk result (λ name. name ≡ word.now) }
{
    Name::new(word.as_bytes()).ok_or(Wrong::Unreadable)
}

/// Table and number, as in `7:1`.
pub fn key(word: &str) -> Result<Key, Wrong> {
    let (table, number) = word.split_once(':').ok_or(Wrong::Unreadable)?;
    Ok(Key {
        table: table.parse::<u16>()?,
        number: number.parse::<u64>()?,
    })
}

/// A value: `''` is the empty one, and `61*300` has this many bytes of one kind.
pub fn value(word: &str) -> Result<Value, Wrong> {
    let Some((digits, count)) = word.split_once('*') else {
        let text = if word == "''" { "" } else { word };
        return Value::new(text.as_bytes()).ok_or(Wrong::Unreadable);
    };
    let bytes = [byte(digits)?; Value::MAX_LEN];
    let bytes = bytes.get(..number(count)? as usize);
    bytes.and_then(Value::new).ok_or(Wrong::Unreadable)
}

/// The byte that these consist of, if they are a hundred or more of one kind.
pub fn many_of(bytes: &[u8]) -> Option<u8> {
    let first = *bytes.first()?;
    let same = [first; 4096];
    (bytes.len() >= 100 && same.get(..bytes.len()) == Some(bytes)).then_some(first)
}

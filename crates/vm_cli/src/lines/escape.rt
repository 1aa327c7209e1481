//! Values as they are spelled in lines.
ghost use Rattle.std.specs.Prelude.{◌≡◌, ◌+◌, ◌<◌, ◌≤◌, ◌++◌, ◌∷◌, length, IfSome, MatchOption, None, Some, option_map, true};
ghost use Rattle.vm_types.specs.Bytes.{longest};
ghost use Rattle.vm_cli.specs.lines.Escapes.{ArePlain, SpellsFirst, byte_text, hex_digit, hex_text, is_plain as is_plain_byte, unescaped, value_of, value_text};

use crate::answers::text::Text;
use memchr::memchr;
use vm_types::{Block, Value, ValueRef};

/// The value that a word spells: `-` is the empty value, `%` and two hexadecimal digits are one
/// byte, and any other byte is itself. It is lent from the word, or from this buffer if the word
/// spells other bytes than its own.
pub(crate) fn value<'a>(word: &'a [u8], room: &'a mut Block) -> Option<ValueRef<'a>>
    ensures { result ≡ value_of word.now }
{
    if word == b"-".as_slice() {
        return ValueRef::new(&[]);
    }
    if memchr(b'%', word).is_none() {
        return ValueRef::new(word);
    }
    let mut len = 0;
    let mut rest = word;
    while !rest.is_empty() {
        let (byte, after) = first_byte(rest)?;
        if len == Value::MAX_LEN {
            return None;
        }
        room[len] = byte;
        len += 1;
        rest = after;
    }
    ValueRef::new(&room[..len])
}

/// The first byte that a word spells, and what follows it.
fn first_byte(word: &[u8]) -> Option<(u8, &[u8])>
    requires { 0 < length word.now }
    ensures { MatchOption result (unescaped word.now ≡ None)
        (λ p. SpellsFirst word.now p.0 p.1.now) }
{
    if word[0] != b'%' {
        return Some((word[0], &word[1..]));
    }
    if word.len() < 3 {
        return None;
    }
    let high = hex(word[1])?;
    let low = hex(word[2])?;
    Some((high * 16 + low, &word[3..]))
}

/// The number that a hexadecimal digit of either case has.
fn hex(digit: u8) -> Option<u8>
    ensures digit { result ≡ hex_digit digit }
    ensures small { MatchOption result (Unit {0}) (λ n. n < 16) }
{
    match digit {
        b'0'..=b'9' => Some(digit - b'0'),
        b'A'..=b'F' => Some(digit - b'A' + 10),
        b'a'..=b'f' => Some(digit - b'a' + 10),
        _ => None,
    }
}

/// Writes the bytes of a value: the empty value as `-`, each byte from 0x21 to 0x7D except `%` as
/// itself, and any other byte as `%` and two upper case hexadecimal digits. The value `-` is
/// written that way, too.
pub(crate) fn push_spelled(text: &mut Text, bytes: &[u8])
    requires room { length text.old + 12000 ≤ Text.MAX_LEN }
    requires short { length bytes.now ≤ longest }
    ensures written { text.new ≡ text.old ++ value_text bytes.now }
    ensures size { length text.new ≤ length text.old + 12000 }
    ensures read_again { value_of (value_text bytes.now) ≡ Some bytes.now }
{
    if bytes.is_empty() {
        text.push(b'-');
        return;
    }
    if bytes == b"-".as_slice() {
        text.push_bytes(b"%2D");
        return;
    }
    if are_plain(bytes) {
        text.push_bytes(bytes);
        return;
    }
    for byte in bytes {
        push_escaped(text, *byte);
    }
}

/// Whether each byte is written as itself. The loop does not exit early, so many bytes are tested
/// at once.
fn are_plain(bytes: &[u8]) -> bool
    ensures { result ≡ true → ArePlain bytes.now }
{
    let mut plain = true;
    for byte in bytes {
        plain &= is_plain(*byte);
    }
    plain
}

/// Whether a byte is written as itself.
fn is_plain(byte: u8) -> bool
    ensures { result ≡ is_plain_byte byte }
{
    byte >= 0x21 && byte <= 0x7d && byte != b'%'
}

/// Writes one byte of a value.
fn push_escaped(text: &mut Text, byte: u8)
    requires { length text.old + 3 ≤ Text.MAX_LEN }
    ensures { text.new ≡ text.old ++ byte_text byte }
{
    if is_plain(byte) {
        text.push(byte);
        return;
    }
    text.push(b'%');
    text.push(hex_of(byte / 16));
    text.push(hex_of(byte % 16));
}

/// The upper case hexadecimal digit of a number.
fn hex_of(number: u8) -> u8
    requires { number < 16 }
    ensures { result ≡ hex_text number }
{
    if number < 10 {
        return b'0' + number;
    }
    b'A' + (number - 10)
}

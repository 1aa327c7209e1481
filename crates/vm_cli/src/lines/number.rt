//! Numbers in lines.
ghost use Rattle.std.specs.Prelude.{◌≡◌};
ghost use Rattle.vm_cli.specs.lines.Numbers.{key_of, number_of};

use vm_types::Key;

/// The number that a word of 1 to 20 decimal digits spells, if it is at most `most`.
pub(crate) fn number(word: &[u8], most: u64) -> Option<u64>
    ensures { result ≡ number_of most word.now }
{
    if word.is_empty() || word.len() > 20 {
        return None;
    }
    let mut number: u128 = 0;
    for digit in word {
        if *digit < b'0' || *digit > b'9' {
            return None;
        }
        number = number * 10 + u128::from(*digit - b'0');
    }
    if number > u128::from(most) {
        return None;
    }
    Some(number as u64)
}

/// The key that two words spell.
pub(crate) fn key(table: &[u8], number_in_table: &[u8]) -> Option<Key>
    ensures { result ≡ key_of table.now number_in_table.now }
{
    let table = number(table, 65_535)?;
    let number = number(number_in_table, u64::MAX)?;
    Some(Key {
        table: table as u16,
        number,
    })
}

//! Bits packed 64 to a word.
ghost use Rattle.std.specs.Prelude.{◌≡◌, ◌≢◌, ℕ, ◌+◌, ◌*◌, ◌/◌, ◌^◌, ◌<◌, ◌≤◌, ◌&&◌, true, false, length};
ghost use Rattle.vm_alloc.specs.Words.{is_bit_set};

pub(crate) fn bit(words: &[u64], n: usize) -> bool
    requires { n / 64 < length words.now }
    ensures { result ≡ is_bit_set words.now n }
{
    words[n / 64] >> (n % 64) & 1 == 1
}

pub(crate) fn set_bit(words: &mut [u64], n: usize)
    requires { n / 64 < length words.old }
    ensures same { is_bit_set words.new n ≡ true }
    ensures others { (k : ℕ) → k ≢ n → is_bit_set words.new k ≡ is_bit_set words.old k }
{
    words[n / 64] |= 1 << (n % 64);
}

/// Clears one bit.
pub(crate) fn unset_bit(words: &mut [u64], n: usize)
    requires { n / 64 < length words.old }
    ensures same { is_bit_set words.new n ≡ false }
    ensures others { (k : ℕ) → k ≢ n → is_bit_set words.new k ≡ is_bit_set words.old k }
{
    words[n / 64] &= !(1 << (n % 64));
}

/// Sets bits 0 to `count` - 1.
pub(crate) fn set_first_bits(words: &mut [u64], count: u32)
    requires some { 0 < length words.old }
    requires one_word { count < 64 }
    ensures first { (k : ℕ) → k < count → is_bit_set words.new k ≡ true }
    ensures others { (k : ℕ) → count ≤ k → is_bit_set words.new k ≡ is_bit_set words.old k }
{
    words[0] |= (1 << count) - 1;
}

/// Clears each bit that is clear in `others`.
pub(crate) fn clear_bits_but(words: &mut [u64], others: &[u64])
    requires { length others.now ≡ length words.old }
    ensures { (k : ℕ) → is_bit_set words.new k ≡ (is_bit_set words.old k && is_bit_set others.now k) }
{
    for i in 0..words.len() {
        words[i] &= others[i];
    }
}

/// Clears the bits from `count` on. Bit `count` lies in the last word or past the end.
pub(crate) fn clear_bits_from(words: &mut [u64], count: usize)
    requires { length words.old ≤ count / 64 + 1 }
    ensures before { (k : ℕ) → k < count → is_bit_set words.new k ≡ is_bit_set words.old k }
    ensures behind { (k : ℕ) → count ≤ k → is_bit_set words.new k ≡ false }
{
    let last = count / 64;
    if last < words.len() {
        words[last] &= (1 << (count % 64)) - 1;
    }
}

/// The lowest clear bit, or the number of bits if all are set.
pub(crate) fn first_clear_bit(words: &[u64], from: usize) -> usize
    requires few { length words.now < 2 ^ 50 }
    requires set { (k : ℕ) → k < from → is_bit_set words.now k ≡ true }
    ensures before { (k : ℕ) → k < result → is_bit_set words.now k ≡ true }
    ensures found { result < 64 * length words.now → is_bit_set words.now result ≡ false }
    ensures within { result ≤ 64 * length words.now }
{
    for i in from / 64..words.len() {
        let word = words[i];
        if word != u64::MAX {
            return 64 * i + word.trailing_ones() as usize;
        }
    }
    64 * words.len()
}

//! A fixed number of flags. A contract sees them as a list.
ghost use Rattle.std.specs.Prelude.{◌≡◌, ℕ, ◌-◌, ◌<◌, ◌≤◌, ◌++◌, ◌&&◌, true, false, not, length, replicate, take, drop, count_by, slice_index_or, slice_set, IfOk};

use crate::words::{
    bit, clear_bits_but, clear_bits_from, first_clear_bit, set_bit, set_first_bits, unset_bit,
};
use std::alloc::{AllocError, Global};
use std::marker::Model;
use vm_types::MAX_BLOCKS;

#[derive(Drop)]
pub(crate) struct Flags {
    words: Vec<u64>,
    count: usize,
}

impl Model for Flags {
    ghost use Rattle.std.specs.Prelude.{List, Bool};
    ghost use Rattle.vm_alloc.specs.Flags.{flags_of, IsPacked};

    ghost Value = { List Bool };

    ghost view = { λ a. flags_of a.words.items a.count };

    ghost invariant = { λ a. IsPacked a.words.items a.count };
}

impl Flags {
    pub(crate) fn new(alloc: Global, count: usize) -> Result<Flags, AllocError>
        requires { count ≤ MAX_BLOCKS }
        ensures { IfOk result (λ flags. flags ≡ replicate count false) }
    {
        Ok(Flags {
            words: vec![in alloc; 0; count.div_ceil(64)]?,
            count,
        })
    }

    /// A copy extended to `count` flags, with the new ones clear.
    pub(crate) fn extended(&self, alloc: Global, count: usize) -> Result<Flags, AllocError>
        requires longer { length self.now ≤ count }
        requires few { count ≤ MAX_BLOCKS }
        ensures { IfOk result (λ flags. flags ≡ self.now ++ replicate (count - length self.now) false) }
    {
        let mut words = Vec::with_capacity(alloc, count.div_ceil(64))?;
        words.extend_from_slice(self.words.as_slice())?;
        words.resize(count.div_ceil(64), 0)?;
        Ok(Flags { words, count })
    }

    /// Drops the flags from `count` on.
    pub(crate) fn truncate(&mut self, count: usize)
        requires { count ≤ length self.old }
        ensures { self.new ≡ take count self.old }
    {
        self.words.truncate(count.div_ceil(64));
        clear_bits_from(self.words.as_mut_slice(), count);
        self.count = count;
    }

    pub(crate) fn len(&self) -> usize
        ensures count { result ≡ length self.now }
        ensures few { length self.now ≤ MAX_BLOCKS }
    {
        self.count
    }

    pub(crate) fn get(&self, n: usize) -> bool
        requires { n < length self.now }
        ensures { result ≡ slice_index_or self.now n false }
    {
        bit(self.words.as_slice(), n)
    }

    pub(crate) fn set(&mut self, n: usize)
        requires { n < length self.old }
        ensures { self.new ≡ slice_set self.old n true }
    {
        set_bit(self.words.as_mut_slice(), n);
    }

    /// Clears one flag.
    pub(crate) fn unset(&mut self, n: usize)
        requires { n < length self.old }
        ensures { self.new ≡ slice_set self.old n false }
    {
        unset_bit(self.words.as_mut_slice(), n);
    }

    /// Sets the first `count` flags.
    pub(crate) fn set_first(&mut self, count: u32)
        requires within { count < length self.old }
        requires one_word { count < 64 }
        ensures { self.new ≡ replicate count true ++ drop count self.old }
    {
        set_first_bits(self.words.as_mut_slice(), count);
    }

    pub(crate) fn clear(&mut self)
        ensures { self.new ≡ replicate (length self.old) false }
    {
        self.words.fill(0);
    }

    pub(crate) fn copy_from(&mut self, other: &Flags)
        requires { length other.now ≡ length self.old }
        ensures { self.new ≡ other.now }
    {
        self.words.copy_from_slice(other.words.as_slice());
    }

    /// Clears each flag that is clear in `others`.
    pub(crate) fn clear_but(&mut self, others: &Flags)
        requires { length others.now ≡ length self.old }
        ensures count { length self.new ≡ length self.old }
        ensures both { (k : ℕ) → slice_index_or self.new k false
            ≡ (slice_index_or self.old k false && slice_index_or others.now k false) }
    {
        clear_bits_but(self.words.as_mut_slice(), others.words.as_slice());
    }

    /// How many flags from `from` on are clear.
    pub(crate) fn count_clear(&self, from: usize) -> usize
        ensures { result ≡ count_by not (drop from self.now) }
    {
        let mut clear = 0;
        for n in from..self.len() {
            if !self.get(n) {
                clear += 1;
            }
        }
        clear
    }

    /// The lowest clear flag, or the number of flags if all are set. The search starts at flag
    /// `from`.
    pub(crate) fn first_clear(&self, from: usize) -> usize
        requires { (k : ℕ) → k < from → slice_index_or self.now k false ≡ true }
        ensures before { (k : ℕ) → k < result → slice_index_or self.now k false ≡ true }
        ensures found { result < length self.now → slice_index_or self.now result false ≡ false }
        ensures within { result ≤ length self.now }
    {
        first_clear_bit(self.words.as_slice(), from).min(self.count)
    }
}

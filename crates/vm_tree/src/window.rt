//! Which records of a map a walk is asked for.
ghost use Rattle.std.specs.Prelude.{◌≡◌, ◌⊎◌, ◌<◌, ◌≤◌, ◌+◌, true, false, length, IsTrue, IsFalse};
ghost use Rattle.vm_types.specs.Places.{place};
ghost use Rattle.vm_tree.specs.Windows.{GivesNone, MayGive, gives, is_full};

use vm_block::Child;
use vm_types::Key;

/// The records from one key to another, both included, and at most the given number of them, the
/// first ones.
#[derive(Clone, Copy, Debug)]
pub(crate) struct Window {
    pub(crate) low: Key,
    pub(crate) high: Key,
    pub(crate) most: Option<u32>,
}

impl Window {
    /// Whether the `given` records are all that is asked for.
    pub(crate) fn is_full(self, given: usize) -> bool
        ensures { result ≡ is_full self.most given }
    {
        match self.most {
            Some(most) => most as usize <= given,
            None => false,
        }
    }

    /// Whether a record of this key is asked for, after `given` others.
    pub(crate) fn gives(self, key: Key, given: usize) -> bool
        ensures { result ≡ gives self key given }
    {
        !self.is_full(given) && self.low.place() <= key.place() && key.place() <= self.high.place()
    }

    /// Whether records from this key on may be asked for, after `given` others. They are not if it
    /// lies above the part.
    pub(crate) fn meets(self, first: Key, given: usize) -> bool
        ensures met { IsTrue result → (is_full self.most given ≡ false) × (place first ≤ place self.high) }
        ensures passed { IsFalse result → (is_full self.most given ≡ true) ⊎ (place self.high < place first) }
    {
        if self.is_full(given) {
            return false;
        }
        first.place() <= self.high.place()
    }

    /// Whether a record under child `i` may be asked for, after `given` others. None is if the next
    /// child begins at the lower end or below it.
    pub(crate) fn enters(self, children: &[Child], i: usize, given: usize) -> bool
        requires { i < length children.now }
        ensures entered { IsTrue result → MayGive self given children.now i }
        ensures passed { IsFalse result → GivesNone self given children.now i }
    {
        if !self.meets(children[i].low, given) {
            return false;
        }
        let next = i + 1;
        if next == children.len() {
            return true;
        }
        self.low.place() < children[next].low.place()
    }
}

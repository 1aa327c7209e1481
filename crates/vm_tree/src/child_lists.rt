//! Inline lists of children, with some of them replaced or left out.
ghost use Rattle.std.specs.Prelude.{◌≡◌, ◌+◌, ◌<◌, ◌≤◌, ◌++◌, length, take, drop};

use arrayvec::ArrayVec;
use vm_block::{Child, MAX_CHILDREN};

pub(crate) fn push_all<T: Copy, const CAP: usize>(items: &[T], into: &mut ArrayVec<T, CAP>)
    requires { length into.old.items + length items.now ≤ CAP }
    ensures { into.new.items ≡ into.old.items ++ items.now }
{
    for item in items {
        into.push(*item);
    }
}

/// The children with these in place of child `i`.
pub(crate) fn spliced(children: &[Child], i: usize, now: &[Child]) -> ArrayVec<Child, 258>
    requires few { length children.now ≤ MAX_CHILDREN }
    requires within { i < length children.now }
    requires room { length now.now ≤ 3 }
    ensures { result.items ≡ take i children.now ++ (now.now ++ drop (i + 1) children.now) }
{
    let mut changed = ArrayVec::new();
    push_all(&children[..i], &mut changed);
    push_all(now, &mut changed);
    push_all(&children[i + 1..], &mut changed);
    changed
}

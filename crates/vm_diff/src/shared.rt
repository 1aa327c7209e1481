//! Passing what comes next in both of two walks.
ghost use Rattle.std.specs.Prelude.{◌+◌, ◌≤◌};
ghost use Rattle.vm_diff.specs.Walk.{size};
ghost use Rattle.vm_diff.specs.Differ.{DifferAsBefore};

use crate::cursor::{Cursor, pass_records, pass_tops};

/// Passes everything that comes next in both walks and has equal bytes, without copying it.
pub(crate) fn skip_shared(one: &mut Cursor, other: &mut Cursor)
    ensures most { size one.new + size other.new ≤ size one.old + size other.old }
    ensures differ { DifferAsBefore one.old other.old one.new other.new }
{
    if !pass_records(one, other) {
        return;
    }
    'shared: loop {
        if !pass_tops(one, other) {
            return;
        }
    }
}

//! The lines of lists.
ghost use Rattle.std.specs.Prelude.{◌≡◌, ◌+◌, ◌<◌, ◌≤◌, ◌++◌, [], length, map, slice_index_or, option_copied, IfSome};
ghost use Rattle.vm_types.specs.Bytes.{longest};
ghost use Rattle.vm_cli.specs.answers.Listings.{alternative_text, change_text, checkpoint_text, conflict_text, key_words, optional_text, record_text};

use crate::answers::lists::LONGEST_LINE;
use crate::answers::text::Text;
use crate::lines::escape;
use vm_types::{Changes, Conflicts, Key, Name, Records};

/// A list that is answered line by line.
pub trait Listing {
    ghost use Rattle.std.specs.Prelude.{ℕ, List};

    /// Its lines, in order.
    ghost lines: { Self → List (List ℕ) };

    /// How many lines it has.
    fn count(&self) -> usize
        ensures { result ≡ length (lines self.now) };

    /// Writes line `i`.
    fn push_line(&self, i: usize, text: &mut Text)
        requires within { i < length (lines self.now) }
        requires room { length text.old + LONGEST_LINE ≤ Text.MAX_LEN }
        ensures { text.new ≡ text.old ++ slice_index_or (lines self.now) i [] };
}

/// Records, each read from its place in the list.
impl Listing for Records {
    ghost lines = { λ records. map (λ r. record_text r.0 r.1) records };

    fn count(&self) -> usize {
        self.len()
    }

    fn push_line(&self, i: usize, text: &mut Text) {
        push_record(text, self.key(i), self.value(i));
    }
}

/// Changes, each value read from its place in the list.
impl Listing for Changes {
    ghost lines = { λ changes. map change_text changes };

    fn count(&self) -> usize {
        self.len()
    }

    fn push_line(&self, i: usize, text: &mut Text) {
        push_change(text, self.key(i), self.before(i), self.after(i));
    }
}

/// Conflicts, each value read the same way.
impl Listing for Conflicts {
    ghost lines = { λ conflicts. map conflict_text conflicts };

    fn count(&self) -> usize {
        self.len()
    }

    fn push_line(&self, i: usize, text: &mut Text) {
        push_conflict(
            text,
            self.key(i),
            self.base(i),
            self.parent(i),
            self.mine(i),
        );
    }
}

impl<L: Listed> Listing for Vec<L> {
    ghost lines = { λ list. map L.line list.items };

    fn count(&self) -> usize {
        self.len()
    }

    fn push_line(&self, i: usize, text: &mut Text) {
        self[i].push_onto(text);
    }
}

/// What has a line of its own in a list.
pub trait Listed {
    ghost use Rattle.std.specs.Prelude.{ℕ, List};

    /// Its line.
    ghost line: { Self → List ℕ };

    /// Writes its line.
    fn push_onto(&self, text: &mut Text)
        requires { length text.old + LONGEST_LINE ≤ Text.MAX_LEN }
        ensures { text.new ≡ text.old ++ line self.now };
}

impl Listed for (Name, Option<Name>) {
    ghost line = { λ alternative. alternative_text alternative.0 alternative.1 };

    fn push_onto(&self, text: &mut Text) {
        push_alternative(text, &self.0, self.1);
    }
}

impl Listed for Name {
    ghost line = { checkpoint_text };

    fn push_onto(&self, text: &mut Text) {
        push_checkpoint(text, self);
    }
}

/// Writes the line of a record.
fn push_record(text: &mut Text, key: Key, value: &[u8])
    requires room { length text.old + 12288 ≤ Text.MAX_LEN }
    requires short { length value.now ≤ longest }
    ensures { text.new ≡ text.old ++ record_text key value.now }
{
    text.push_bytes(b"record ");
    push_key(text, key);
    escape::push_spelled(text, value);
    text.push(b'\n');
}

/// Writes the line of an alternative, with its parent.
fn push_alternative(text: &mut Text, name: &Name, parent: Option<Name>)
    requires { length text.old + 1024 ≤ Text.MAX_LEN }
    ensures { text.new ≡ text.old ++ alternative_text name.now parent }
{
    text.push_bytes(b"alternative ");
    text.push_bytes(name.as_bytes());
    text.push(b' ');
    match parent {
        Some(parent) => text.push_bytes(parent.as_bytes()),
        None => text.push(b'~'),
    }
    text.push(b'\n');
}

/// Writes the line of a checkpoint.
fn push_checkpoint(text: &mut Text, name: &Name)
    requires { length text.old + 1024 ≤ Text.MAX_LEN }
    ensures { text.new ≡ text.old ++ checkpoint_text name.now }
{
    text.push_bytes(b"checkpoint ");
    text.push_bytes(name.as_bytes());
    text.push(b'\n');
}

/// Writes the line of a change.
fn push_change(text: &mut Text, key: Key, before: Option<&[u8]>, after: Option<&[u8]>)
    requires room { length text.old + LONGEST_LINE ≤ Text.MAX_LEN }
    requires before { IfSome before (λ value. length value.now ≤ longest) }
    requires after { IfSome after (λ value. length value.now ≤ longest) }
    ensures { text.new ≡ text.old ++ change_text (record {
      key = key;
      before = option_copied before.entry;
      after = option_copied after.entry;
    }) }
{
    text.push_bytes(b"change ");
    push_key(text, key);
    push_optional(text, before);
    text.push(b' ');
    push_optional(text, after);
    text.push(b'\n');
}

/// Writes the line of a conflict.
fn push_conflict(
    text: &mut Text,
    key: Key,
    base: Option<&[u8]>,
    parent: Option<&[u8]>,
    mine: Option<&[u8]>,
)
    requires room { length text.old + LONGEST_LINE ≤ Text.MAX_LEN }
    requires base { IfSome base (λ value. length value.now ≤ longest) }
    requires parent { IfSome parent (λ value. length value.now ≤ longest) }
    requires mine { IfSome mine (λ value. length value.now ≤ longest) }
    ensures { text.new ≡ text.old ++ conflict_text (record {
      key = key;
      base = option_copied base.entry;
      parent = option_copied parent.entry;
      mine = option_copied mine.entry;
    }) }
{
    text.push_bytes(b"conflict ");
    push_key(text, key);
    push_optional(text, base);
    text.push(b' ');
    push_optional(text, parent);
    text.push(b' ');
    push_optional(text, mine);
    text.push(b'\n');
}

/// Writes a key and a space after it.
fn push_key(text: &mut Text, key: Key)
    requires room { length text.old + 42 ≤ Text.MAX_LEN }
    ensures written { text.new ≡ text.old ++ key_words key }
    ensures short { length text.new ≤ length text.old + 42 }
{
    text.push_number(u64::from(key.table));
    text.push(b' ');
    text.push_number(key.number);
    text.push(b' ');
}

/// Writes a value, or `~` for absence.
fn push_optional(text: &mut Text, value: Option<&[u8]>)
    requires room { length text.old + 12000 ≤ Text.MAX_LEN }
    requires short { IfSome value (λ bytes. length bytes.now ≤ longest) }
    ensures written { text.new ≡ text.old ++ optional_text (option_copied value.entry) }
    ensures short { length text.new ≤ length text.old + 12000 }
{
    match value {
        Some(value) => escape::push_spelled(text, value),
        None => text.push(b'~'),
    }
}

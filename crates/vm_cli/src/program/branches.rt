//! The tree of alternatives, drawn as text.
ghost use Rattle.std.specs.Fmt.{decimal};
ghost use Rattle.std.specs.List.{list_any};
ghost use Rattle.std.specs.Prelude.{◌≡◌, ◌++◌, ◌≤◌, IfOk, OnOk, flat_map, length};
ghost use Rattle.vm_cli.specs.program.Branches.{Adds, at_right, branch_line, checkpoint_line, checkpoint_lines, columns_of, drawing, have_under, is_under as is_under_parent, lines_under, own_stem, post_text, stem_below};

use std::alloc::{AllocError, Global};
use std::marker::Model;
use vm_store::Tally;
use vm_types::Name;

/// What is drawn of an alternative: its numbers, if it has a parent, and its checkpoints.
#[derive(Drop)]
pub struct Branch {
    pub name: Name,
    pub parent: Option<Name>,
    pub tally: Option<Tally>,
    pub checkpoints: Vec<Name>,
}

impl Model for Branch {
    ghost use Rattle.vm_cli.specs.program.Branches.{Branch as Drawn};

    ghost Value = { Drawn };

    ghost view = { λ b. record { name = b.name; parent = b.parent; tally = b.tally; checkpoints = b.checkpoints.items } };
}

impl Branch {
    /// Whether it is directly under the alternative of this name.
    fn is_under(&self, parent: &Name) -> bool
        ensures { result ≡ is_under_parent parent.now self.now }
    {
        self.parent == Some(*parent)
    }
}

/// The text of a tree: a heading, and a line for each alternative and each checkpoint. The first of
/// the branches is the first alternative, and each other one comes after its parent.
pub(crate) fn draw(alloc: Global, branches: &[Branch]) -> Result<Vec<u8>, AllocError>
    ensures { IfOk result (λ text. text.items ≡ drawing branches.now) }
{
    let mut text = Vec::new(alloc);
    text.extend_from_slice(b"changed unmerged conflicts post\n")?;
    let Some((first, later)) = branches.split_first() else {
        return Ok(text);
    };
    let mut stems = Vec::new(alloc);
    push_line(&mut text, &stems, b"", first)?;
    push_checkpoints(&mut text, &stems, &first.checkpoints)?;
    push_under(&mut text, &mut stems, &first.name, later)?;
    Ok(text)
}

/// Draws those of the branches that are directly under the alternative of this name, each with what
/// is below it.
fn push_under(
    text: &mut Vec<u8>,
    stems: &mut Vec<u8>,
    parent: &Name,
    branches: &[Branch],
) -> Result<(), AllocError>
    ensures drawn { OnOk result (Adds text.old text.new (lines_under stems.old.items parent.now branches.now)) }
    ensures stems { OnOk result (stems.new.items ≡ stems.old.items) }
{
    let Some((branch, later)) = branches.split_first() else {
        return Ok(());
    };
    if branch.is_under(parent) {
        let last = !any_under(parent, later);
        let above = stems.len();
        push_line(text, stems, own(last), branch)?;
        stems.extend_from_slice(below(last))?;
        push_checkpoints(text, stems, &branch.checkpoints)?;
        push_under(text, stems, &branch.name, later)?;
        stems.truncate(above);
    }
    push_under(text, stems, parent, later)
}

/// Whether one of the branches is directly under the alternative of this name.
fn any_under(parent: &Name, branches: &[Branch]) -> bool
    ensures { result ≡ have_under parent.now branches.now }
{
    branches.iter().any(|branch| branch.is_under(parent))
}

/// The stem of an alternative, by whether it is the last one under its parent.
fn own(last: bool) -> &'static [u8]
    ensures { result.now ≡ own_stem last }
{
    if last { b"`- " } else { b"|- " }
}

/// The stem in its place in the lines below it.
fn below(last: bool) -> &'static [u8]
    ensures { result.now ≡ stem_below last }
{
    if last { b"   " } else { b"|  " }
}

/// Writes the line of an alternative.
fn push_line(
    text: &mut Vec<u8>,
    stems: &[u8],
    own: &[u8],
    branch: &Branch,
) -> Result<(), AllocError>
    ensures { OnOk result (Adds text.old text.new (branch_line stems.now own.now branch.now)) }
{
    push_columns(text, &branch.tally)?;
    text.extend_from_slice(stems)?;
    text.extend_from_slice(own)?;
    text.extend_from_slice(branch.name.as_bytes())?;
    text.push(b'\n')?;
    Ok(())
}

/// Writes the lines of checkpoints.
fn push_checkpoints(text: &mut Vec<u8>, stems: &[u8], names: &[Name]) -> Result<(), AllocError>
    ensures { OnOk result (Adds text.old text.new (checkpoint_lines stems.now names.now)) }
{
    for name in names {
        push_checkpoint(text, stems, name)?;
    }
    Ok(())
}

/// Writes the line of a checkpoint.
fn push_checkpoint(text: &mut Vec<u8>, stems: &[u8], name: &Name) -> Result<(), AllocError>
    ensures { OnOk result (Adds text.old text.new (checkpoint_line stems.now name.now)) }
{
    text.extend_from_slice(b"                                 ")?;
    text.extend_from_slice(stems)?;
    text.extend_from_slice(b"* ")?;
    text.extend_from_slice(name.as_bytes())?;
    text.push(b'\n')?;
    Ok(())
}

/// Writes the columns of an alternative.
fn push_columns(text: &mut Vec<u8>, tally: &Option<Tally>) -> Result<(), AllocError>
    ensures { OnOk result (Adds text.old text.new (columns_of tally.now)) }
{
    match tally {
        Some(tally) => push_numbers(text, tally),
        None => text.extend_from_slice(b"      -        -         -    -  "),
    }
}

/// Writes the columns of an alternative that has numbers.
fn push_numbers(text: &mut Vec<u8>, tally: &Tally) -> Result<(), AllocError>
    ensures { OnOk result (Adds text.old text.new (columns_of (Some tally.now))) }
{
    push_number(text, 7, tally.changed)?;
    push_number(text, 9, tally.unmerged)?;
    push_number(text, 10, tally.conflicts)?;
    push_right(text, 5, if tally.can_post { b"yes" } else { b"no" })?;
    text.extend_from_slice(b"  ")
}

/// Writes a number right-aligned in a column of this width.
fn push_number(text: &mut Vec<u8>, width: usize, number: usize) -> Result<(), AllocError>
    ensures { OnOk result (Adds text.old text.new (at_right width (decimal number))) }
{
    let mut buffer = itoa::Buffer::new();
    push_right(text, width, buffer.format(number as u64).as_bytes())
}

/// Writes a text right-aligned in a column of this width.
fn push_right(text: &mut Vec<u8>, width: usize, word: &[u8]) -> Result<(), AllocError>
    ensures { OnOk result (Adds text.old text.new (at_right width word.now)) }
{
    for _ in 0..width.saturating_sub(word.len()) {
        text.push(b' ')?;
    }
    text.extend_from_slice(word)
}

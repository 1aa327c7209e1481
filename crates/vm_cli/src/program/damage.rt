//! Naming the damaged blocks of a store.
ghost use Rattle.std.specs.Prelude.{◌≡◌, ◌<◌, Some, length, OnErr, OnOk};
ghost use Rattle.vm_cli.specs.answers.Carried.{Begins, Gains};
ghost use Rattle.vm_cli.specs.program.Exits.{Tells, is_told, name_text, others_text, refused_text, survey_text};
ghost use Rattle.vm_cli.specs.program.Openings.{told_of};
ghost use Rattle.vm_cli.specs.session.Known.{written_to};

use crate::answers::output::WriteFault;
use crate::answers::reply::push_refusal;
use crate::answers::text::Text;
use crate::program::opening::{NoStore, unopened};
use crate::program::{Exit, say, unless_fault};
use std::io::Write;
use vm_alloc::Marks;
use vm_types::{BlockNumber, Refusal};

/// Says why a disk is refused, and then names the damaged blocks that are not told yet, a line for
/// each.
pub(crate) fn unopened_whole<F: Write>(
    why: &NoStore,
    damaged: &Option<Marks>,
    errors: &mut F,
) -> Exit
    ensures { Tells Exit.Refused result (written_to F.contents errors.old errors.new) (survey_text why.now damaged.now) }
{
    match damaged {
        Some(damaged) => unopened_with(why, damaged, errors),
        None => unopened(why, errors),
    }
}

/// Says why a disk is refused on which these blocks are damaged, and names them.
fn unopened_with<F: Write>(why: &NoStore, damaged: &Marks, errors: &mut F) -> Exit
    ensures { Tells Exit.Refused result (written_to F.contents errors.old errors.new) (survey_text why.now (Some damaged.now)) }
{
    let exit = unopened(why, errors);
    match exit {
        Exit::Refused => unless_fault(name_others(told_in(why), damaged, errors), Exit::Refused),
        _ => exit,
    }
}

/// The damaged block that a refusal tells.
fn told_in(why: &NoStore) -> Option<BlockNumber>
    ensures { result ≡ told_of why.now }
{
    match why {
        NoStore::Refused(Refusal::Damaged(n)) => Some(*n),
        NoStore::WithoutSums(n) => Some(*n),
        _ => None,
    }
}

/// Names the damaged blocks except the one that is told already.
fn name_others<F: Write>(
    told: Option<BlockNumber>,
    damaged: &Marks,
    errors: &mut F,
) -> Result<(), WriteFault>
    ensures ok { OnOk result (Gains F.contents (others_text told damaged.now) errors.old errors.new) }
    ensures err { OnErr result (Begins F.contents (others_text told damaged.now) errors.old errors.new) }
{
    let count = damaged.blocks();
    for n in 0..count {
        name_if_other(told, damaged, n, errors)?;
    }
    Ok(())
}

/// Names a block if it is damaged, and is not the one that is told already.
fn name_if_other<F: Write>(
    told: Option<BlockNumber>,
    damaged: &Marks,
    n: BlockNumber,
    errors: &mut F,
) -> Result<(), WriteFault>
    requires { n < length damaged.now }
    ensures ok { OnOk result (Gains F.contents (name_text told damaged.now n) errors.old errors.new) }
    ensures err { OnErr result (Begins F.contents (name_text told damaged.now n) errors.old errors.new) }
{
    if !damaged.is_set(n) {
        return Ok(());
    }
    if was_told(told, n) {
        return Ok(());
    }
    name(n, errors)
}

/// Names a damaged block.
fn name<F: Write>(n: BlockNumber, errors: &mut F) -> Result<(), WriteFault>
    ensures ok { OnOk result (Gains F.contents (refused_text (Refusal.Damaged n)) errors.old errors.new) }
    ensures err { OnErr result (Begins F.contents (refused_text (Refusal.Damaged n)) errors.old errors.new) }
{
    let mut text = Text::new();
    text.push_bytes(b"altctl: ");
    push_refusal(&mut text, &Refusal::Damaged(n));
    text.push(b'\n');
    say(errors, text.as_bytes())
}

/// Whether this block is the one that is told already.
fn was_told(told: Option<BlockNumber>, n: BlockNumber) -> bool
    ensures { result ≡ is_told told n }
{
    match told {
        Some(first) => first == n,
        None => false,
    }
}

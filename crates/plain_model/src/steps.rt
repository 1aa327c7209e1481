//! What each command does to a tree of alternatives. If there is no memory, the tree is as before.
ghost use Rattle.std.specs.Prelude.{◌≡◌, ℕ, ◌<◌, false, slice_index_or, find, Some, None, is_some, IfSome, IfNone, IfOk, IfErr, OnErr, bytes_eq};
ghost use Rattle.vm_types.specs.declared.command.Command.{Command};
ghost use Rattle.vm_types.specs.Firsts.{IsFirst};
ghost use Rattle.vm_types.specs.Step.{step};
ghost use Rattle.vm_types.specs.Tree.{Alternative, named, has_children, is_full};
ghost use Rattle.vm_types.specs.Outcomes.{IsOutcome};
ghost use Rattle.plain_model.specs.Plain.{IsUnder, parent_refusal};

use crate::alternative::Alternative;
use crate::settlements;
use std::alloc::{AllocError, Global};
use vm_types::{Answer, Key, MAX_VERSIONS, Name, Refusal, Side, ValueRef};

/// The answer to a command.
pub type Reply = Result<Answer, Refusal>;

/// The position of the alternative of this name.
pub(super) fn position_of(tree: &[Alternative], name: &Name) -> Option<usize>
    ensures found { IfSome result (IsFirst (λ a. bytes_eq a.name name.now) tree.now) }
    ensures earlier { IfSome result (λ i. (k : ℕ) (d : Alternative) → k < i → bytes_eq (slice_index_or tree.now k d).name name.now ≡ false) }
    ensures none { IfNone result (find (λ a. bytes_eq a.name name.now) tree.now ≡ None) }
{
    for (i, alternative) in tree.iter().enumerate() {
        if alternative.is_named(name) {
            return Some(i);
        }
    }
    None
}

fn is_there(tree: &[Alternative], name: &Name) -> bool
    ensures { result ≡ is_some (named tree.now name.now) }
{
    position_of(tree, name).is_some()
}

/// The positions of the alternative of this name and of its parent.
pub(super) fn with_parent(tree: &[Alternative], alt: &Name) -> Result<(usize, usize), Refusal>
    ensures places { IfOk result (λ places. IsUnder tree.now alt.now places.0 places.1) }
    ensures refusal { IfErr result (λ refusal. parent_refusal tree.now (named tree.now alt.now) ≡ Some refusal) }
{
    let Some(i) = position_of(tree, alt) else {
        return Err(Refusal::NoSuchAlternative);
    };
    let Some(parent) = tree[i].parent() else {
        return Err(Refusal::IsTop);
    };
    match position_of(tree, &parent) {
        Some(j) => Ok((i, j)),
        None => Err(Refusal::NoSuchAlternative),
    }
}

fn has_children(tree: &[Alternative], name: &Name) -> bool
    ensures { result ≡ has_children tree.now name.now }
{
    tree.iter().any(|alternative| alternative.is_under(name))
}

fn is_full(tree: &[Alternative]) -> bool
    ensures { result ≡ is_full tree.now }
{
    let mut left = MAX_VERSIONS;
    for alternative in tree {
        let saved = alternative.saved_count();
        if left <= 1 || left - 1 <= saved {
            return true;
        }
        left -= 1 + saved;
    }
    false
}

pub(super) fn new_alternative(
    alloc: Global,
    tree: &mut Vec<Alternative>,
    name: &Name,
    parent: &Name,
) -> Result<Reply, AllocError>
    ensures ok { IfOk result (IsOutcome (step tree.old.items (Command.New name.now parent.now)) tree.old.items tree.new.items) }
    ensures err { OnErr result (tree.new.items ≡ tree.old.items) }
{
    let Some(i) = position_of(tree, parent) else {
        return Ok(Err(Refusal::NoSuchAlternative));
    };
    if is_there(tree, name) {
        return Ok(Err(Refusal::AlternativeExists));
    }
    if is_full(tree) {
        return Ok(Err(Refusal::TooMany));
    }
    let child = tree[i].child(alloc, name)?;
    tree.push(child)?;
    Ok(Ok(Answer::Done))
}

pub(super) fn new_alternative_at(
    alloc: Global,
    tree: &mut Vec<Alternative>,
    name: &Name,
    parent: &Name,
    checkpoint: &Name,
) -> Result<Reply, AllocError>
    ensures ok { IfOk result (IsOutcome (step tree.old.items (Command.NewAt name.now parent.now checkpoint.now)) tree.old.items tree.new.items) }
    ensures err { OnErr result (tree.new.items ≡ tree.old.items) }
{
    let Some(i) = position_of(tree, parent) else {
        return Ok(Err(Refusal::NoSuchAlternative));
    };
    if is_there(tree, name) {
        return Ok(Err(Refusal::AlternativeExists));
    }
    let Some(child) = tree[i].child_at(alloc, name, checkpoint)? else {
        return Ok(Err(Refusal::NoSuchCheckpoint));
    };
    if is_full(tree) {
        return Ok(Err(Refusal::TooMany));
    }
    tree.push(child)?;
    Ok(Ok(Answer::Done))
}

pub(super) fn drop_alternative(tree: &mut Vec<Alternative>, alt: &Name) -> Reply
    ensures { IsOutcome (step tree.old.items (Command.Drop alt.now)) tree.old.items tree.new.items result }
{
    let Some(i) = position_of(tree, alt) else {
        return Err(Refusal::NoSuchAlternative);
    };
    if tree[i].parent().is_none() {
        return Err(Refusal::IsTop);
    }
    if has_children(tree, alt) {
        return Err(Refusal::HasChildren);
    }
    tree.remove(i);
    Ok(Answer::Done)
}

pub(super) fn put(
    alloc: Global,
    tree: &mut [Alternative],
    alt: &Name,
    key: Key,
    value: &ValueRef<'_>,
) -> Result<Reply, AllocError>
    ensures ok { IfOk result (IsOutcome (step tree.old (Command.Put alt.now key value.now)) tree.old tree.new) }
    ensures err { OnErr result (tree.new ≡ tree.old) }
{
    let Some(i) = position_of(tree, alt) else {
        return Ok(Err(Refusal::NoSuchAlternative));
    };
    tree[i].put(alloc, key, value)?;
    Ok(Ok(Answer::Done))
}

pub(super) fn remove(
    alloc: Global,
    tree: &mut [Alternative],
    alt: &Name,
    key: Key,
) -> Result<Reply, AllocError>
    ensures ok { IfOk result (IsOutcome (step tree.old (Command.Remove alt.now key)) tree.old tree.new) }
    ensures err { OnErr result (tree.new ≡ tree.old) }
{
    let Some(i) = position_of(tree, alt) else {
        return Ok(Err(Refusal::NoSuchAlternative));
    };
    if tree[i].get(key).is_none() {
        return Ok(Err(Refusal::NoSuchRecord));
    }
    tree[i].remove(alloc, key)?;
    Ok(Ok(Answer::Done))
}

pub(super) fn checkpoint(
    alloc: Global,
    tree: &mut [Alternative],
    alt: &Name,
    name: &Name,
) -> Result<Reply, AllocError>
    ensures ok { IfOk result (IsOutcome (step tree.old (Command.Checkpoint alt.now name.now)) tree.old tree.new) }
    ensures err { OnErr result (tree.new ≡ tree.old) }
{
    let Some(i) = position_of(tree, alt) else {
        return Ok(Err(Refusal::NoSuchAlternative));
    };
    if tree[i].has_saved(name) {
        return Ok(Err(Refusal::CheckpointExists));
    }
    if is_full(tree) {
        return Ok(Err(Refusal::TooMany));
    }
    tree[i].save(alloc, name)?;
    Ok(Ok(Answer::Done))
}

pub(super) fn uncheck(tree: &mut [Alternative], alt: &Name, name: &Name) -> Reply
    ensures { IsOutcome (step tree.old (Command.Uncheck alt.now name.now)) tree.old tree.new result }
{
    let Some(i) = position_of(tree, alt) else {
        return Err(Refusal::NoSuchAlternative);
    };
    if !tree[i].has_saved(name) {
        return Err(Refusal::NoSuchCheckpoint);
    }
    tree[i].forget(name);
    Ok(Answer::Done)
}

pub(super) fn back(
    alloc: Global,
    tree: &mut [Alternative],
    alt: &Name,
    name: &Name,
) -> Result<Reply, AllocError>
    ensures ok { IfOk result (IsOutcome (step tree.old (Command.Back alt.now name.now)) tree.old tree.new) }
    ensures err { OnErr result (tree.new ≡ tree.old) }
{
    let Some(i) = position_of(tree, alt) else {
        return Ok(Err(Refusal::NoSuchAlternative));
    };
    if !tree[i].has_saved(name) {
        return Ok(Err(Refusal::NoSuchCheckpoint));
    }
    tree[i].go_back(alloc, name)?;
    Ok(Ok(Answer::Done))
}

pub(super) fn merge(
    alloc: Global,
    tree: &mut [Alternative],
    alt: &Name,
    settled: &[(Key, Side)],
) -> Result<Reply, AllocError>
    ensures ok { IfOk result (IsOutcome (step tree.old (Command.Merge alt.now settled.now)) tree.old tree.new) }
    ensures err { OnErr result (tree.new ≡ tree.old) }
{
    let (i, j) = match with_parent(tree, alt) {
        Ok(places) => places,
        Err(refusal) => return Ok(Err(refusal)),
    };
    let conflicts = tree[i].conflicts(alloc, &tree[j])?;
    if let Some(refusal) = settlements::refusal(settled, &conflicts) {
        return Ok(Err(refusal));
    }
    let merged = tree[i].merged(alloc, &tree[j], settled)?;
    let count = tree[i].change_count(alloc, &merged)?;
    let base = tree[j].records(alloc)?;
    tree[i].rebase(merged, base);
    Ok(Ok(Answer::Merged(count)))
}

pub(super) fn post(alloc: Global, tree: &mut [Alternative], alt: &Name) -> Result<Reply, AllocError>
    ensures ok { IfOk result (IsOutcome (step tree.old (Command.Post alt.now)) tree.old tree.new) }
    ensures err { OnErr result (tree.new ≡ tree.old) }
{
    let (i, j) = match with_parent(tree, alt) {
        Ok(places) => places,
        Err(refusal) => return Ok(Err(refusal)),
    };
    if !tree[i].is_merged(&tree[j]) {
        return Ok(Err(Refusal::NotMerged));
    }
    let current = tree[i].records(alloc)?;
    let base = tree[i].records(alloc)?;
    tree[j].set_current(current);
    tree[i].set_base(base);
    Ok(Ok(Answer::Done))
}

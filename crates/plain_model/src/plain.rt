//! The plain model: two trees of alternatives with whole copies of all maps, each with a number of
//! blocks.
ghost use Rattle.std.specs.Prelude.{◌≡◌, ◌≢◌, IfOk, OnOk, OnErr};
ghost use Rattle.vm_types.specs.Shape.{shape};
ghost use Rattle.vm_types.specs.State.{opened, committed_of, answer_of, outcome, next};
ghost use Rattle.vm_types.specs.Tree.{fresh};
ghost use Rattle.vm_types.specs.Queries.{value_in};
ghost use Rattle.vm_types.specs.Queries.{IsList, records_in, checkpoints_in, changes_in, conflicts_in};
ghost use Rattle.plain_model.specs.Plain.{IsAnswer};

use crate::alternative::{self, Alternative};
use crate::steps::{self, Reply};
use std::alloc::{AllocError, Global};
use std::marker::Model;
use vm_types::{Answer, Change, Command, Conflict, Key, MAX_BLOCKS, Name, Refusal, Value};

/// A store as the definitions have it: slow, and obvious.
#[derive(Drop)]
pub struct Plain {
    alloc: Global,
    committed: Vec<Alternative>,
    kept: u32,
    working: Vec<Alternative>,
    blocks: u32,
}

impl Model for Plain {
    ghost use Rattle.vm_types.specs.State.{State};

    ghost Value = { State };

    ghost view = { λ p. record { committed = p.committed.items; kept = p.kept; working = p.working.items; blocks = p.blocks } };
}

/// The tree of a new store.
fn fresh_tree(alloc: Global) -> Result<Vec<Alternative>, AllocError>
    ensures { IfOk result (λ tree. tree.items ≡ fresh) }
{
    let Some(top) = Name::new(b"top") else {
        unreachable!();
    };
    let mut tree = Vec::new(alloc);
    tree.push(Alternative::first(alloc, &top))?;
    Ok(tree)
}

fn reply_of(reply: Result<Reply, AllocError>) -> Reply
    ensures ok { IfOk reply (λ given. result ≡ given) }
    ensures err { OnErr reply (result ≡ Err Refusal.Memory) }
{
    match reply {
        Ok(given) => given,
        Err(_) => Err(Refusal::Memory),
    }
}

impl Plain {
    /// The model of a new store of this many blocks.
    pub fn new(alloc: Global, blocks: u32) -> Result<Plain, AllocError>
        ensures { IfOk result (λ plain. plain ≡ opened (record { tree = fresh; blocks = blocks })) }
    {
        Ok(Plain {
            alloc,
            committed: fresh_tree(alloc)?,
            kept: blocks,
            working: fresh_tree(alloc)?,
            blocks,
        })
    }

    /// The store after it was closed and opened again: uncommitted changes are gone.
    pub fn reopened(&self) -> Result<Plain, AllocError>
        ensures { IfOk result (λ plain. plain ≡ opened (committed_of self.now)) }
    {
        Ok(Plain {
            alloc: self.alloc,
            committed: alternative::copy_tree(self.alloc, &self.committed)?,
            kept: self.kept,
            working: alternative::copy_tree(self.alloc, &self.committed)?,
            blocks: self.kept,
        })
    }

    /// A copy of it.
    pub fn copy(&self) -> Result<Plain, AllocError>
        ensures { IfOk result (λ copy. copy ≡ self.now) }
    {
        Ok(Plain {
            alloc: self.alloc,
            committed: alternative::copy_tree(self.alloc, &self.committed)?,
            kept: self.kept,
            working: alternative::copy_tree(self.alloc, &self.working)?,
            blocks: self.blocks,
        })
    }

    /// Carries out one command. If there is no memory for it, it changes nothing.
    pub fn apply(&mut self, command: &Command<'_>) -> Reply
        ensures answer { IsAnswer self.old command.now result }
        ensures state { self.new ≡ next self.old command.now result }
    {
        let (alloc, tree) = (self.alloc, &mut self.working);
        match command {
            Command::New { name, parent } => {
                reply_of(steps::new_alternative(alloc, tree, name, parent))
            }
            Command::NewAt {
                name,
                parent,
                checkpoint,
            } => reply_of(steps::new_alternative_at(alloc, tree, name, parent, checkpoint)),
            Command::Drop { alt } => steps::drop_alternative(tree, alt),
            Command::Put { alt, key, value } => {
                reply_of(steps::put(alloc, tree, alt, *key, value))
            }
            Command::Remove { alt, key } => reply_of(steps::remove(alloc, tree, alt, *key)),
            Command::Checkpoint { alt, name } => {
                reply_of(steps::checkpoint(alloc, tree, alt, name))
            }
            Command::Uncheck { alt, name } => steps::uncheck(tree, alt, name),
            Command::Back { alt, name } => reply_of(steps::back(alloc, tree, alt, name)),
            Command::Merge { alt, settled } => {
                reply_of(steps::merge(alloc, tree, alt, settled.as_slice()))
            }
            Command::Post { alt } => reply_of(steps::post(alloc, tree, alt)),
            Command::Commit => self.commit(),
            Command::Rollback => self.rollback(),
            Command::Reclaim => Ok(Answer::Done),
            Command::Grow { blocks } => self.grow(*blocks),
        }
    }

    fn commit(&mut self) -> Reply
        ensures answer { IsAnswer self.old Command.Commit result }
        ensures state { self.new ≡ next self.old Command.Commit result }
    {
        match alternative::copy_tree(self.alloc, &self.working) {
            Ok(tree) => {
                self.committed = tree;
                self.kept = self.blocks;
                Ok(Answer::Done)
            }
            Err(_) => Err(Refusal::Memory),
        }
    }

    fn rollback(&mut self) -> Reply
        ensures answer { IsAnswer self.old Command.Rollback result }
        ensures state { self.new ≡ next self.old Command.Rollback result }
    {
        match alternative::copy_tree(self.alloc, &self.committed) {
            Ok(tree) => {
                self.working = tree;
                self.blocks = self.kept;
                Ok(Answer::Done)
            }
            Err(_) => Err(Refusal::Memory),
        }
    }

    fn grow(&mut self, blocks: u32) -> Reply
        ensures answer { result ≡ answer_of (outcome self.old (Command.Grow blocks)) }
        ensures state { self.new ≡ next self.old (Command.Grow blocks) result }
    {
        if blocks <= self.blocks || blocks > MAX_BLOCKS {
            return Err(Refusal::BadSize);
        }
        self.blocks = blocks;
        Ok(Answer::Done)
    }

    /// How many blocks the working state has.
    pub fn blocks(&self) -> u32
        ensures { result ≡ self.now.blocks }
    {
        self.blocks
    }

    /// The value of a record in the working state of an alternative.
    pub fn get(&self, alt: &Name, key: Key) -> Result<Option<Value>, Refusal>
        ensures { result ≡ value_in self.now.working alt.now key }
    {
        match steps::position_of(&self.working, alt) {
            Some(i) => Ok(self.working[i].get(key)),
            None => Err(Refusal::NoSuchAlternative),
        }
    }

    /// All records in the working state of an alternative, by rising keys.
    pub fn list(&self, alt: &Name) -> Result<Vec<(Key, Value)>, Refusal>
        ensures records { IsList result (records_in self.now.working alt.now) }
        ensures device { result ≢ Err Refusal.Device }
    {
        match steps::position_of(&self.working, alt) {
            Some(i) => self.working[i]
                .values(self.alloc)
                .map_err(|_| Refusal::Memory),
            None => Err(Refusal::NoSuchAlternative),
        }
    }

    /// All alternatives of the working state with their parents, in order of creation.
    pub fn alternatives(&self) -> Result<Vec<(Name, Option<Name>)>, AllocError>
        ensures { IfOk result (λ list. list.items ≡ shape self.now.working) }
    {
        alternative::tree_labels(self.alloc, &self.working)
    }

    /// The names of an alternative's checkpoints in the working state, in order of creation.
    pub fn checkpoints(&self, alt: &Name) -> Result<Vec<Name>, Refusal>
        ensures names { IsList result (checkpoints_in self.now.working alt.now) }
        ensures device { result ≢ Err Refusal.Device }
    {
        match steps::position_of(&self.working, alt) {
            Some(i) => self.working[i]
                .saved_names(self.alloc)
                .map_err(|_| Refusal::Memory),
            None => Err(Refusal::NoSuchAlternative),
        }
    }

    /// What changed in an alternative since its base, in the working state, by rising keys.
    pub fn changes(&self, alt: &Name) -> Result<Vec<Change>, Refusal>
        ensures changes { IsList result (changes_in self.now.working alt.now) }
        ensures device { result ≢ Err Refusal.Device }
    {
        match steps::position_of(&self.working, alt) {
            Some(i) => self.working[i]
                .changes(self.alloc)
                .map_err(|_| Refusal::Memory),
            None => Err(Refusal::NoSuchAlternative),
        }
    }

    /// The conflicts of an alternative with its parent, in the working state, by rising keys.
    pub fn conflicts(&self, alt: &Name) -> Result<Vec<Conflict>, Refusal>
        ensures conflicts { IsList result (conflicts_in self.now.working alt.now) }
        ensures device { result ≢ Err Refusal.Device }
    {
        let (i, j) = steps::with_parent(&self.working, alt)?;
        self.working[i]
            .conflicts(self.alloc, &self.working[j])
            .map_err(|_| Refusal::Memory)
    }
}

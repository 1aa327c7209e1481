//! The plain model, and which commands a store refuses for lack of room.
ghost use Rattle.std.specs.Prelude.{◌<◌, length, IfSome};

use super::trees::{EMPTY, Trees};
use plain_model::Plain;
use std::alloc::Global;
use testkit::{Reply, Wrong, top};
use vm_types::{Change, Command, Key, Name, Refusal, Side, Value};

/// How many blocks come before the first data block.
const FIRST_DATA: u32 = 34;

/// How many blocks must be spare for a record change.
const BLOCKS_A_CHANGE: u32 = 17;

/// The roots of the maps of one entry.
#[derive(Clone, Copy)]
struct Roots {
    alt: Name,
    saved: Option<Name>,
    current: usize,
    base: usize,
}

/// What is known of a store.
#[derive(Drop)]
pub struct Model {
    pub plain: Plain,
    alloc: Global,
    free: u32,
    // How many blocks are committed, and how many of these are free. They are taken before those
    // that came by a Grow since then.
    kept: u32,
    kept_free: u32,
    // The nodes in blocks that came by a Grow since the last Commit.
    behind: Vec<usize>,
    trees: Trees,
    committed: Vec<Roots>,
    working: Vec<Roots>,
    // The alternative of the series of changes that goes on, and the first node that it made.
    series: Option<Name>,
    first: usize,
    /// The side in whose map the last Merge made changes, if it made any.
    pub merged_in: Option<Side>,
}

/// What a Merge does: the changes that it makes, in the map of a side.
#[derive(Drop)]
struct Plan {
    side: Side,
    changes: Vec<Change>,
}

fn position(entries: &[Roots], alt: &Name, saved: Option<Name>) -> Option<usize>
    ensures { IfSome result (λ i. i < length entries.now) }
{
    entries
        .iter()
        .position(|roots| roots.alt == *alt && roots.saved == saved)
}

impl Model {
    /// The model of a new store of this many blocks.
    pub(super) fn new(alloc: Global, blocks: u32) -> Result<Model, Wrong> {
        let first = Roots {
            alt: top(),
            saved: None,
            current: EMPTY,
            base: EMPTY,
        };
        Ok(Model {
            plain: Plain::new(alloc, blocks)?,
            alloc,
            free: blocks.saturating_sub(FIRST_DATA),
            kept: blocks,
            kept_free: blocks.saturating_sub(FIRST_DATA),
            behind: Vec::new(alloc),
            trees: Trees::new(alloc)?,
            committed: Vec::from_elem(alloc, first, 1)?,
            working: Vec::from_elem(alloc, first, 1)?,
            series: None,
            first: 0,
            merged_in: None,
        })
    }

    /// The store after it was closed and opened again.
    pub(super) fn reopened(&self) -> Result<Model, Wrong> {
        let mut opened = Model {
            plain: self.plain.reopened()?,
            alloc: self.alloc,
            free: 0,
            kept: self.kept,
            kept_free: 0,
            behind: Vec::new(self.alloc),
            trees: self.trees.copy()?,
            committed: Vec::from_slice(self.alloc, &self.committed)?,
            working: Vec::from_slice(self.alloc, &self.committed)?,
            series: None,
            first: 0,
            merged_in: None,
        };
        opened.mark()?;
        Ok(opened)
    }

    /// The answer that a store must give if the device serves it.
    pub(super) fn apply(&mut self, command: &Command<'_>) -> Result<Reply, Wrong> {
        match command {
            Command::Merge { alt, .. } => self.merge(alt, command),
            Command::Grow { .. } => Ok(self.grow(command)),
            _ if self.changes_a_record(command) && !self.has_room(1)? => Ok(Err(Refusal::Full)),
            _ => {
                let reply = self.plain.apply(command);
                if reply.is_ok() {
                    self.follow(command)?;
                }
                Ok(reply)
            }
        }
    }

    /// How many blocks are free: the data blocks that no map was in at the last marking, and that
    /// no change has taken since.
    pub(super) fn free(&self) -> u32 {
        self.free
    }

    /// The parent of an alternative, if it has one.
    pub(super) fn parent_of(&self, alt: &Name) -> Result<Option<Name>, Wrong> {
        let alternatives = self.plain.alternatives()?;
        for (name, parent) in &alternatives {
            if name == alt {
                return Ok(*parent);
            }
        }
        Ok(None)
    }

    /// How many levels of blocks the map of an alternative has above its leaves.
    pub(super) fn level(&self, alt: &Name) -> u32 {
        match position(&self.working, alt, None) {
            Some(i) => self.trees.level(self.working[i].current),
            None => 0,
        }
    }

    /// Frees all data blocks that neither the committed maps nor the working ones are in.
    fn mark(&mut self) -> Result<(), Wrong> {
        let mut roots = Vec::new(self.alloc);
        for entries in [&self.committed, &self.working] {
            for entry in entries {
                roots.extend_from_slice(&[entry.current, entry.base])?;
            }
        }
        let reached = self.trees.reached(&roots)?;
        let mut behind: u32 = 0;
        for node in &self.behind {
            if *node < reached.len() && reached[*node] {
                behind = behind.saturating_add(1);
            }
        }
        let mut all: u32 = 0;
        for is_reached in &reached {
            if *is_reached {
                all = all.saturating_add(1);
            }
        }
        let own = FIRST_DATA.saturating_add(all);
        self.free = self.plain.blocks().saturating_sub(own);
        self.kept_free = self.kept.saturating_sub(own.saturating_sub(behind));
        Ok(())
    }

    /// Whether enough blocks are spare for this many record changes. If fewer are free, the blocks
    /// that maps are in are marked.
    fn has_room(&mut self, changes: usize) -> Result<bool, Wrong> {
        if !self.has_free(changes) {
            self.mark()?;
        }
        Ok(self.has_free(changes))
    }

    fn has_free(&self, changes: usize) -> bool {
        changes <= (self.free / BLOCKS_A_CHANGE) as usize
    }

    /// Whether this is a Put or a Remove that the plain model accepts.
    fn changes_a_record(&self, command: &Command<'_>) -> bool {
        match command {
            Command::Put { alt, key, .. } => self.plain.get(alt, *key).is_ok(),
            Command::Remove { alt, key } => matches!(self.plain.get(alt, *key), Ok(Some(_))),
            _ => false,
        }
    }

    /// What a Merge does that leaves these records: what came in is put into the alternative's map,
    /// or what stays of its own into the parent's, whichever takes fewer changes.
    fn plan(&self, alt: &Name, merged: &[(Key, Value)]) -> Result<Plan, Wrong> {
        let parent = self.parent_of(alt)?.unwrap_or(*alt);
        let came = plain_model::changes(self.alloc, &self.plain.list(alt)?, merged)?;
        let stays = plain_model::changes(self.alloc, &self.plain.list(&parent)?, merged)?;
        Ok(if came.len() < stays.len() {
            Plan {
                side: Side::Mine,
                changes: came,
            }
        } else {
            Plan {
                side: Side::Theirs,
                changes: stays,
            }
        })
    }

    /// The answer to a Merge. Its changes are made one after another, by rising keys, if there is
    /// room for all.
    fn merge(&mut self, alt: &Name, command: &Command<'_>) -> Result<Reply, Wrong> {
        self.merged_in = None;
        let mut merged = self.plain.copy()?;
        let reply = merged.apply(command);
        if reply.is_err() {
            return Ok(reply);
        }
        let plan = self.plan(alt, &merged.list(alt)?)?;
        if !self.has_room(plan.changes.len())? {
            return Ok(Err(Refusal::Full));
        }
        self.plain = merged;
        self.follow_merge(alt, &plan)?;
        Ok(reply)
    }

    /// The answer to a Grow. The new blocks are free.
    fn grow(&mut self, command: &Command<'_>) -> Reply {
        let before = self.plain.blocks();
        let reply = self.plain.apply(command);
        let more = self.plain.blocks().saturating_sub(before);
        if reply.is_ok() {
            self.series = None;
        }
        self.free = self.free.saturating_add(more);
        reply
    }

    /// What an accepted command other than a Merge or a Grow does to the blocks that maps are in.
    fn follow(&mut self, command: &Command<'_>) -> Result<(), Wrong> {
        self.begin_series(command);
        let first = self.first;
        match command {
            Command::New { name, parent } => self.follow_new(name, parent, None)?,
            Command::NewAt {
                name,
                parent,
                checkpoint,
            } => self.follow_new(name, parent, Some(*checkpoint))?,
            Command::Drop { alt } => self.working.retain(|roots| roots.alt != *alt),
            Command::Put { alt, key, value } => {
                self.follow_put(alt, *key, value.as_bytes(), first)?
            }
            Command::Remove { alt, key } => self.follow_remove(alt, *key, first)?,
            Command::Checkpoint { alt, name } => self.follow_checkpoint(alt, name)?,
            Command::Uncheck { alt, name } => {
                if let Some(i) = position(&self.working, alt, Some(*name)) {
                    self.working.remove(i);
                }
            }
            Command::Back { alt, name } => self.follow_back(alt, name),
            Command::Merge { .. } | Command::Grow { .. } => {}
            Command::Post { alt } => self.follow_post(alt)?,
            Command::Commit => {
                self.committed.clear();
                self.committed.extend_from_slice(&self.working)?;
                self.kept = self.plain.blocks();
                self.kept_free = self.free;
                self.behind.clear();
            }
            Command::Rollback => {
                self.working.clear();
                self.working.extend_from_slice(&self.committed)?;
                self.free = self.kept_free;
                self.behind.clear();
            }
            Command::Reclaim => self.mark()?,
        }
        Ok(())
    }

    /// A series goes on with a Put or a Remove of its alternative, and one of another begins the
    /// next. Each other command ends it.
    fn begin_series(&mut self, command: &Command<'_>) {
        let now = match command {
            Command::Put { alt, .. } | Command::Remove { alt, .. } => Some(*alt),
            _ => None,
        };
        if now.is_none() || self.series != now {
            self.series = now;
            self.first = self.trees.next();
        }
    }

    /// The new alternative shares the blocks of what its parent shows, or of what one of the
    /// parent's checkpoints does.
    fn follow_new(
        &mut self,
        name: &Name,
        parent: &Name,
        checkpoint: Option<Name>,
    ) -> Result<(), Wrong> {
        if let Some(i) = position(&self.working, parent, checkpoint) {
            let current = self.working[i].current;
            let roots = Roots {
                alt: *name,
                saved: None,
                current,
                base: current,
            };
            self.working.push(roots)?;
        }
        Ok(())
    }

    fn follow_put(
        &mut self,
        alt: &Name,
        key: Key,
        value: &[u8],
        first: usize,
    ) -> Result<(), Wrong> {
        if let Some(i) = position(&self.working, alt, None) {
            let blocks = self.trees.blocks();
            let root = self.working[i].current;
            self.working[i].current = self.trees.put(root, key, value.len(), first)?;
            self.take_new(blocks)?;
        }
        Ok(())
    }

    fn follow_remove(&mut self, alt: &Name, key: Key, first: usize) -> Result<(), Wrong> {
        if let Some(i) = position(&self.working, alt, None) {
            let blocks = self.trees.blocks();
            self.working[i].current = self.trees.remove(self.working[i].current, key, first)?;
            self.take_new(blocks)?;
        }
        Ok(())
    }

    /// The blocks that were written since there were this many are no longer free. Each was the
    /// lowest free one.
    fn take_new(&mut self, blocks: u32) -> Result<(), Wrong> {
        for node in blocks..self.trees.blocks() {
            self.free = self.free.saturating_sub(1);
            if self.kept_free > 0 {
                self.kept_free = self.kept_free.saturating_sub(1);
            } else {
                self.behind.push((node as usize).saturating_add(1))?;
            }
        }
        Ok(())
    }

    /// The base is in the blocks of what the parent shows. The changes are made on from there, or
    /// from what the alternative showed.
    fn follow_merge(&mut self, alt: &Name, plan: &Plan) -> Result<(), Wrong> {
        let parent = self.parent_of(alt)?.unwrap_or(*alt);
        let own = position(&self.working, alt, None);
        let above = position(&self.working, &parent, None);
        if let (Some(own), Some(above)) = (own, above) {
            let shown = self.working[above].current;
            self.working[own].base = shown;
            if plan.side == Side::Theirs {
                self.working[own].current = shown;
            }
        }
        self.series = None;
        let first = self.trees.next();
        for change in &plan.changes {
            self.merged_in = Some(plan.side);
            match &change.after {
                Some(value) => { self.follow_put(alt, change.key, value.as_bytes(), first)? }
                None => self.follow_remove(alt, change.key, first)?,
            }
        }
        Ok(())
    }

    /// The parent and the base are in the blocks of what the alternative shows.
    fn follow_post(&mut self, alt: &Name) -> Result<(), Wrong> {
        let parent = self.parent_of(alt)?.unwrap_or(*alt);
        let own = position(&self.working, alt, None);
        let above = position(&self.working, &parent, None);
        if let (Some(own), Some(above)) = (own, above) {
            let current = self.working[own].current;
            self.working[above].current = current;
            self.working[own].base = current;
        }
        Ok(())
    }

    fn follow_checkpoint(&mut self, alt: &Name, name: &Name) -> Result<(), Wrong> {
        if let Some(i) = position(&self.working, alt, None) {
            let checkpoint = Roots {
                saved: Some(*name),
                ..self.working[i]
            };
            self.working.push(checkpoint)?;
        }
        Ok(())
    }

    fn follow_back(&mut self, alt: &Name, name: &Name) {
        let to = position(&self.working, alt, None);
        let from = position(&self.working, alt, Some(*name));
        if let (Some(to), Some(from)) = (to, from) {
            let Roots { current, base, .. } = self.working[from];
            self.working[to] = Roots {
                current,
                base,
                ..self.working[to]
            };
        }
    }
}

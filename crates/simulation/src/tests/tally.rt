//! Counts of what random sessions must meet.
use std::cmp::Ordering;
use testkit::Reply;
use vm_types::{Answer, Command, Key, Name, Refusal, Side};

/// How many kinds of commands there are.
const KINDS: usize = 14;

/// How many cases there are.
const CASES: usize = 16;

/// What sessions must meet apart from each kind of command and of refusal.
#[derive(Clone, Copy)]
pub enum Case {
    /// A command added a level to a map.
    Grown,
    /// A command took a level from a map.
    Shrunk,
    /// The device stopped in a Commit, and what was committed before is shown.
    KeptOld,
    /// The device stopped in a Commit, and what it commits is shown.
    KeptNew,
    /// A Merge changed no record.
    MergedNone,
    /// A Merge changed several records.
    MergedMany,
    /// A Merge made its changes in the alternative's own map.
    MergedInOwn,
    /// A Merge made its changes in the parent's map.
    MergedInParents,
    /// A conflict was settled with the alternative's value.
    Mine,
    /// A conflict was settled with the parent's value.
    Theirs,
    /// A Merge found few blocks free, and marked those that maps are in.
    Marked,
    /// A Merge found no room for all of its changes, but there was room for one.
    MergedFull,
    /// An alternative was posted after it was merged.
    MergedAndPosted,
    /// A store was opened on a disk with more blocks than the store.
    LongerDisk,
    /// A crash took new blocks away.
    CutShort,
    /// A Rollback took away blocks that came by a Grow.
    GrowthUndone,
}

/// What a command may change apart from records: how many levels its alternative's map has, how
/// many blocks are free, and how many there are.
#[derive(Clone, Copy)]
pub struct Sight {
    pub level: u32,
    pub free: u32,
    pub blocks: u32,
}

/// How often each was met: refusals by number, accepted commands by kind, and the cases.
#[derive(Clone, Copy)]
pub struct Tally {
    refused: [u32; 22],
    accepted: [u32; KINDS],
    met: [u32; CASES],
    merged: Option<Name>,
}

fn add_one(counts: &mut [u32], at: usize) {
    if at < counts.len() {
        counts[at] = counts[at].saturating_add(1);
    }
}

fn kind(command: &Command<'_>) -> usize {
    match command {
        Command::New { .. } => 0,
        Command::Drop { .. } => 1,
        Command::Put { .. } => 2,
        Command::Remove { .. } => 3,
        Command::Checkpoint { .. } => 4,
        Command::Uncheck { .. } => 5,
        Command::Back { .. } => 6,
        Command::Merge { .. } => 7,
        Command::Post { .. } => 8,
        Command::Commit => 9,
        Command::Reclaim => 10,
        Command::NewAt { .. } => 11,
        Command::Grow { .. } => 12,
        Command::Rollback => 13,
    }
}

impl Tally {
    pub(super) fn new() -> Tally {
        Tally {
            refused: [0; 22],
            accepted: [0; KINDS],
            met: [0; CASES],
            merged: None,
        }
    }

    pub(super) fn meet(&mut self, case: Case) {
        add_one(&mut self.met, case as usize);
    }

    /// Counts a command with its answer, and with what was seen before and after it.
    pub(super) fn count(
        &mut self,
        command: &Command<'_>,
        answer: &Reply,
        before: Sight,
        after: Sight,
    ) {
        match answer {
            Ok(_) => add_one(&mut self.accepted, kind(command)),
            Err(refusal) => add_one(&mut self.refused, refusal.code() as usize),
        }
        match before.level.cmp(&after.level) {
            Ordering::Less => self.meet(Case::Grown),
            Ordering::Equal => {}
            Ordering::Greater => self.meet(Case::Shrunk),
        }
        match command {
            Command::Merge { alt, settled } => {
                if before.free < after.free {
                    self.meet(Case::Marked);
                }
                self.count_merge(*alt, settled.as_slice(), answer, after.free);
            }
            Command::Post { alt } if answer.is_ok() && self.merged == Some(*alt) => {
                self.meet(Case::MergedAndPosted);
            }
            Command::Rollback if after.blocks < before.blocks => {
                self.meet(Case::GrowthUndone);
            }
            _ => {}
        }
    }

    /// Counts in whose map a Merge made changes, if one did.
    pub(super) fn count_side(&mut self, merged_in: Option<Side>) {
        match merged_in {
            Some(Side::Mine) => self.meet(Case::MergedInOwn),
            Some(Side::Theirs) => self.meet(Case::MergedInParents),
            None => {}
        }
    }

    fn count_merge(&mut self, alt: Name, settled: &[(Key, Side)], answer: &Reply, free: u32) {
        match answer {
            Ok(Answer::Merged(changes)) => {
                self.merged = Some(alt);
                match changes {
                    0 => self.meet(Case::MergedNone),
                    1 => {}
                    _ => self.meet(Case::MergedMany),
                }
                for (_, side) in settled {
                    match side {
                        Side::Mine => self.meet(Case::Mine),
                        Side::Theirs => self.meet(Case::Theirs),
                    }
                }
            }
            Err(Refusal::Full) if free >= 17 => self.meet(Case::MergedFull),
            _ => {}
        }
    }

    /// The first count that is too low, with what it counts: a kind of commands, a refusal or a
    /// case.
    pub(super) fn too_low(&self) -> Option<(&'static str, usize, u32)> {
        for (kind, count) in self.accepted.iter().enumerate() {
            if *count <= 20 {
                return Some(("accepted", kind, *count));
            }
        }
        for code in [1, 2, 3, 4, 5, 6, 7, 8, 9, 10, 11, 13, 21] {
            if self.refused[code] == 0 {
                return Some(("refused", code, 0));
            }
        }
        for (case, count) in self.met.iter().enumerate() {
            if *count == 0 {
                return Some(("met", case, *count));
            }
        }
        None
    }
}

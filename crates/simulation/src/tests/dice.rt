//! Random choices, the same for the same seed.
ghost use Rattle.std.specs.Prelude.{◌<◌, ◌≤◌};

use super::cast::{ALTERNATIVES, CHECKPOINTS, KEYS, alternative, checkpoint, key};
use plain_model::Plain;
use rand_core::{Rng, SeedableRng};
use rand_xoshiro::Xoshiro256PlusPlus;
use std::alloc::{AllocError, Global};
use testkit::top;
use vm_types::{Block, Command, Conflict, Key, Name, Settled, Side, Value, ValueRef};

/// How many draws make a command other than a Drop, Uncheck or Remove.
const ADDITIONS: u32 = 34;

/// More blocks than a store may have.
const TOO_MANY: u32 = 67_108_865;

/// Whether no command removes anything, some do, or most of them do.
#[derive(Clone, Copy, PartialEq, Eq)]
enum Season {
    Growth,
    Change,
    Sweep,
}

#[derive(Drop)]
pub struct Dice {
    rng: Xoshiro256PlusPlus,
    room: u32,
    keeps: bool,
    season: Season,
    next: u32,
    merged: Option<Name>,
}

impl Dice {
    /// With an odd seed, there is no Drop, Uncheck or Remove. The disk has room for `room` blocks.
    pub(super) fn new(seed: u64, room: u32) -> Dice {
        Dice {
            rng: Xoshiro256PlusPlus::seed_from_u64(seed),
            room,
            keeps: seed % 2 == 1,
            season: Season::Growth,
            next: 0,
            merged: None,
        }
    }

    /// Begins a new season. It may be a sweep if `top` has more than one leaf: then most commands
    /// remove one key of `top` after another, so that whole leaves become empty.
    pub(super) fn turn(&mut self, many_leaves: bool) {
        self.season = match self.below(4) {
            _ if self.keeps => Season::Growth,
            0 => Season::Change,
            1 | 2 if many_leaves => Season::Sweep,
            _ => Season::Growth,
        };
        self.next = self.below(KEYS);
    }

    /// A number below the bound.
    pub(super) fn below(&mut self, bound: u32) -> u32
        requires { 0 < bound }
        ensures { result < bound }
    {
        self.rng.next_u32() % bound
    }

    /// True one time out of this many.
    pub(super) fn once_in(&mut self, times: u32) -> bool
        requires { 0 < times }
    {
        self.below(times) == 0
    }

    fn alt(&mut self) -> Name {
        if self.once_in(2) {
            top()
        } else {
            alternative(self.below(ALTERNATIVES))
        }
    }

    /// Mostly an alternative other than `top`.
    fn child(&mut self) -> Name {
        if self.once_in(12) {
            top()
        } else {
            alternative(1 + self.below(ALTERNATIVES - 1))
        }
    }

    fn checkpoint(&mut self) -> Name {
        checkpoint(self.below(CHECKPOINTS))
    }

    /// Any key, but every second time one of a few.
    pub(super) fn key(&mut self) -> Key {
        if self.once_in(2) {
            key(5 * self.below(KEYS / 5))
        } else {
            key(self.below(KEYS))
        }
    }

    /// The key after the last one that was drawn this way. The first follows the last.
    fn next_key(&mut self) -> Key {
        self.next = self.next.saturating_add(1) % KEYS;
        key(self.next)
    }

    /// Now and then one of two values, and otherwise one that no other draw gives.
    fn value(&mut self) -> Value {
        match self.below(6) {
            0 => return Value::default(),
            1 => return Value::new(b"duct").unwrap_or_default(),
            _ => {}
        }
        let len = self.length();
        let mut bytes = [0; Value::MAX_LEN];
        self.rng.fill_bytes(&mut bytes[..len]);
        Value::new(&bytes[..len]).unwrap_or_default()
    }

    /// The length of a value in bytes: mostly short, one time out of four up to half a block, and
    /// now and then as long as possible.
    fn length(&mut self) -> usize
        ensures { result ≤ 4000 }
    {
        match self.below(100) {
            0..=3 => Value::MAX_LEN,
            4..=28 => 241 + self.below(1800) as usize,
            _ => 16 + self.below(225) as usize,
        }
    }

    fn side(&mut self) -> Side {
        if self.once_in(2) {
            Side::Mine
        } else {
            Side::Theirs
        }
    }

    /// Settlements of these conflicts, in any order; or none, or ones that do not fit: a key is
    /// settled twice, another key is settled too, or a conflict is left, possibly with another key
    /// in its place.
    fn settled(&mut self, alloc: Global, conflicts: &[Conflict]) -> Result<Settled, AllocError> {
        let mut sides = Vec::new(alloc);
        for conflict in conflicts {
            let at = if self.once_in(2) { 0 } else { sides.len() };
            sides.insert(at, (conflict.key, self.side()))?;
        }
        let wrong = self.below(20);
        if wrong == 0 {
            sides.clear();
        }
        if wrong == 1 || wrong == 2 {
            sides.pop();
        }
        if wrong == 2 || wrong == 3 {
            sides.push((self.key(), self.side()))?;
        }
        if wrong == 4 {
            let key = match conflicts.first() {
                Some(conflict) => conflict.key,
                None => key(0),
            };
            sides.extend_from_slice(&[(key, Side::Mine), (key, Side::Theirs)])?;
        }
        Ok(Settled::from_vec(sides))
    }

    /// A Merge, mostly with settlements that fit.
    fn merge(&mut self, alloc: Global, plain: &Plain) -> Result<Command<'static>, AllocError> {
        let alt = self.child();
        self.merged = Some(alt);
        let settled = match plain.conflicts(&alt) {
            Ok(conflicts) => self.settled(alloc, &conflicts)?,
            Err(_) => self.settled(alloc, &[])?,
        };
        Ok(Command::Merge { alt, settled })
    }

    /// A Drop, Uncheck or Remove. From 11 on, one key of `top` after another is removed.
    fn removal(&mut self, n: u32) -> Command<'static> {
        match n {
            0..=2 => Command::Drop { alt: self.child() },
            3..=5 => Command::Uncheck {
                alt: self.alt(),
                name: self.checkpoint(),
            },
            6..=10 => Command::Remove {
                alt: self.alt(),
                key: self.key(),
            },
            _ => Command::Remove {
                alt: top(),
                key: self.next_key(),
            },
        }
    }

    /// A few more blocks than there are, or now and then many, as far as the disk has room, or else
    /// a bad size.
    fn grow(&mut self, blocks: u32) -> Command<'static> {
        let more = 1
            + if self.once_in(4) {
                self.below(32)
            } else {
                self.below(4)
            };
        Command::Grow {
            blocks: match self.below(8) {
                0 => TOO_MANY,
                1 => blocks.saturating_sub(more),
                2 => blocks,
                _ => blocks.saturating_add(more).min(self.room),
            },
        }
    }

    /// Any other command except a Merge, for a store of this many blocks. From 18 on it is a Put of
    /// a value that is drawn into `value`.
    fn addition<'a>(&mut self, n: u32, blocks: u32, value: &'a mut Value) -> Command<'a> {
        match n {
            0..=2 => Command::Commit,
            3 => Command::Reclaim,
            4..=8 => Command::New {
                name: self.child(),
                parent: self.alt(),
            },
            9..=12 => Command::Checkpoint {
                alt: self.alt(),
                name: self.checkpoint(),
            },
            13 => Command::Back {
                alt: self.alt(),
                name: self.checkpoint(),
            },
            14 => Command::Post { alt: self.child() },
            15 => Command::NewAt {
                name: self.child(),
                parent: self.alt(),
                checkpoint: self.checkpoint(),
            },
            16 => self.grow(blocks),
            17 => Command::Rollback,
            _ => {
                let (alt, key) = (self.alt(), self.key());
                *value = self.value();
                Command::Put {
                    alt,
                    key,
                    value: ValueRef::from(&*value),
                }
            }
        }
    }

    /// A command for a store that shows what the plain model does. Every second Merge is followed
    /// by a Post at once. The value of a Put is drawn into `value`.
    pub(super) fn command<'a>(
        &mut self,
        alloc: Global,
        plain: &Plain,
        value: &'a mut Value,
    ) -> Result<Command<'a>, AllocError> {
        let merged = self.merged;
        self.merged = None;
        if let Some(alt) = merged
            && self.once_in(2)
        {
            return Ok(Command::Post { alt });
        }
        let (removals, merge_in) = match self.season {
            Season::Growth => (0, 8),
            Season::Change => (11, 8),
            Season::Sweep => (173, 40),
        };
        if self.once_in(merge_in) {
            return self.merge(alloc, plain);
        }
        let n = self.below(ADDITIONS + removals);
        if n < ADDITIONS {
            Ok(self.addition(n, plain.blocks(), value))
        } else {
            Ok(self.removal(n - ADDITIONS))
        }
    }

    /// The bytes of a block.
    pub(super) fn bytes(&mut self) -> Block {
        let mut bytes = [0; 4096];
        self.rng.fill_bytes(&mut bytes);
        bytes
    }

    /// What a crash may leave in a block that was not synced: the bytes at the last sync, those
    /// that were last written, a part of each, or any others.
    pub(super) fn left(&mut self, synced: &Block, written: &Block) -> Block {
        match self.below(6) {
            0 => *synced,
            1 => *written,
            2 => [0; 4096],
            3 => [0xFF; 4096],
            4 => self.bytes(),
            _ => {
                let at = self.below(4096) as usize;
                let mut torn = *synced;
                torn[..at].copy_from_slice(&written[..at]);
                torn
            }
        }
    }
}

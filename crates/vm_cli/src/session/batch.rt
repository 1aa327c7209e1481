//! What is held of a batch.
ghost use Rattle.std.specs.Prelude.{◌≤◌, ◌<◌};

use crate::answers::reply::Reply;
use crate::lines::line::{Line, LineKind};
use std::alloc::Global;
use std::mem;
use vm_types::Refusal;

/// How many lines a batch may have.
pub const MAX_LINES: usize = 100_000;
/// How many bytes the lines of a batch may have together.
pub const MAX_BATCH_BYTES: usize = 67_108_864;

/// A line of a batch that is refused before the batch is carried out.
#[derive(Clone, Copy)]
pub(crate) struct Lost {
    /// How many lines of the batch stand before it.
    pub place: usize,
    pub reply: Reply,
    ghost small: { place < 18446744073709551615 },
}

/// The batch that was begun, if one was.
#[derive(Drop)]
pub(crate) struct Batch {
    pub is_open: bool,
    /// Its lines, as long as none of them is lost.
    pub lines: Vec<Line>,
    /// How many bytes these have together.
    pub bytes: usize,
    /// How many lines it has.
    pub count: usize,
    pub lost: Option<Lost>,
    ghost small: { bytes ≤ 67108864 },
}

impl Batch {
    ghost use Rattle.std.specs.Prelude.{◌≡◌, ◌+◌, ◌<◌, ℕ, List, []};
    ghost use Rattle.vm_cli.specs.lines.Input.{HoldsLine};
    ghost use Rattle.vm_cli.specs.answers.Replies.{reply_text};
    ghost use Rattle.vm_cli.specs.session.Streams.{Adds, Held, IsHeld, IsStage, losing};
    ghost use Rattle.vm_cli.specs.session.Streams.Held.{holds};

    /// No batch.
    pub(crate) fn new(alloc: Global) -> Batch
        ensures stage { IsStage result None }
        ensures none { result.count ≡ 0 }
    {
        Batch {
            is_open: false,
            lines: Vec::new(alloc),
            bytes: 0,
            count: 0,
            lost: None,
        }
    }

    /// Begins a batch.
    pub(crate) fn begin(&mut self)
        ensures stage { IsStage self.old None → IsStage self.new (Some (holds [])) }
        ensures same { self.new.count ≡ self.old.count }
    {
        self.is_open = true;
    }

    /// Forgets the batch.
    pub(crate) fn clear(&mut self)
        ensures stage { IsStage self.new None }
        ensures none { self.new.count ≡ 0 }
    {
        self.is_open = false;
        self.lines.clear();
        self.bytes = 0;
        self.count = 0;
        self.lost = None;
    }

    /// Adds a line to the batch, and leaves an empty one in its place. If a line before it is lost,
    /// it is only counted.
    pub(crate) fn hold(&mut self, alloc: Global, line: &mut Line)
        requires room { self.old.count < usize.MAX }
        requires kept { line.old.kind ≡ LineKind.Kept }
        ensures held { (held : Held) (part : List ℕ) → IsHeld self.old held → HoldsLine line.old part
            → (held' : Held) × IsHeld self.new held' × Adds part held held' }
        ensures open { self.new.is_open ≡ self.old.is_open }
        ensures more { self.new.count ≡ self.old.count + 1 }
    {
        if self.lost.is_some() {
            self.count += 1;
            return;
        }
        if self.lines.len() >= MAX_LINES {
            self.lose(Reply::TooLarge);
            return;
        }
        let bytes = self.bytes + line.bytes.len();
        if bytes > MAX_BATCH_BYTES {
            self.lose(Reply::TooLarge);
            return;
        }
        let held = mem::replace(line, Line::new(alloc));
        let Ok(()) = self.lines.push(held) else {
            self.lose(Reply::Refused(Refusal::Memory));
            return;
        };
        self.bytes = bytes;
        self.count += 1;
    }

    /// Counts a line that is refused so, and keeps no line of the batch.
    pub(crate) fn lose(&mut self, reply: Reply)
        requires room { self.old.count < usize.MAX }
        ensures held { (held : Held) → IsHeld self.old held
            → IsHeld self.new (losing (reply_text reply) held) }
        ensures open { self.new.is_open ≡ self.old.is_open }
        ensures more { self.new.count ≡ self.old.count + 1 }
    {
        if self.lost.is_some() {
            self.count += 1;
            return;
        }
        self.lost = Some(Lost {
            place: self.count,
            reply,
        });
        self.lines.clear();
        self.bytes = 0;
        self.count += 1;
    }
}

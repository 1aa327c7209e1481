//! A batch, carried out.
ghost use Rattle.std.specs.Prelude.{◌≡◌, ◌≤◌, ℕ, List, [], length, IfErr};
ghost use Rattle.vm_types.specs.State.{State};
ghost use Rattle.vm_cli.specs.session.Feeds.{FeedsOn};
ghost use Rattle.vm_cli.specs.session.Rounds.{Batch as Commanded, Round};
ghost use Rattle.vm_cli.specs.session.Streams.{CarriesLines, CommitsOrNot, HoldsLines, Settles, Undoes, answer_after, result_of, tried_result, verdict_of};

use crate::answers::reply::Reply;
use crate::answers::text::Text;
use crate::lines::line::Line;
use crate::session::{Grouping, Manner, OnRefusal, ServeFault, Session};
use std::alloc::Global;
use vm_disk::Disk;
use vm_store::Store;
use vm_types::{Command, Refusal};

/// The answer to a line of a batch that was refused.
#[derive(Clone, Copy)]
pub(crate) enum Why {
    /// It stands among the answers, from this byte on.
    Answer(usize),
    Reply(Reply),
}

/// A line of a batch that was refused. The place behind the last line is that of the commit.
#[derive(Clone, Copy)]
pub(crate) struct Stop {
    /// How many lines stand before it.
    pub place: usize,
    pub why: Why,
    pub then: Then,
}

/// What follows from it.
#[derive(Clone, Copy)]
pub(crate) enum Then {
    /// The session goes on.
    GoOn,
    /// The session ends, as the store carries out nothing more.
    Failed,
    /// The session ends, as the commit was not acknowledged.
    Unsure,
}

/// Carries out the lines of a batch, and commits what they did. The answers are those to the lines.
/// If one is refused, all is undone.
pub(crate) fn settle<D: Disk>(
    alloc: Global,
    manner: Manner,
    lines: &[Line],
    answers: &mut Vec<u8>,
    store: &mut Store<D>,
) -> Result<(), Stop>
    ensures settled { (s : State) (parts : List (List ℕ)) → HoldsLines lines.now parts
        → (round : Round) × Settles store.old store.new s manner parts (verdict_of result answers.new.items) round }
    ensures store { FeedsOn (result_of (verdict_of result answers.new.items)) store.old store.new }
    ensures place { IfErr result (λ stop. stop.place ≤ length lines.now) }
{
    answers.clear();
    match carry_out(alloc, manner, lines, answers, store) {
        Ok(()) => commit(lines.len(), store),
        Err(stop) => Err(Stop {
            place: stop.place,
            why: stop.why,
            then: undo(store),
        }),
    }
}

/// Commits what the lines of a batch did.
pub(crate) fn commit<D: Disk>(place: usize, store: &mut Store<D>) -> Result<(), Stop>
    ensures { CommitsOrNot store.old store.new place result }
{
    match store.apply(&Command::Commit) {
        Ok(_) => Ok(()),
        Err(_) => Err(Stop {
            place,
            why: Why::Reply(Reply::Unsure),
            then: Then::Unsure,
        }),
    }
}

/// Undoes what the lines of a batch did, if the store carries out anything.
pub(crate) fn undo<D: Disk>(store: &mut Store<D>) -> Then
    ensures { (batch : Commanded) → (round : Round) × Undoes store.old store.new batch result round }
{
    match store.apply(&Command::Rollback) {
        Ok(_) => Then::GoOn,
        Err(_) => Then::Failed,
    }
}

/// Carries out the lines of a batch one after another, up to the first that is refused.
pub(crate) fn carry_out<D: Disk>(
    alloc: Global,
    manner: Manner,
    lines: &[Line],
    answers: &mut Vec<u8>,
    store: &mut Store<D>,
) -> Result<(), Stop>
    requires { answers.old.items ≡ [] }
    ensures carried { (s : State) (parts : List (List ℕ)) → HoldsLines lines.now parts
        → CarriesLines store.old store.new s manner parts result answers.new.items }
    ensures store { FeedsOn (tried_result result) store.old store.new }
    ensures place { IfErr result (λ stop. stop.place ≤ length lines.now) }
{
    let mut session = Session {
        alloc,
        manner: Manner {
            on_command: manner.on_command,
            on_refusal: OnRefusal::Stop,
            grouping: Grouping::Lines,
        },
        text: Text::new(),
        room: [0; 4096],
        writer: answers,
        store,
    };
    session.carry_out_each(lines)
}

impl<'a, D: Disk> Session<'a, Vec<u8>, D> {
    ghost use Rattle.vm_cli.specs.session.StreamCalls.{CarriesEach};

    /// Answers lines, up to the first that is refused.
    fn carry_out_each(&mut self, lines: &[Line]) -> Result<(), Stop>
        ensures carries { CarriesEach lines.now result self.old self.new }
        ensures place { IfErr result (λ stop. stop.place ≤ length lines.now) }
    {
        for place in 0..lines.len() {
            let at = self.writer.len();
            match self.answer(&lines[place]) {
                Ok(_) => {}
                Err(fault) => {
                    return Err(Stop {
                        place,
                        why: answer_of(fault, at),
                        then: Then::GoOn,
                    });
                }
            }
        }
        Ok(())
    }
}

/// The answer to a line that ended a session with this fault.
fn answer_of(fault: ServeFault, at: usize) -> Why
    ensures { result ≡ answer_after fault at }
{
    match fault {
        ServeFault::Refused => Why::Answer(at),
        ServeFault::Store => Why::Answer(at),
        _ => Why::Reply(Reply::Refused(Refusal::Memory)),
    }
}

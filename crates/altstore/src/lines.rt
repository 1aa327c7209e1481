//! Lines for a session, and their answers.
ghost use Rattle.altstore.specs.Lines.{Asks};

use crate::session::Session;
use std::alloc::Global;
use vm_cli::{Grouping, Manner, OnCommand, OnRefusal, ServeFault, serve};

/// Answers lines, as `serve` does. The new answers replace the old ones.
pub fn ask(
    alloc: Global,
    session: &mut Session,
    lines: &[u8],
    on_refusal: OnRefusal,
) -> Result<bool, ServeFault>
    ensures { Asks lines.now on_refusal result session.old session.new }
{
    session.answers.clear();
    let mut input = lines;
    let manner = Manner {
        on_command: OnCommand::CarryOut,
        on_refusal,
        grouping: Grouping::Lines,
    };
    serve(
        alloc,
        &mut input,
        &mut session.answers,
        &mut session.store,
        manner,
    )
}

//! The answers that a session keeps.
ghost use Rattle.std.specs.Prelude.{◌≡◌};
ghost use Rattle.altstore.specs.Answers.{CopiesAnswers};

use crate::session::Session;
use std::io::Read;

/// Copies answers from a byte on, as many bytes as there are and fit, and returns their number.
pub fn copy_answers(session: &Session, from: usize, into: &mut [u8]) -> usize
    ensures { CopiesAnswers session.now.answers.items from result into.old into.new }
{
    let answers = session.answers.as_slice();
    let mut rest = match answers.get(from..) {
        Some(rest) => rest,
        None => &[],
    };
    match rest.read(into) {
        Ok(count) => count,
        Err(_) => 0,
    }
}

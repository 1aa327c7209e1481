//! A line of a stream in which many planners speak to one store.
ghost use Rattle.std.specs.Prelude.{◌≡◌, option_map};
ghost use Rattle.vm_cli.specs.lines.Lines.{IsPart};
ghost use Rattle.vm_cli.specs.session.PlannerLines.{SaysPart, first_planner, lone_planner as lone_planner_of, planner_of, said_by, saying, saying_of};
ghost use Rattle.vm_cli.specs.session.PlannerLines.Saying.{says};
ghost use Rattle.vm_cli.specs.lines.Pieces.{after_word};
ghost use Rattle.vm_cli.specs.lines.Spaces.{words_of};

use crate::lines::arguments::ends;
use crate::lines::number::number;
use crate::lines::pieces::first_word;

/// When a batch is carried out that ends with a line.
#[derive(Clone, Copy)]
pub enum When {
    /// At once.
    Now,
    /// It waits until all that waits is carried out together.
    Later,
}

/// What a line is of a stream in which planners speak.
#[derive(Clone, Copy)]
pub enum PlannerLine<'a> {
    /// It has no words, or is a comment.
    Nothing,
    /// The planner of this number joins.
    Join(u32),
    /// The planner of this number leaves.
    Leave(u32),
    /// The planner of this number says this line.
    Says(When, u32, &'a [u8]),
    /// All that waits is carried out.
    Go,
    /// It is none of the known ones.
    Strange,
}

/// What a line of these bytes is.
pub(crate) fn planner_line(line: &[u8]) -> PlannerLine<'_>
    ensures said { saying result ≡ saying_of line.now }

    // What is said by a line without a line feed has none.
    ensures part { IsPart line.now → SaysPart (saying result) }
{
    let Some((verb, rest)) = first_word(line) else {
        return PlannerLine::Nothing;
    };
    if verb.first() == Some(&b'#') {
        return PlannerLine::Nothing;
    }
    match said(verb, rest) {
        Some(said) => said,
        None => PlannerLine::Strange,
    }
}

/// The line that these bytes complete after its first word.
fn said<'a>(verb: &[u8], rest: &'a [u8]) -> Option<PlannerLine<'a>>
    ensures { option_map saying result ≡ said_by verb.now (words_of rest.now) (after_word rest.now) }
{
    match verb {
        _ if verb == b"line".as_slice() => planner_says(When::Now, rest),
        _ if verb == b"later".as_slice() => planner_says(When::Later, rest),
        _ if verb == b"go".as_slice() => {
            ends(rest)?;
            Some(PlannerLine::Go)
        }
        _ if verb == b"join".as_slice() => Some(PlannerLine::Join(lone_planner(rest)?)),
        _ if verb == b"leave".as_slice() => Some(PlannerLine::Leave(lone_planner(rest)?)),
        _ => None,
    }
}

/// `N LINE`
fn planner_says<'a>(when: When, rest: &'a [u8]) -> Option<PlannerLine<'a>>
    ensures { option_map saying result ≡ option_map (λ n. says when n (after_word rest.now)) (first_planner (words_of rest.now)) }
{
    let (word, line) = first_word(rest)?;
    Some(PlannerLine::Says(when, planner(word)?, line))
}

/// `N`
fn lone_planner(rest: &[u8]) -> Option<u32>
    ensures { result ≡ lone_planner_of (words_of rest.now) }
{
    let (word, rest) = first_word(rest)?;
    ends(rest)?;
    planner(word)
}

/// The planner whose number a word is.
fn planner(word: &[u8]) -> Option<u32>
    ensures { result ≡ planner_of word.now }
{
    match number(word, 4_294_967_295)? {
        0 => None,
        number => Some(number as u32),
    }
}

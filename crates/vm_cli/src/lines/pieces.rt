//! The words of a line, and the pieces of a word.
ghost use Rattle.std.specs.Prelude.{◌≡◌, ◌<◌, ◌∷◌, [], length, IfSome, MatchOption};
ghost use Rattle.vm_cli.specs.lines.Pieces.{after_word, before_mark, behind_mark, without_spaces};
ghost use Rattle.vm_cli.specs.lines.Spaces.{BeginsWith, words_of};

use memchr::memchr;

/// The first word of a line, and all that follows the first space after it.
pub(crate) fn first_word(line: &[u8]) -> Option<(&[u8], &[u8])>
    ensures word { MatchOption result (words_of line.now ≡ [])
        (λ p. BeginsWith line.now p.0.now p.1.now) }
    ensures rest { IfSome result (λ p. p.1.now ≡ after_word line.now) }
{
    let (word, rest) = first_piece(skip_spaces(line), b' ');
    if word.is_empty() {
        return None;
    }
    Some((word, rest))
}

/// A line without the spaces at its front.
fn skip_spaces(line: &[u8]) -> &[u8]
    ensures { result.now ≡ without_spaces line.now }
{
    let mut rest = line;
    while let [b' ', after @ ..] = rest {
        rest = after;
    }
    rest
}

/// What comes before the first mark, and what comes after it.
pub(crate) fn first_piece(bytes: &[u8], mark: u8) -> (&[u8], &[u8])
    ensures piece { result.0.now ≡ before_mark mark bytes.now }
    ensures rest { result.1.now ≡ behind_mark mark bytes.now }
    ensures shorter { 0 < length bytes.now → length result.1.now < length bytes.now }
{
    match memchr(mark, bytes) {
        Some(i) => (&bytes[..i], &bytes[i + 1..]),
        None => (bytes, &[]),
    }
}

//! What is written in braces, and words.

use anyhow::{Result, bail};
use std::alloc::Global;

/// Appends what a text means: `{lf}`, `{cr}` and `{space}` are one character, `{}` is none, `{9 *
/// x}` is nine times an x, and `{session}` the session.
pub(crate) fn expand(to: &mut String, text: &str, session: &str) -> Result<()> {
    let mut parts = text.split('{');
    to.push_str(parts.next().unwrap_or(""))?;
    for part in parts {
        let Some((name, behind)) = part.split_once('}') else {
            bail!("a brace is not closed");
        };
        match name {
            "" => {}
            "lf" => to.push('\n')?,
            "cr" => to.push('\r')?,
            "space" => to.push(' ')?,
            "session" => to.push_str(session)?,
            _ => repeat(to, name)?,
        }
        to.push_str(behind)?;
    }
    Ok(())
}

/// Appends a text as often as the number before it says.
fn repeat(to: &mut String, times: &str) -> Result<()> {
    let Some((count, text)) = times.split_once(" * ") else {
        bail!("{times:?} in braces means nothing");
    };
    for _ in 0..count.parse::<u32>()? {
        to.push_str(text)?;
    }
    Ok(())
}

/// The words of a text, separated by spaces. One in single quotes may have spaces, or be empty.
pub(crate) fn words(alloc: Global, text: &str) -> Result<Vec<String>> {
    let mut words = Vec::new(alloc);
    let mut is_quoted = false;
    for part in text.split('\'') {
        if is_quoted {
            push_word(&mut words, part)?;
        } else {
            for word in part.split_whitespace() {
                push_word(&mut words, word)?;
            }
        }
        is_quoted = !is_quoted;
    }
    if !is_quoted {
        bail!("a quote is not closed");
    }
    Ok(words)
}

/// Appends the word that a text means.
fn push_word(words: &mut Vec<String>, text: &str) -> Result<()> {
    let mut word = String::new(*words.allocator());
    expand(&mut word, text, "")?;
    words.push(word)?;
    Ok(())
}

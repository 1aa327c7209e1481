//! Lines given as words.
ghost use Rattle.std.specs.Prelude.{◌≡◌, IfOk, map};
ghost use Rattle.vm_cli.specs.program.Given.{input_of as input_of_lines};

use std::alloc::{AllocError, Global};

/// The input that consists of these lines. A line feed ends each.
pub(crate) fn input_of(alloc: Global, lines: &[&str]) -> Result<Vec<u8>, AllocError>
    ensures { IfOk result (λ input. input.items ≡ input_of_lines (map (λ line. line.now) lines.now)) }
{
    let mut input = Vec::new(alloc);
    for line in lines {
        input.extend_from_slice(line.as_bytes())?;
        input.push(b'\n')?;
    }
    Ok(input)
}

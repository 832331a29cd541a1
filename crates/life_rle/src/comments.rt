//! Comments of a text.

ghost use Rattle.std.specs.Prelude.{◌≡◌, IfOk};
ghost use Rattle.life_rle.specs.Comments.{blanked, is_hidden, shown};

use life_cells::NoMemory;
use std::alloc::Global;

/// Whether a byte stands in a comment, where it begins a line or not, and where the byte before it stands in one or not.
fn is_hidden(starts_line: bool, in_comment: bool, byte: u8) -> bool
    ensures { result ≡ is_hidden starts_line in_comment byte }
{
    byte != b'\n' && (in_comment || (starts_line && byte == b'#'))
}

/// A byte, or a space in its place.
fn shown(hidden: bool, byte: u8) -> u8
    ensures { result ≡ shown hidden byte }
{
    if hidden { b' ' } else { byte }
}

/// A text with spaces in the place of its comment lines, so that all else stays in its place.
pub fn without_comments(alloc: Global, text: &[u8]) -> Result<Vec<u8>, NoMemory>
    ensures { IfOk result (λ seen. seen.items ≡ blanked text.now) }
{
    let mut seen = Vec::new(alloc);
    let mut starts_line = true;
    let mut in_comment = false;
    let mut rest = text;
    while let Some((byte, more)) = rest.split_first() {
        in_comment = is_hidden(starts_line, in_comment, *byte);
        starts_line = *byte == b'\n';
        seen.push(shown(in_comment, *byte))?;
        rest = more;
    }
    Ok(seen)
}

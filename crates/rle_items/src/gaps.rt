//! What stands between items, and between a count and its tag.

ghost use Rattle.std.specs.Prelude.{◌≡◌, not};
ghost use Rattle.std.specs.List.{position};
ghost use Rattle.rle_items.specs.Spelling.{IsWhite, is_white};
ghost use Rattle.rle_items.specs.Gaps.{IsPast};

/// What may stand between items, and between a count and its tag.
#[derive(Clone, Copy)]
pub enum Gaps {
    /// Nothing, as in a body word.
    None,
    /// White space, as in a text.
    White,
}

impl Gaps {
    ghost use Rattle.rle_items.specs.Gaps.{gap_of, IsPast};

    /// A rest without the gap at its front.
    pub fn skip(self, rest: &[u8]) -> &[u8]
        ensures { IsPast (gap_of self) rest.now result.now }
    {
        match self {
            Gaps::None => rest,
            Gaps::White => skip_white(rest),
        }
    }
}

/// Whether a byte is white space.
fn is_white(byte: u8) -> bool
    ensures { result ≡ is_white byte }
{
    byte == b' ' || byte == b'\t' || byte == b'\n' || byte == b'\r'
}

/// Where a rest has its first byte that is no white space.
fn first_ink(rest: &[u8]) -> Option<usize>
    ensures { result ≡ position (λ b. not (is_white b)) rest.now }
{
    rest.iter().position(|b| !is_white(*b))
}

/// A rest without the white space at its front.
fn skip_white(rest: &[u8]) -> &[u8]
    ensures { IsPast IsWhite rest.now result.now }
{
    match first_ink(rest) {
        Some(many) => rest.split_at(many).1,
        None => rest.split_at(rest.len()).1,
    }
}

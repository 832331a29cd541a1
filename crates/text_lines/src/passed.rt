//! Lines that are passed over: comments and blank lines.

ghost use Rattle.std.specs.Prelude.{◌≡◌, ◌↔◌, IsTrue};
ghost use Rattle.text_lines.specs.Blanks.{is_comment, is_blank_byte, IsBlank, IsPassedOver};

/// Whether a line is a comment: it begins with `#`.
pub fn is_comment(line: &[u8]) -> bool
    ensures { result ≡ is_comment line.now }
{
    line.starts_with(b"#")
}

/// Whether a byte is a space or a tab.
pub fn is_blank_byte(byte: u8) -> bool
    ensures { result ≡ is_blank_byte byte }
{
    byte == b' ' || byte == b'\t'
}

/// Whether a line has nothing but spaces and tabs.
pub fn is_blank(line: &[u8]) -> bool
    ensures { IsTrue result ↔ IsBlank line.now }
{
    line.iter().all(|b| is_blank_byte(*b))
}

/// Whether a line is passed over: it is a comment, or blank.
pub fn is_passed_over(line: &[u8]) -> bool
    ensures { IsTrue result ↔ IsPassedOver line.now }
{
    is_comment(line) || is_blank(line)
}

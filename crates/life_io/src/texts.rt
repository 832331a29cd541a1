ghost use Rattle.std.specs.Prelude.{◌≡◌, ◌≢◌, ◌+◌, ◌<◌, ◌≤◌, ◌++◌, ◌↔◌, ◌⊎◌, IsTrue, Some, IsNone, OnOk, OnErr, IsOkUnless, length, map, take};
ghost use Rattle.std.specs.Option.{option_copied};
ghost use Rattle.life_io.specs.Depots.{AppendsText, AppendsStart};
ghost use Rattle.life_io.specs.MemDepots.{held_text};
ghost use Rattle.life_io.specs.Texts.{text_of};

use crate::depot::FetchError;
use crate::mem_depot::NamedText;

/// The text of that name: of two under one name the first.
pub(crate) fn find_text<'a>(texts: &'a [NamedText], name: &str) -> Option<&'a [u8]>
    ensures { option_copied result ≡ text_of (map held_text texts.now) name.now }
{
    for held in texts {
        if held.name.as_str() == name {
            return Some(held.text.as_slice());
        }
    }
    None
}

/// Appends the text of that name, or its first `limit + 1` bytes where it has more than `limit`. It
/// fails where it is to fail or the name is not held.
pub(crate) fn append_unless(
    fails: bool,
    texts: &[NamedText],
    name: &str,
    limit: usize,
    into: &mut Vec<u8>,
) -> Result<(), FetchError>
    ensures ok { OnOk result
        (AppendsText (Some (map held_text texts.now)) name.now limit into.old.items into.new.items) }
    ensures too_long { result ≡ Err FetchError.TooLong →
        AppendsStart (Some (map held_text texts.now)) name.now limit into.old.items into.new.items }
    ensures failed { (result ≡ Err FetchError.Failed) ↔
        (IsTrue fails ⊎ IsNone (text_of (map held_text texts.now) name.now)) }
    ensures refused { result ≢ Err FetchError.TooLong → OnErr result (into.new.items ≡ into.old.items) }
{
    if fails {
        return Err(FetchError::Failed);
    }
    match find_text(texts, name) {
        Some(text) => append_text(text, limit, into),
        None => Err(FetchError::Failed),
    }
}

/// Appends the text, or its first `limit + 1` bytes where it has more than `limit`.
pub(crate) fn append_text(text: &[u8], limit: usize, into: &mut Vec<u8>) -> Result<(), FetchError>
    ensures ok { OnOk result (into.new.items ≡ into.old.items ++ text.now) }
    ensures fits { OnOk result (length text.now ≤ limit) }
    ensures long { result ≡ Err FetchError.TooLong → limit < length text.now }
    ensures cut { result ≡ Err FetchError.TooLong →
        into.new.items ≡ into.old.items ++ take (limit + 1) text.now }
    ensures memory { result ≡ Err FetchError.Memory → into.new.items ≡ into.old.items }
    ensures unfailed { result ≢ Err FetchError.Failed }
{
    if text.len() <= limit {
        return append_all(text, into);
    }
    append_all(&text[..limit + 1], into)?;
    Err(FetchError::TooLong)
}

/// Appends all of the bytes, or none where memory runs out.
pub(crate) fn append_all(bytes: &[u8], into: &mut Vec<u8>) -> Result<(), FetchError>
    ensures ok { OnOk result (into.new.items ≡ into.old.items ++ bytes.now) }
    ensures refused { OnErr result (into.new.items ≡ into.old.items) }
    ensures memory { IsOkUnless result FetchError.Memory }
{
    match into.extend_from_slice(bytes) {
        Ok(()) => Ok(()),
        Err(_) => Err(FetchError::Memory),
    }
}

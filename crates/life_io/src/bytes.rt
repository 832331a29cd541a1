ghost use Rattle.std.specs.Prelude.{◌≡◌, ◌++◌, IsOkUnless, OnErr, OnOk};
ghost use Rattle.life_io.specs.MemSinks.{PutsUntil};

use crate::sink::PutError;

/// Appends all of the bytes, or fails after the first `due` of them where a number is given.
pub(crate) fn append_until(
    due: Option<usize>,
    bytes: &[u8],
    into: &mut Vec<u8>,
) -> Result<(), PutError>
    ensures { PutsUntil due into.old.items into.new.items bytes.now result }
{
    match due {
        None => append_piece(bytes, into),
        Some(after) if after < bytes.len() => {
            append_piece(&bytes[..after], into)?;
            Err(PutError::Failed)
        }
        Some(_) => {
            append_piece(bytes, into)?;
            Err(PutError::Failed)
        }
    }
}

/// Appends all of the bytes, or none where memory runs out.
fn append_piece(bytes: &[u8], into: &mut Vec<u8>) -> Result<(), PutError>
    ensures ok { OnOk result (into.new.items ≡ into.old.items ++ bytes.now) }
    ensures refused { OnErr result (into.new.items ≡ into.old.items) }
    ensures memory { IsOkUnless result PutError.Memory }
{
    match into.extend_from_slice(bytes) {
        Ok(()) => Ok(()),
        Err(_) => Err(PutError::Memory),
    }
}

ghost use Rattle.std.specs.Prelude.{OnOk, OnErr, IsOkUnless};
ghost use Rattle.std.specs.Io.KnownBytes.{Appends};
ghost use Rattle.life_io.specs.Taken.{GainsPrefix};

use crate::sink::PutError;
use std::io::Write;

/// Writes all of the bytes, or fails at the first error, or where nothing is taken.
pub(crate) fn write_piece<W: Write>(sink: &mut W, bytes: &[u8]) -> Result<(), PutError>
    ensures ok { OnOk result (Appends (W.contents sink.old) (W.contents sink.new) bytes.now) }
    ensures failed { OnErr result (GainsPrefix (W.contents sink.old) (W.contents sink.new) bytes.now) }
    ensures error { IsOkUnless result PutError.Failed }
{
    let mut rest = bytes;
    while !rest.is_empty() {
        match sink.write(rest) {
            Ok(count) if count > 0 => rest = &rest[count..],
            _ => return Err(PutError::Failed),
        }
    }
    match sink.flush() {
        Ok(()) => Ok(()),
        Err(_) => Err(PutError::Failed),
    }
}

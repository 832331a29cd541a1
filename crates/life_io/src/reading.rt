ghost use Rattle.std.specs.Prelude.{◌≡◌, ◌≢◌, ◌+◌, ◌<◌, ◌≤◌, ◌++◌, IfOk, OnOk, OnErr, IfSome, length, take, vec_len};
ghost use Rattle.std.specs.Io.{StartsWith};
ghost use Rattle.std.specs.Io.KnownBytes.{IsAtEnd};
ghost use Rattle.life_io.specs.Taken.{HasTaken};

use crate::depot::FetchError;
use std::io::Read;

/// How many bytes are read at a time.
const CHUNK: usize = 16384;

/// Appends what the source has left, if it has at most `limit` bytes, and else its first `limit + 1`.
/// An error of the source ends the reading.
pub(crate) fn read_text<S: Read>(
    source: &mut S,
    limit: usize,
    into: &mut Vec<u8>,
) -> Result<(), FetchError>
    ensures begins { StartsWith into.new.items into.old.items }
    ensures fits { OnOk result (vec_len into.new ≤ vec_len into.old + limit) }
    ensures size { result ≡ Err FetchError.TooLong → vec_len into.new ≡ vec_len into.old + (limit + 1) }
    ensures whole { OnOk result (IfSome (S.remaining source.old) (λ xs.
        into.new.items ≡ into.old.items ++ xs)) }
    ensures start { result ≡ Err FetchError.TooLong → IfSome (S.remaining source.old) (λ xs.
        (limit < length xs) × (into.new.items ≡ into.old.items ++ take (limit + 1) xs)) }
{
    let mut chunk = [0u8; CHUNK];
    let mut left = limit;
    loop {
        let count = read_piece(source, left, &mut chunk, into)?;
        if count == 0 {
            return Ok(());
        }
        if count > left {
            return Err(FetchError::TooLong);
        }
        left -= count;
    }
}

/// One read, of at most `left + 1` bytes, which are appended. Nothing is read at the end alone.
fn read_piece<S: Read>(
    source: &mut S,
    left: usize,
    chunk: &mut [u8],
    into: &mut Vec<u8>,
) -> Result<usize, FetchError>
    requires { 0 < length chunk.old }
    ensures bound { IfOk result (λ count. count ≤ left + 1) }
    ensures size { IfOk result (λ count. vec_len into.new ≡ vec_len into.old + count) }
    ensures bytes { OnOk result
        (HasTaken (S.remaining source.old) (S.remaining source.new) into.old.items into.new.items) }
    ensures refused { OnErr result (into.new.items ≡ into.old.items) }
    ensures end { IfOk result (λ count. count ≡ 0 → IsAtEnd (S.remaining source.new)) }
    ensures error { result ≢ Err FetchError.TooLong }
{
    let room = left.min(chunk.len() - 1) + 1;
    let piece = &mut chunk[..room];
    let Ok(count) = source.read(piece) else {
        return Err(FetchError::Failed);
    };
    match into.extend_from_slice(&piece[..count]) {
        Ok(()) => Ok(count),
        Err(_) => Err(FetchError::Memory),
    }
}

//! Body words in a line.

ghost use Rattle.std.specs.Prelude.{◌≡◌, ◌≢◌, ◌≤◌, ◌^◌, codes, IfOk, IsOk};
ghost use Rattle.book_lines.specs.declared.statement.Body.{Body};
ghost use Rattle.book_lines.specs.Values.{IsSmall, IsBodyAt, body_count};
ghost use Rattle.book_lines.specs.Reads.{ReadsOrErrs};

use crate::fault::{LineError, LineFault};
use crate::statement::Body;
use life_cells::Cell;
use rle_items::laws::{fine_words_have_no_refusal, words_have_one_refusal, words_mean_one_plane};
use rle_items::{BodyError, read_body};
use std::alloc::Global;

/// What a body word draws, its first item at a place.
pub fn body_at(alloc: Global, word: &[u8], at: Cell) -> Result<Body, LineError>
    requires word { word.now ≢ codes ":" }
    requires x { IsSmall at.x }
    requires y { IsSmall at.y }
    ensures body { ReadsOrErrs (λ level body. IsBodyAt level word.now at body) result }
    ensures few { IfOk result (λ body. body_count body ≤ 2 ^ 61) }
{
    words_mean_one_plane();
    words_have_one_refusal();
    fine_words_have_no_refusal();
    match read_body(alloc, word) {
        Ok(drawn) => {
            if drawn.is_empty() {
                return Err(LineError::Fault(LineFault::Empty));
            }
            Ok(Body::Drawn(drawn.shift(at.x, at.y)?))
        }
        Err(refusal) => match refusal {
            BodyError::TooMany { count } => Ok(Body::TooMany(count)),
            BodyError::Memory => Err(LineError::Memory),
            _ => Err(LineError::Fault(LineFault::Body)),
        },
    }
}

//! From a list to the next.

ghost use Rattle.std.specs.Prelude.{◌≡◌, ◌≤ℤ◌, [], ◌∷◌, length, replicate, MatchBool};
ghost use Rattle.std.specs.List.{AllByRecursion};
ghost use Rattle.book_parts.specs.Limits.{IsFrom};
ghost use Rattle.find_order.specs.Ahead.{behind};

/// Makes a list of numbers from low to high the next one of its length, number by number, and says whether there is one. The last becomes the
/// first.
pub(crate) fn advance(list: &mut [i64], low: i64, high: i64) -> bool
    requires order { low ≤ℤ high }
    requires within { AllByRecursion (IsFrom low high) list.old }
    ensures within { AllByRecursion (IsFrom low high) list.new }
    ensures next { MatchBool result (behind low high list.old ≡ list.new ∷ behind low high list.new)
        ((behind low high list.old ≡ []) × (list.new ≡ replicate (length list.old) low)) }
{
    let mut place = list.len();
    while place > 0 {
        place -= 1;
        if list[place] < high {
            list[place] += 1;
            return true;
        }
        list[place] = low;
    }
    false
}

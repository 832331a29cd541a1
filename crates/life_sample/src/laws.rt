//! Laws of the sample.

ghost use Rattle.std.specs.Prelude.{◌≡◌, ℕ};
ghost use Rattle.book_parts.specs.Said.{Said};
ghost use Rattle.life_sample.specs.Sample.{IsSample};

/// Two numbers make one sample.
pub fn samples_are_one()
    ensures { (count gap : ℕ) (book other : Said) → IsSample count gap book → IsSample count gap other → book ≡ other }
{}

//! Boxes that keep what they hold apart.

ghost use Rattle.std.specs.Prelude.{◌≡◌, ◌↔◌, ◌^◌, ◌≤ℤ◌, ◌<ℤ◌, ◌+ℤ◌, pos, IsTrue};
ghost use Rattle.life_plane.specs.Plane.{Plane};
ghost use Rattle.life_plane.specs.Apart.{Apart};
ghost use Rattle.life_cells.specs.Boxes.{Holds, IsBoxInRange};
ghost use Rattle.life_cone.specs.FarBoxes.{AreFarBoxes, AreFarSpans, IsSpanInRange};

use life_cells::Bounds;

/// Numbers that follow one another, both ends within; none where the low end is past the high one.
#[derive(Clone, Copy)]
pub(crate) struct Span {
    pub low: i64,
    pub high: i64,
}

/// The x of a box's cells.
fn columns(bounds: Bounds) -> Span
    ensures { result ≡ record { low = bounds.left; high = bounds.right } }
{
    Span {
        low: bounds.left,
        high: bounds.right,
    }
}

/// The y of a box's cells.
fn rows(bounds: Bounds) -> Span
    ensures { result ≡ record { low = bounds.top; high = bounds.bottom } }
{
    Span {
        low: bounds.top,
        high: bounds.bottom,
    }
}

/// Whether the span has no number.
fn is_empty(span: Span) -> bool
    ensures { IsTrue result ↔ (span.high <ℤ span.low) }
{
    span.high < span.low
}

/// Whether the span b begins 3 or more past the end of the span a.
fn is_well_before(a: Span, b: Span) -> bool
    requires { IsSpanInRange (2 ^ 60) a }
    ensures { IsTrue result ↔ ((a.high +ℤ pos 3) ≤ℤ b.low) }
{
    a.high + 3 <= b.low
}

/// Whether no number of the one span is within 2 of a number of the other.
fn spans_apart(a: Span, b: Span) -> bool
    requires a_in_range { IsSpanInRange (2 ^ 60) a }
    requires b_in_range { IsSpanInRange (2 ^ 60) b }
    ensures { IsTrue result ↔ AreFarSpans a b }
{
    let none = is_empty(a) | is_empty(b);
    none | is_well_before(a, b) | is_well_before(b, a)
}

/// Whether each cell of the one box is at distance 3 or more from each cell of the other.
/// A box whose left is past its right, or its top past its bottom, has no cell, and is far from all.
pub fn box_apart(a: Bounds, b: Bounds) -> bool
    requires a_in_range { IsBoxInRange (2 ^ 60) a }
    requires b_in_range { IsBoxInRange (2 ^ 60) b }
    ensures exact { IsTrue result ↔ AreFarBoxes a b }
    ensures apart { IsTrue result → (s t : Plane) → Holds a s → Holds b t → Apart s t }
{
    let columns_apart = spans_apart(columns(a), columns(b));
    let rows_apart = spans_apart(rows(a), rows(b));
    columns_apart | rows_apart
}

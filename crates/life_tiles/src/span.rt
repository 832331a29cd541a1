//! Rows of a tile that follow one another.

ghost use Rattle.std.specs.Prelude.{◌⊎◌, ◌↔◌, ◌+◌, ◌<◌, ◌≤◌, ℕ, IsTrue};

/// The rows of a tile from one on, up to another that is not among them; none where that is no later.
#[derive(Clone, Copy, Debug)]
pub(crate) struct Span {
    /// The first row, counted from the tile's top.
    pub from: usize,
    /// The first row behind them.
    pub to: usize,
    ghost fits: { to ≤ 64 },
}

impl Span {
    ghost use Rattle.life_tiles.specs.Spans.{InSpan};

    /// No row.
    pub const NONE: Span = Span { from: 0, to: 0 };

    /// All rows of a tile.
    pub const ALL: Span = Span { from: 0, to: 64 };

    /// Whether there is no row.
    pub fn is_empty(self) -> bool
        ensures { IsTrue result ↔ (self.to ≤ self.from) }
    {
        self.to <= self.from
    }

    /// These rows and those, and what lies between.
    pub fn joined(self, other: Span) -> Self
        ensures { (r : ℕ) → InSpan self r ⊎ InSpan other r → InSpan result r }
    {
        if self.is_empty() {
            return other;
        }
        if other.is_empty() {
            return self;
        }
        Span {
            from: self.from.min(other.from),
            to: self.to.max(other.to),
        }
    }

    /// These rows, and the one above and the one below in the same tile.
    pub fn around(self) -> Self
        ensures { (r s : ℕ) → InSpan self r → r < 64 → s < 64 → s ≤ r + 1 → r ≤ s + 1 → InSpan result s }
    {
        if self.is_empty() {
            return Span::NONE;
        }
        Span {
            from: self.from.saturating_sub(1),
            to: self.to.min(63) + 1,
        }
    }

    /// The rows of the tile above that lie beside these.
    pub fn above(self) -> Self
        ensures { InSpan self 0 → InSpan result 63 }
    {
        if self.is_empty() || self.from > 0 {
            return Span::NONE;
        }
        Span { from: 63, to: 64 }
    }

    /// The rows of the tile below that lie beside these.
    pub fn below(self) -> Self
        ensures { InSpan self 63 → InSpan result 0 }
    {
        if self.is_empty() || self.to < 64 {
            return Span::NONE;
        }
        Span { from: 0, to: 1 }
    }
}

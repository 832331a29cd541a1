//! The cursor that items move.

use crate::error::BodyError;
use crate::item::{Item, Tag};
use crate::reach::is_in_reach;
use life_cells::Cell;

/// The most live cells that are read.
pub const MOST_LIVE: u64 = 1 << 18;

/// Where the next item begins, and how many live cells there are so far.
#[derive(Clone, Copy, Default)]
pub struct Cursor {
    /// The column, going right from 0.
    pub column: u64,
    /// The row, going down from 0.
    pub row: u64,
    /// The live cells so far.
    pub live: u64,
}

impl Cursor {
    ghost use Rattle.std.specs.Prelude.{◌≡◌, ◌<◌, ◌^◌, [], ◌∷◌, ◌++◌, List, pos, ◌+ℤ◌, OnOk, IfErr};
    ghost use Rattle.life_cells.specs.Cells.{cell};
    ghost use Rattle.rle_items.specs.declared.item.Item.{Item};
    ghost use Rattle.rle_items.specs.Cursor.{IsBehind, HasRoom, HasMoved, IsWithin, Passes};
    ghost use Rattle.rle_items.specs.Reach.{IsInReach};

    /// The cursor before the first item.
    pub fn start() -> Cursor
        ensures { IsBehind [] result }
    {
        Cursor::default()
    }

    /// The cursor behind one more item.
    pub fn behind(self, item: Item) -> Cursor
        requires room { HasRoom self }
        requires small { item.count < 10 ^ 18 }
        ensures { (items : List Item) → IsBehind items self → IsBehind (items ++ (item ∷ [])) result }
    {
        match item.tag {
            Tag::Dead => Cursor {
                column: self.column + item.count,
                ..self
            },
            Tag::Alive => Cursor {
                column: self.column + item.count,
                live: self.live + item.count,
                ..self
            },
            Tag::RowEnd => Cursor {
                column: 0,
                row: self.row + item.count,
                ..self
            },
        }
    }

    /// Refuses a cursor that is out of reach, and one with too many live cells so far. The first item is at this place, and the
    /// last item's tag is at this byte.
    ///
    /// # Errors
    ///
    /// `TooFar` with that byte, and `TooMany` with the number of live cells where the cursor is in reach.
    pub fn check(self, place: Cell, at: u64) -> Result<(), BodyError>
        requires place { IsInReach place }
        requires room { HasMoved self }
        ensures ok { OnOk result (IsWithin place self) }
        ensures err { IfErr result (λ e. Passes place self at e) }
    {
        if !is_in_reach(self.from_place(place)) {
            return Err(BodyError::TooFar { at });
        }
        if self.live > MOST_LIVE {
            return Err(BodyError::TooMany { count: self.live });
        }
        Ok(())
    }

    /// Where it stands, the first item being at this place.
    pub fn from_place(self, place: Cell) -> Cell
        requires place { IsInReach place }
        requires room { HasMoved self }
        ensures { result ≡ cell (place.x +ℤ pos self.column) (place.y +ℤ pos self.row) }
    {
        Cell::new(place.x + self.column as i64, place.y + self.row as i64)
    }
}

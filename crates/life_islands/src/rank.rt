//! By what islands are put in order.

ghost use Rattle.std.specs.Prelude.{◌≡◌, ◌^◌, ◌∷◌, [], ◌++◌, List, pos, neg_ℤ, ◌≤ℤ◌};
ghost use Rattle.life_cells.specs.Boxes.{IsInRange, IsCellInRange};
ghost use Rattle.life_cells.specs.Listed.{listed};
ghost use Rattle.life_cells.specs.declared.cell.Cell.{Cell};
ghost use Rattle.life_islands.specs.Ranks.{IsRankOf};

use life_cells::Cell;

/// The rank of an island: of two islands the one with the lesser rank comes first.
#[derive(Clone, Copy, Debug, PartialEq, Eq, PartialOrd, Ord)]
pub(crate) struct Rank {
    /// The greatest u = x - y of its cells, negated: the least y - x.
    pub(crate) minus_u: i64,
    /// The first of its cells in (y,x) order.
    pub(crate) first: Cell,
}

impl Rank {
    /// The rank of these cells.
    pub(crate) fn of(start: Cell, cells: &[Cell]) -> Self
        requires { IsInRange (2 ^ 60) (listed (start ∷ cells.now)) }
        ensures { IsRankOf result (listed (start ∷ cells.now)) }
    {
        let mut rank = Rank::at(start);
        for cell in cells {
            rank = rank.with(*cell);
        }
        rank
    }

    /// The rank of one cell.
    fn at(cell: Cell) -> Self
        requires { IsCellInRange (2 ^ 60) cell }
        ensures { IsRankOf result (listed (cell ∷ [])) }
    {
        Rank {
            minus_u: cell.y - cell.x,
            first: cell,
        }
    }

    /// The rank of cells that have this one, and of one more cell.
    fn with(self, cell: Cell) -> Self
        requires { IsCellInRange (2 ^ 60) cell }
        ensures { (cells : List Cell) → IsRankOf self (listed cells) → IsRankOf result (listed (cells ++ cell ∷ [])) }
    {
        Rank {
            minus_u: self.minus_u.min(cell.y - cell.x),
            first: self.first.min(cell),
        }
    }
}

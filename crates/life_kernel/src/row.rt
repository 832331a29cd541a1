//! The rule on one row of words at a time.

ghost use Rattle.std.specs.Prelude.{◌≡◌, ℕ, Bool, suc, ◌<◌};
ghost use Rattle.life_kernel.specs.Rows.{test, column};
ghost use Rattle.life_kernel.specs.Words.{spread, IsNextWord};

/// Three words of one row, side by side: the cells of the middle one, with what lies to their west and east.
#[derive(Clone, Copy, Debug)]
pub struct Row {
    /// The 64 cells to the west.
    pub west: u64,
    /// The 64 cells themselves.
    pub here: u64,
    /// The 64 cells to the east.
    pub east: u64,
}

/// The western neighbour of each cell of a word.
#[inline(always)]
fn western(here: u64, west: u64) -> u64
    ensures { (end : Bool) (k : ℕ) → k < 64 → test result k ≡ column here (test west 63) end k }
{
    here << 1 | west >> 63 & 1
}

/// The eastern neighbour of each cell of a word.
#[inline(always)]
fn eastern(here: u64, east: u64) -> u64
    ensures { (end : Bool) (k : ℕ) → k < 64 → test result k ≡ column here end (test east 0) (suc (suc k)) }
{
    here >> 1 | east << 63
}

/// The next generation of the middle word of the middle one of three rows.
#[inline(always)]
pub fn next_word(above: Row, here: Row, below: Row) -> u64
    ensures { IsNextWord above here below result }
{
    let (above_ones, above_twos) = full_add!(
        western(above.here, above.west),
        above.here,
        eastern(above.here, above.east)
    );
    let (here_ones, here_twos) = half_add!(
        western(here.here, here.west),
        eastern(here.here, here.east)
    );
    let (below_ones, below_twos) = full_add!(
        western(below.here, below.west),
        below.here,
        eastern(below.here, below.east)
    );
    let (ones, carried_twos) = full_add!(above_ones, here_ones, below_ones);
    let (row_twos, row_fours) = full_add!(above_twos, here_twos, below_twos);
    let (twos, carried_fours) = half_add!(row_twos, carried_twos);
    let fours = row_fours | carried_fours;
    twos & (twos ^ fours) & (ones | here.here)
}

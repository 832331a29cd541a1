//! The counts of a book, with one line more.

ghost use Rattle.std.specs.Prelude.{◌≡◌, ◌<◌, ◌^◌, pos, [], ◌∷◌, length};
ghost use Rattle.book_lines.specs.Counts.{delay_count, lane_count, cell_count, product_count, HasSmallCounts};
ghost use Rattle.book_lines.specs.Values.{body_count};
ghost use Rattle.book_read.specs.Stated.{joined};
ghost use Rattle.book_read.specs.Limited.{held, counts, IsFirstOutside};
ghost use Rattle.book_read.specs.Drafted.{stated_of, IsKept};

use crate::draft::Draft;
use crate::outside::outside;
use book_lines::{Body, Limit, Placed, Statement};
use book_parts::limits::{
    MOST_CELLS, MOST_DELAYS, MOST_KINDS, MOST_LANES, MOST_SALVOS, MOST_TURNS,
};

/// The first count that passes its limit with a statement.
pub fn count_outside(draft: &Draft, statement: &Statement) -> Option<i64>
    requires kept { IsKept draft.now }
    requires small { HasSmallCounts statement.now }
    ensures { IsFirstOutside (counts (stated_of draft.now) statement.now) result }
{
    let kinds = over(MOST_KINDS, kinds_with(draft, statement));
    let turns = over(MOST_TURNS, turns_with(draft, statement));
    let salvos = over(MOST_SALVOS, salvos_with(draft, statement));
    let delays = over(MOST_DELAYS, delays_of(statement));
    let lanes = over(MOST_LANES, lanes_of(statement));
    let cells = over(MOST_CELLS, draft.cells as u64 + cells_of(statement));
    let entries = kinds.or(turns.or(salvos));
    entries.or(delays.or(lanes.or(cells)))
}

/// The count, where it passes its limit.
fn over(most: u64, count: u64) -> Option<i64>
    requires { count < 2 ^ 63 }
    ensures { IsFirstOutside (held (Limit.Count most) (pos count) ∷ []) result }
{
    outside(Limit::Count(most), count as i64)
}

/// How many kinds there are with a statement.
fn kinds_with(draft: &Draft, statement: &Statement) -> u64
    requires { IsKept draft.now }
    ensures value { result ≡ length (joined (stated_of draft.now) statement.now).kinds }
    ensures small { result < 2 ^ 63 }
{
    let kinds = draft.kinds.len() as u64;
    match statement {
        Statement::Elbow(_) => kinds + 1,
        _ => kinds,
    }
}

/// How many turns there are with a statement.
fn turns_with(draft: &Draft, statement: &Statement) -> u64
    requires { IsKept draft.now }
    ensures value { result ≡ length (joined (stated_of draft.now) statement.now).turns }
    ensures small { result < 2 ^ 63 }
{
    let turns = draft.turns.len() as u64;
    match statement {
        Statement::Turn(_) => turns + 1,
        _ => turns,
    }
}

/// How many salvos there are with a statement.
fn salvos_with(draft: &Draft, statement: &Statement) -> u64
    requires { IsKept draft.now }
    ensures value { result ≡ length (joined (stated_of draft.now) statement.now).salvos }
    ensures small { result < 2 ^ 63 }
{
    let salvos = draft.salvos.len() as u64;
    match statement {
        Statement::Salvo(_) => salvos + 1,
        _ => salvos,
    }
}

/// How many delays a statement has.
fn delays_of(statement: &Statement) -> u64
    ensures { result ≡ delay_count statement.now }
{
    match statement {
        Statement::Turn(turn) => turn.delays.items().len() as u64,
        _ => 0,
    }
}

/// How many lanes a statement has.
fn lanes_of(statement: &Statement) -> u64
    ensures { result ≡ lane_count statement.now }
{
    match statement {
        Statement::Salvo(salvo) => salvo.lanes.items().len() as u64,
        _ => 0,
    }
}

/// How many live cells the body of a statement has.
fn cells_of(statement: &Statement) -> u64
    ensures { result ≡ cell_count statement.now }
{
    match statement {
        Statement::Hand(body) => body_cells(body),
        Statement::Elbow(elbow) => body_cells(&elbow.placed.body),
        Statement::Salvo(salvo) => product_cells(&salvo.product),
        _ => 0,
    }
}

/// How many live cells a body has.
fn body_cells(body: &Body) -> u64
    ensures { result ≡ body_count body.now }
{
    match body {
        Body::Drawn(cells) => cells.len() as u64,
        Body::TooMany(count) => *count,
    }
}

/// How many live cells a product has.
fn product_cells(product: &Option<Placed>) -> u64
    ensures { result ≡ product_count product.now }
{
    match product {
        Some(placed) => body_cells(&placed.body),
        None => 0,
    }
}

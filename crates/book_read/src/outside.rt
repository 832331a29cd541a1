//! The first number of a line that is outside its limits.

ghost use Rattle.std.specs.Prelude.{◌≡◌, ℤ, [], ◌∷◌, ◌++◌, map, flat_map};
ghost use Rattle.life_cells.specs.Cells.{in_order};
ghost use Rattle.book_read.specs.Limited.{held, setting_limited, cell_numbers, body_numbers, placed_numbers, end_numbers, product_numbers, place_numbers, numbers, IsFirstOutside};

use book_lines::{Body, Limit, NamedEnd, Placed, SalvoLine, SettingLine, Statement, TurnLine};
use life_cells::{Cell, CellSet};

/// The first number of a statement that is outside its limits.
pub fn number_outside(statement: &Statement) -> Option<i64>
    ensures { IsFirstOutside (numbers statement.now) result }
{
    match statement {
        Statement::Setting(setting) => setting_outside(setting),
        Statement::Hand(body) => body_outside(body),
        Statement::Elbow(elbow) => placed_outside(&elbow.placed),
        Statement::Start(_) => None,
        Statement::Turn(turn) => turn_outside(turn),
        Statement::Salvo(salvo) => salvo_outside(salvo),
    }
}

/// The number, where it is outside its limit.
pub fn outside(limit: Limit, number: i64) -> Option<i64>
    ensures { IsFirstOutside (held limit number ∷ []) result }
{
    if limit.holds(number) {
        None
    } else {
        Some(number)
    }
}

fn cell_outside(cell: Cell) -> Option<i64>
    ensures { IsFirstOutside (cell_numbers cell) result }
{
    let x = outside(Limit::Coordinate, cell.x);
    let y = outside(Limit::Coordinate, cell.y);
    x.or(y)
}

fn setting_outside(setting: &SettingLine) -> Option<i64>
    ensures { IsFirstOutside (setting_limited setting.now) result }
{
    let limits = setting.word.limits();
    for (limit, number) in limits.iter().zip(setting.numbers.items()) {
        if !limit.holds(*number) {
            return Some(*number);
        }
    }
    None
}

fn numbers_outside(limit: Limit, items: &[i64]) -> Option<i64>
    ensures { IsFirstOutside (map (held limit) items.now) result }
{
    for item in items {
        if !limit.holds(*item) {
            return Some(*item);
        }
    }
    None
}

fn cells_outside(cells: &CellSet) -> Option<i64>
    ensures { IsFirstOutside (flat_map cell_numbers (in_order cells.now)) result }
{
    for cell in cells.cells() {
        let found = cell_outside(*cell);
        if found.is_some() {
            return found;
        }
    }
    None
}

fn body_outside(body: &Body) -> Option<i64>
    ensures { IsFirstOutside (body_numbers body.now) result }
{
    match body {
        Body::Drawn(cells) => cells_outside(cells),
        Body::TooMany(_) => None,
    }
}

fn placed_outside(placed: &Placed) -> Option<i64>
    ensures { IsFirstOutside (placed_numbers placed.now) result }
{
    cell_outside(placed.at).or(body_outside(&placed.body))
}

fn end_outside(end: &NamedEnd, n: i64) -> Option<i64>
    ensures { IsFirstOutside (end_numbers end.now n) result }
{
    let time = outside(Limit::Time, n);
    match end {
        NamedEnd::Close => time,
        NamedEnd::Move { shift, .. } => outside(Limit::Coordinate, *shift).or(time),
        NamedEnd::Emit { shift, lane, j, .. } => {
            let before = outside(Limit::Coordinate, *shift).or(time);
            let glider = outside(Limit::Coordinate, *lane).or(outside(Limit::Index, *j));
            before.or(glider)
        }
    }
}

fn turn_outside(turn: &TurnLine) -> Option<i64>
    ensures { IsFirstOutside (end_numbers turn.now.end turn.now.n ++ map (held Limit.Delay) turn.now.delays) result }
{
    let end = end_outside(&turn.end, turn.n);
    let delays = numbers_outside(Limit::Delay, turn.delays.items());
    end.or(delays)
}

fn product_outside(product: &Option<Placed>) -> Option<i64>
    ensures { IsFirstOutside (product_numbers product.now) result }
{
    match product {
        Some(placed) => placed_outside(placed),
        None => None,
    }
}

fn place_outside(place: Option<Cell>) -> Option<i64>
    ensures { IsFirstOutside (place_numbers place) result }
{
    match place {
        Some(cell) => cell_outside(cell),
        None => None,
    }
}

fn salvo_outside(salvo: &SalvoLine) -> Option<i64>
    ensures { IsFirstOutside (map (held Limit.Coordinate) salvo.now.lanes ++ (product_numbers salvo.now.product ++ place_numbers salvo.now.hand)) result }
{
    let lanes = numbers_outside(Limit::Coordinate, salvo.lanes.items());
    let product = product_outside(&salvo.product);
    let hand = place_outside(salvo.hand);
    lanes.or(product.or(hand))
}

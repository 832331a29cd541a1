//! What the lines of a book have stated so far.

ghost use Rattle.std.specs.Prelude.{◌≡◌, ◌↔◌, IsTrue, OnOk, Option, MatchOption, pos};
ghost use Rattle.std.specs.declared.option.Option.TheVariants.{Some, None};
ghost use Rattle.book_read.specs.Names.{number_of, known_number};
ghost use Rattle.book_read.specs.Stated.{Stated, nothing_stated, cells_of, product_of, turn_of, end_of, joined};
ghost use Rattle.book_lines.specs.Counts.{HasItsNumbers};
ghost use Rattle.book_read.specs.Limited.{IsOver};
ghost use Rattle.book_read.specs.Joining.{IsNew};
ghost use Rattle.book_read.specs.Reading.{IsMissing};
ghost use Rattle.book_read.specs.Drafted.{numbers_of, stated_of, IsKept};
ghost use Rattle.book_parts.specs.Limits.{IsFrom};

use book_lines::{Body, BookWord, ElbowLine, NamedEnd, Placed, SettingLine, Statement, TurnLine};
use book_parts::limits::LONGEST_TURN;
use book_parts::{RawKind, RawSalvo, RawTurn, TurnEnd};
use life_cells::{CellSet, NoMemory};
use std::alloc::Global;

/// What the lines so far have stated.
#[derive(Drop)]
pub struct Draft {
    /// The settings, in the order of their lines.
    pub settings: Vec<SettingLine>,
    pub hand: Option<CellSet>,
    pub kinds: Vec<RawKind>,
    pub start: Option<usize>,
    pub turns: Vec<RawTurn>,
    pub salvos: Vec<RawSalvo>,
    /// How many live cells all bodies have.
    pub cells: usize,
}

impl Draft {
    /// Before the first line.
    pub fn new(alloc: Global) -> Self
        ensures stated { stated_of result ≡ nothing_stated }
        ensures kept { IsKept result }
    {
        Draft {
            settings: Vec::new(alloc),
            hand: None,
            kinds: Vec::new(alloc),
            start: None,
            turns: Vec::new(alloc),
            salvos: Vec::new(alloc),
            cells: 0,
        }
    }

    /// The numbers of a setting, where it is stated.
    pub fn numbers(&self, word: BookWord) -> Option<&[i64]>
        ensures { MatchOption result (numbers_of self.now.settings.items word ≡ None) (λ zs. numbers_of self.now.settings.items word ≡ Some zs.now) }
    {
        for setting in &self.settings {
            if setting.word == word {
                return Some(setting.numbers.items());
            }
        }
        None
    }

    /// Whether no line has stated what begins with a word.
    pub fn is_missing(&self, word: BookWord) -> bool
        ensures { IsTrue result ↔ IsMissing (stated_of self.now) word }
    {
        match word {
            BookWord::Hand => self.hand.is_none(),
            BookWord::Elbow => self.kinds.is_empty(),
            BookWord::Start => self.start.is_none(),
            _ => self.numbers(word).is_none(),
        }
    }

    /// Adds what a line states that goes with the lines before it.
    pub fn add(&mut self, alloc: Global, statement: Statement) -> Result<(), NoMemory>
        requires kept { IsKept self.old }
        requires new { IsNew (stated_of self.old) statement }
        requires counted { HasItsNumbers statement }
        requires within { IsOver (stated_of self.old) statement None }
        ensures stated { OnOk result (stated_of self.new ≡ joined (stated_of self.old) statement) }
        ensures kept { OnOk result (IsKept self.new) }
    {
        match statement {
            Statement::Setting(setting) => self.settings.push(setting)?,
            Statement::Hand(body) => {
                let hand = cells_of(alloc, body);
                self.cells += hand.len();
                self.hand = Some(hand);
            }
            Statement::Elbow(ElbowLine { name, placed }) => {
                let cells = cells_of(alloc, placed.body);
                self.cells += cells.len();
                self.kinds.push(RawKind { name, cells })?;
            }
            Statement::Start(name) => self.start = Some(known_number(&self.kinds, name.text())),
            Statement::Turn(turn) => {
                let turn = turn_of(&self.kinds, turn);
                self.turns.push(turn)?;
            }
            Statement::Salvo(salvo) => {
                let product = product_of(alloc, salvo.product);
                self.cells += product.len();
                self.salvos.push(RawSalvo {
                    name: salvo.name,
                    lanes: salvo.lanes,
                    product,
                    hand: salvo.hand,
                })?;
            }
        }
        Ok(())
    }
}

/// The number of the kind with a name, counted from 1.
pub fn number_of(kinds: &[RawKind], name: &str) -> Option<usize>
    ensures { result ≡ number_of kinds.now name.now }
{
    for (index, kind) in kinds.iter().enumerate() {
        if kind.name.text() == name {
            return Some(index + 1);
        }
    }
    None
}

/// The number of the kind with a name that is known.
fn known_number(kinds: &[RawKind], name: &str) -> usize
    ensures { result ≡ known_number kinds.now name.now }
{
    number_of(kinds, name).unwrap_or(0)
}

/// The cells of a body; of too many none.
fn cells_of(alloc: Global, body: Body) -> CellSet
    ensures { result ≡ cells_of body }
{
    match body {
        Body::Drawn(cells) => cells,
        Body::TooMany(_) => CellSet::empty(alloc),
    }
}

/// The cells of a product; none where there is none.
fn product_of(alloc: Global, product: Option<Placed>) -> CellSet
    ensures { result ≡ product_of product }
{
    match product {
        Some(placed) => cells_of(alloc, placed.body),
        None => CellSet::empty(alloc),
    }
}

/// A turn, kinds by their numbers, whose time is within its limits.
fn turn_of(kinds: &[RawKind], turn: TurnLine) -> RawTurn
    requires { IsFrom (pos 0) (pos LONGEST_TURN) turn.n }
    ensures { result ≡ turn_of kinds.now turn }
{
    RawTurn {
        kind: known_number(kinds, turn.kind.text()),
        end: end_of(kinds, &turn.end),
        name: turn.name,
        n: turn.n as u32,
        delays: turn.delays,
    }
}

/// What a turn leaves, kinds by their numbers.
fn end_of(kinds: &[RawKind], end: &NamedEnd) -> TurnEnd
    ensures { result ≡ end_of kinds.now end.now }
{
    match end {
        NamedEnd::Close => TurnEnd::Close,
        NamedEnd::Move { kind, shift } => TurnEnd::Move {
            kind: known_number(kinds, kind.text()),
            shift: *shift,
        },
        NamedEnd::Emit {
            kind,
            shift,
            lane,
            j,
        } => TurnEnd::Emit {
            kind: known_number(kinds, kind.text()),
            shift: *shift,
            lane: *lane,
            j: *j,
        },
    }
}

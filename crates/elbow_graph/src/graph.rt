//! The turns of a book as the elbow sees them.

ghost use Rattle.std.specs.Prelude.{◌≡◌, ◌<◌, ◌^◌, Some, length, IfOk};
ghost use Rattle.std.specs.List.{slice_get};
ghost use Rattle.recipe_turn.specs.Checked.{raws};
ghost use Rattle.elbow_graph.specs.Exits.{exits_of};
ghost use Rattle.elbow_graph.specs.Tables.{listed};

use crate::exit::Exit;
use crate::places::Places;
use crate::table::Table;
use life_cells::NoMemory;
use recipe_turn::CheckedTurn;
use std::alloc::Global;
use std::marker::Model;

/// What the turns of a book do to the elbow, in their order, and tables of them. Contracts see what each turn does; the turns count from 1.
/// A graph serves any number of searches.
#[derive(Drop)]
pub struct ElbowGraph {
    exits: Vec<Exit>,
    moves: Places,
    leading: Places,
    closing: Places,
    throws: Places,
}

impl Model for ElbowGraph {
    ghost use Rattle.std.specs.Prelude.{List};
    ghost use Rattle.elbow_graph.specs.declared.exit.Exit.{Exit};
    ghost use Rattle.elbow_graph.specs.Tabled.{AreTabled};

    ghost Value = { List Exit };

    ghost view = { λ g. g.exits.items };

    ghost invariant = { λ g. AreTabled g.exits.items g.moves g.leading g.closing g.throws };
}

impl ElbowGraph {
    /// The graph of these turns.
    pub fn of(alloc: Global, turns: &[CheckedTurn]) -> Result<Self, NoMemory>
        ensures { IfOk result (λ graph. graph ≡ exits_of (raws turns.now)) }
    {
        let exits = exits(alloc, turns)?;
        let moves = Places::of(alloc, Table::Moves, &exits)?;
        let leading = Places::of(alloc, Table::Leading, &exits)?;
        let closing = Places::of(alloc, Table::Closing, &exits)?;
        let throws = Places::of(alloc, Table::Throws, &exits)?;
        Ok(ElbowGraph {
            exits,
            moves,
            leading,
            closing,
            throws,
        })
    }

    /// What the turn at a place does, counted from 0.
    pub(crate) fn exit(&self, place: usize) -> Exit
        requires { place < length self.now }
        ensures { slice_get self.now place ≡ Some result }
    {
        self.exits[place]
    }

    /// The turns of a table.
    pub(crate) fn places(&self, table: Table) -> &Places
        ensures places { result.now ≡ listed table self.now }
        ensures small { length self.now < 2 ^ 63 }
    {
        match table {
            Table::Moves => &self.moves,
            Table::Leading => &self.leading,
            Table::Closing => &self.closing,
            Table::Throws => &self.throws,
        }
    }
}

/// What each of the turns does.
fn exits(alloc: Global, turns: &[CheckedTurn]) -> Result<Vec<Exit>, NoMemory>
    ensures { IfOk result (λ exits. exits.items ≡ exits_of (raws turns.now)) }
{
    let mut exits = Vec::with_capacity(alloc, turns.len())?;
    for turn in turns {
        exits.push(Exit::of(turn.raw()))?;
    }
    Ok(exits)
}

//! The turns of a table, found by their keys.

ghost use Rattle.std.specs.Prelude.{◌≡◌, ◌+◌, ◌<◌, length, IfOk};
ghost use Rattle.elbow_graph.specs.Tables.{IsKeyed, IsLeastFrom, listed};
ghost use Rattle.elbow_graph.specs.Made.{IsMade};
ghost use Rattle.elbow_graph.specs.SameKeys.{key_eq};

use crate::exit::Exit;
use crate::table::{Table, TurnKey};
use indexmap::IndexMap;
use life_cells::NoMemory;
use std::alloc::Global;
use std::marker::Model;
use std::snapshot::Snapshot;

/// The turns of a table: for each key the places of those with it, in order, counted from 0. Contracts see the table, and all turns.
#[derive(Drop)]
pub(crate) struct Places {
    table: Snapshot<Table>,
    exits: Snapshot<Vec<Exit>>,
    /// The first place with each key.
    firsts: IndexMap<TurnKey, usize>,
    /// For each place the next with its key.
    nexts: Vec<Option<usize>>,
}

impl Model for Places {
    ghost use Rattle.indexmap.specs.IndexMap.{get};
    ghost use Rattle.elbow_graph.specs.Tables.{Listed, listed};
    ghost use Rattle.elbow_graph.specs.Made.{IsMade};
    ghost use Rattle.elbow_graph.specs.SameKeys.{key_eq};

    ghost Value = { Listed };

    ghost view = { λ p. listed p.table.value p.exits.value.items };

    ghost invariant = { λ p. IsMade p.table.value p.exits.value.items (get key_eq p.firsts) p.nexts.items 0 };
}

impl Places {
    /// The turns of a table among these.
    pub(crate) fn of(alloc: Global, table: Table, exits: &Vec<Exit>) -> Result<Self, NoMemory>
        ensures { IfOk result (λ places. places ≡ listed table exits.now.items) }
    {
        let mut firsts = IndexMap::new(alloc);
        let mut nexts = vec![in alloc; None; exits.len()]?;
        let mut place = exits.len();
        'places: while place > 0 {
            place -= 1;
            if let Some(key) = table.key_of(exits[place]) {
                nexts[place] = firsts.insert(key, place)?;
            }
        }
        Ok(Places {
            table: Snapshot::of(&table),
            exits: Snapshot::of(exits),
            firsts,
            nexts,
        })
    }

    /// The first place of a turn with a key.
    pub(crate) fn first(&self, key: TurnKey) -> Option<usize>
        ensures { IsLeastFrom (IsKeyed self.now.table self.now.exits key) 0 result }
    {
        self.firsts.get(&key).copied()
    }

    /// The next place of a turn with the same key as the one at a place.
    pub(crate) fn after(&self, place: usize) -> Option<usize>
        requires { place < length self.now.exits }
        ensures { (key : _) → IsKeyed self.now.table self.now.exits key place → IsLeastFrom (IsKeyed self.now.table self.now.exits key) (place + 1) result }
    {
        self.nexts[place]
    }
}

//! How lists of turns are walked over a graph.

ghost use Rattle.std.specs.Prelude.{◌≡◌, ℤ, pos, ◌≤ℤ◌, ◌+ℤ◌, ◌*ℤ◌, IfSome};
ghost use Rattle.breadth_search.specs.Search.{bound_past};
ghost use Rattle.breadth_search.specs.Leads.{IsFirstLead, IsFirstEnd};
ghost use Rattle.elbow_graph.specs.declared.goal.Goal.TheVariants as goals;
ghost use Rattle.elbow_graph.specs.Goals.{Passes, Ends};
ghost use Rattle.elbow_graph.specs.Tables.{passing_in, turn_key, place_past, IsKeyed, IsLeastFrom, IsTurnOf, LeadsBy};

use crate::elbow::Elbow;
use crate::goal::Goal;
use crate::graph::ElbowGraph;
use crate::places::Places;
use crate::table::{Table, TurnKey};
use breadth_search::{Ending, Graph, Lead};

/// How lists of turns are walked: over which graph, for which goal, and within which span.
#[derive(Drop)]
pub(crate) struct Way<'a> {
    pub(crate) graph: &'a ElbowGraph,
    pub(crate) goal: Goal,
    pub(crate) span: i64,
    ghost wide: { pos 0 ≤ℤ span },
}

impl<'a> Graph<Elbow> for Way<'a> {
    ghost leads = { λ w. Passes w.graph.now w.span w.goal };

    fn first(&self, at: Elbow) -> Option<Lead<Elbow>> {
        let table = passing(self.goal);
        first_leading(self.graph, table, at_kind(at), None, at, self.span)
    }

    fn after(&self, at: Elbow, number: usize) -> Option<Lead<Elbow>> {
        let table = passing(self.goal);
        first_leading(self.graph, table, at_kind(at), Some(number), at, self.span)
    }
}

impl<'a> Ending<Elbow> for Way<'a> {
    ghost ends = { λ w. Ends w.graph.now w.span w.goal };

    fn ending(&self, at: Elbow) -> Option<usize> {
        match self.goal {
            Goal::Anywhere => None,
            Goal::Closed => closing(self.graph, at),
            Goal::Lane(wanted) => throwing(self.graph, at, wanted, self.span),
        }
    }
}

/// The key of the turns at an elbow.
fn at_kind(at: Elbow) -> TurnKey
    ensures { result ≡ turn_key at.kind None }
{
    TurnKey {
        kind: at.kind,
        lane: None,
    }
}

/// The table of the turns that may stand before the last of a list.
fn passing(goal: Goal) -> Table
    ensures { result ≡ passing_in goal }
{
    match goal {
        Goal::Anywhere => Table::Leading,
        Goal::Closed => Table::Moves,
        Goal::Lane(_) => Table::Moves,
    }
}

/// The number of the first turn that closes an elbow.
fn closing(graph: &ElbowGraph, at: Elbow) -> Option<usize>
    ensures { (span : ℤ) → IsFirstEnd (Ends graph.now span goals.Closed) at result }
{
    match graph.places(Table::Closing).first(at_kind(at)) {
        Some(place) => Some(place + 1),
        None => None,
    }
}

/// The number of the first turn that throws on a lane at an elbow, and leaves the elbow within the span.
fn throwing(graph: &ElbowGraph, at: Elbow, wanted: i64, span: i64) -> Option<usize>
    requires { pos 0 ≤ℤ span }
    ensures { IsFirstEnd (Ends graph.now span (goals.Lane wanted)) at result }
{
    let key = TurnKey {
        kind: at.kind,
        lane: Some(lane_at(wanted, at.shift)),
    };
    match first_leading(graph, Table::Throws, key, None, at, span) {
        Some(lead) => Some(lead.number),
        None => None,
    }
}

/// The lane on which a turn at a shift must throw for the wanted one.
fn lane_at(wanted: i64, shift: i64) -> i128
    ensures { result +ℤ pos 2 *ℤ shift ≡ wanted }
{
    i128::from(wanted) - 2 * i128::from(shift)
}

/// The first turn with a key in a table, past one of them where one is named, that leads from an elbow to another within the span.
fn first_leading(
    graph: &ElbowGraph,
    table: Table,
    key: TurnKey,
    past: Option<usize>,
    at: Elbow,
    span: i64,
) -> Option<Lead<Elbow>>
    requires span { pos 0 ≤ℤ span }
    requires past { IfSome past (IsTurnOf table graph.now key) }
    ensures { IsFirstLead (LeadsBy table graph.now span key) at (bound_past past) result }
{
    let places = graph.places(table);
    let mut place = first_past(places, key, past);
    'turns: while let Some(index) = place {
        if let Some(to) = graph.exit(index).leads(at, span) {
            return Some(Lead {
                number: index + 1,
                to,
            });
        }
        place = places.after(index);
    }
    None
}

/// The place of the first turn with a key in a table, past one of them where one is named.
fn first_past(places: &Places, key: TurnKey, past: Option<usize>) -> Option<usize>
    requires { IfSome past (IsTurnOf places.now.table places.now.exits key) }
    ensures { IsLeastFrom (IsKeyed places.now.table places.now.exits key) (place_past past) result }
{
    match past {
        None => places.first(key),
        Some(number) => places.after(number - 1),
    }
}

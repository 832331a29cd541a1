//! The salvos of a book, as the hand sees them.

ghost use Rattle.std.specs.Prelude.{◌≡◌, ◌↔◌, IsTrue, IfOk, IfSome, IfNone};
ghost use Rattle.book_parts.specs.Limits.{AreProper};
ghost use Rattle.elbow_graph.specs.Numbered.{IsNumbered};
ghost use Rattle.recipe_hit.specs.Checked.{Struck};
ghost use Rattle.hand_route.specs.declared.salvos.Carrier.{Carrier as Moving};
ghost use Rattle.hand_route.specs.Carriers.{CarriesBy, IsNear, TakesHand, AreCarriers, AreTakers};

use book_parts::Settings;
use life_cells::{Cell, NoMemory};
use recipe_hit::CheckedSalvo;
use std::alloc::Global;
use std::marker::Model;

/// A salvo that builds nothing and carries the hand.
#[derive(Clone, Copy, Debug, PartialEq, Eq)]
pub(crate) struct Carrier {
    /// Its number, counted from 1.
    pub(crate) number: usize,
    /// How far it carries the hand.
    pub(crate) by: Cell,
}

/// The salvos of a book, and those of them that build nothing, sorted: the ones that carry the hand, and the ones that take it away.
/// Contracts see the settings and the salvos. It serves any number of searches.
#[derive(Drop)]
pub struct HandSalvos<'a> {
    settings: &'a Settings,
    salvos: &'a [CheckedSalvo],
    carriers: Vec<Carrier>,
    takers: Vec<usize>,
}

impl<'a> Model for HandSalvos<'a> {
    ghost use Rattle.book_parts.specs.Limits.{AreProper};
    ghost use Rattle.hand_route.specs.Carriers.{Means, coded_means, AreSorted};

    ghost Value = { Means };

    ghost coded = { coded_means };

    ghost view = { λ m. record { settings = m.settings.now; salvos = m.salvos.now } };

    ghost invariant = { λ m. AreProper m.settings.now × AreSorted m.salvos.now m.carriers.items m.takers.items };
}

impl<'a> HandSalvos<'a> {
    /// The salvos of a book, sorted for the hand.
    pub fn of(
        alloc: Global,
        settings: &'a Settings,
        salvos: &'a [CheckedSalvo],
    ) -> Result<HandSalvos<'a>, NoMemory>
        requires { AreProper settings.now }
        ensures settings { IfOk result (λ sorted. sorted.settings ≡ settings.now) }
        ensures salvos { IfOk result (λ sorted. sorted.salvos ≡ salvos.now) }
    {
        let carriers = carriers_of(alloc, salvos)?;
        let takers = takers_of(alloc, salvos)?;
        Ok(HandSalvos {
            settings,
            salvos,
            carriers,
            takers,
        })
    }

    /// The settings of the book.
    pub fn settings(&self) -> &Settings
        ensures same { result.now ≡ self.now.settings }
        ensures proper { AreProper self.now.settings }
    {
        self.settings
    }

    /// The salvos that carry the hand, in the order of their numbers.
    pub(crate) fn carriers(&self) -> &[Carrier]
        ensures { AreCarriers self.now.salvos result.now }
    {
        &self.carriers
    }

    /// The numbers of the salvos that take the hand away, in their order.
    pub(crate) fn takers(&self) -> &[usize]
        ensures { AreTakers self.now.salvos result.now }
    {
        &self.takers
    }

    /// The salvo with a number, counted from 1.
    pub(crate) fn salvo(&self, number: usize) -> &CheckedSalvo
        requires { (salvo : Struck) × IsNumbered self.now.salvos number salvo }
        ensures { IsNumbered self.now.salvos number result.now }
    {
        let salvos = self.salvos;
        &salvos[number - 1]
    }
}

/// The salvo with a number, where it builds nothing and carries the hand.
fn carrier_of(number: usize, salvo: &CheckedSalvo) -> Option<Carrier>
    ensures some { IfSome result (λ c. (c.number ≡ number) × (CarriesBy salvo.now c × IsNear c)) }
    ensures none { IfNone result ((c : Moving) → CarriesBy salvo.now c → ⊥) }
{
    if !salvo.raw().product.is_empty() {
        return None;
    }
    let by = salvo.leaves()?;
    Some(Carrier { number, by })
}

/// Whether a salvo builds nothing and takes the hand away.
fn is_taker(salvo: &CheckedSalvo) -> bool
    ensures { IsTrue result ↔ TakesHand salvo.now }
{
    salvo.raw().product.is_empty() && salvo.leaves().is_none()
}

/// The salvos that carry the hand.
fn carriers_of(alloc: Global, salvos: &[CheckedSalvo]) -> Result<Vec<Carrier>, NoMemory>
    ensures { IfOk result (λ carriers. AreCarriers salvos.now carriers.items) }
{
    let mut carriers = Vec::new(alloc);
    for (place, salvo) in salvos.iter().enumerate() {
        if let Some(carrier) = carrier_of(place + 1, salvo) {
            carriers.push(carrier)?;
        }
    }
    Ok(carriers)
}

/// The numbers of the salvos that take the hand away.
fn takers_of(alloc: Global, salvos: &[CheckedSalvo]) -> Result<Vec<usize>, NoMemory>
    ensures { IfOk result (λ takers. AreTakers salvos.now takers.items) }
{
    let mut takers = Vec::new(alloc);
    for (place, salvo) in salvos.iter().enumerate() {
        if is_taker(salvo) {
            takers.push(place + 1)?;
        }
    }
    Ok(takers)
}

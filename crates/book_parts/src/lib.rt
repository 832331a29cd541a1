//! The parts of a recipe book as plain values: settings, kinds of elbow, turns and salvos, as a text states them.
//! Numbers of kinds, turns and salvos count from 1. x goes right and y goes down; u = x - y and v = x + y.
#![tactic(auto)]

pub mod book;
pub mod kind;
pub mod limits;
pub mod name;
pub mod numbers;
pub mod salvo;
pub mod settings;
pub mod turn;

pub use book::RawBook;
pub use kind::RawKind;
pub use name::Name;
pub use numbers::Numbers;
pub use salvo::RawSalvo;
pub use settings::{Range, Settings};
pub use turn::{RawTurn, TurnEnd};

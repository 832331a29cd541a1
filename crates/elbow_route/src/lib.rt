//! How turns lead the elbow where it is wanted: the least lists of turns that close it, or that throw on a lane.
#![tactic(auto)]

pub mod laws;
pub mod routes;

pub use elbow_graph::{Elbow, ElbowGraph, Goal};
pub use laws::{least_lists_are_one, least_lists_are_short, serving_lists_stay_in_span};
pub use routes::{least_to_close, least_to_lane, route_to_close, route_to_lane};

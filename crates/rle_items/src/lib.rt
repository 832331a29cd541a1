//! Items of Golly's RLE: counts and tags, what may stand between them, the cursor that they move, and body words, which are
//! items alone. x goes right and y goes down; the first item of a word stands at (0,0).
#![tactic(auto)]

pub mod body;
pub mod cells;
pub mod cursor;
pub mod digits;
pub mod error;
pub mod front;
pub mod gaps;
pub mod item;
pub mod laws;
pub mod reach;
pub mod reading;

pub use body::read_body;
pub use error::BodyError;
pub use gaps::Gaps;
pub use reading::read_items;

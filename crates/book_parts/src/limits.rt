//! The limits of what a book says, each named once.

ghost use Rattle.std.specs.Prelude.{◌≡◌, pos};
ghost use Rattle.life_plane.specs.Tracks.{gap};

/// The most kinds of elbow.
pub const MOST_KINDS: u64 = 256;

/// The most turns.
pub const MOST_TURNS: u64 = 1_024;

/// The most salvos.
pub const MOST_SALVOS: u64 = 4_096;

/// The most delays of a turn.
pub const MOST_DELAYS: u64 = 64;

/// The most gaps between the delays of a turn.
pub const MOST_GAPS: u64 = 63;

/// The most lanes of a salvo.
pub const MOST_LANES: u64 = 64;

/// The most bytes of a name.
pub const LONGEST_NAME: usize = 32;

/// The most elbow states.
pub const MOST_STATES: u64 = 1 << 22;

/// The most gliders of a stream.
pub const MOST_GLIDERS: u64 = 1 << 20;

/// The most live cells of all bodies.
pub const MOST_CELLS: u64 = 1 << 18;

/// The greatest coordinate, shift or lane; the least is its negative.
pub const GREATEST_COORDINATE: i64 = 1 << 30;

/// The greatest index of a glider that a turn throws; the least is its negative.
pub const GREATEST_INDEX: i64 = 1 << 33;

/// The longest delay, in generations.
pub const LONGEST_DELAY: i64 = 65_536;

/// The longest turn, in generations.
pub const LONGEST_TURN: u32 = 65_536;

/// The least approach, in generations.
pub const LEAST_APPROACH: i64 = 20;

/// The greatest approach, in generations.
pub const GREATEST_APPROACH: i64 = 4_096;

/// The greatest wall, as a u.
pub const GREATEST_WALL: i64 = 4_096;

/// How far the reach is past the wall, at least.
pub const WALL_MARGIN: i64 = 9;

/// The greatest reach, as a u.
pub const GREATEST_REACH: i64 = 65_536;

/// The greatest room.
pub const GREATEST_ROOM: i64 = 512;

/// The greatest span.
pub const GREATEST_SPAN: i64 = 1 << 27;

/// The least gap between two gliders of a stream, in generations.
pub const LEAST_GAP: i64 = 20;

/// The least gap of books is the gap of streams, of which definitions speak.
pub fn least_gap_is_that_of_streams()
    ensures { LEAST_GAP ≡ pos gap }
{}

//! The cells of a glider.

ghost use Rattle.std.specs.Prelude.{◌≡◌, ◌<◌, ◌≤◌, ◌≤ℤ◌, ◌^◌, ◌∷◌, [], ℤ, pos, neg_ℤ, map};
ghost use Rattle.life_cells.specs.Listed.{listed};
ghost use Rattle.life_plane.specs.Tracks.{phase};
ghost use Rattle.life_gliders.specs.Glider.{glider, IsLaneAtMost};
ghost use Rattle.life_gliders.specs.Listing.{glider_list, placed, cell_at_rest};

use crate::tables::PHASES;
use crate::track::Track;
use life_cells::Cell;

/// The cells of a phase at rest.
fn phase_at_rest(number: usize) -> [(u8, u8); 5]
    requires { number < 4 }
    ensures { map cell_at_rest result ≡ phase number }
{
    PHASES[number]
}

/// Where a glider that has travelled so many quarters has a cell of its phase.
fn place(track: Track, quarters: i64, rest: (u8, u8)) -> Cell
    requires low { neg_ℤ (pos (2 ^ 61)) ≤ℤ quarters }
    requires high { quarters ≤ℤ pos (2 ^ 61) }
    requires lane { IsLaneAtMost (2 ^ 61) track }
    ensures { result ≡ placed track quarters (cell_at_rest rest) }
{
    let x = quarters + i64::from(rest.0);
    let y = quarters + i64::from(rest.1);
    match track {
        Track::Stream => Cell { y, x },
        Track::Salvo { lane } => Cell { y: -y, x: lane + x },
    }
}

/// The five cells of the glider of index j on a track. The index may be greater than in the public call:
/// that of a glider whose coordinates are within 2^58 can be a little past 2^60.
pub(crate) fn cells_on(track: Track, j: i64) -> [Cell; 5]
    requires low { neg_ℤ (pos (2 ^ 61)) ≤ℤ j }
    requires high { j ≤ℤ pos (2 ^ 61) }
    requires lane { IsLaneAtMost (2 ^ 61) track }
    ensures cells { listed result ≡ glider track j }
    ensures order { result ≡ glider_list track j }
{
    let quarters = j.div_euclid(4);
    let number = j.rem_euclid(4) as usize;
    let [a, b, c, d, e] = phase_at_rest(number);
    [
        place(track, quarters, a),
        place(track, quarters, b),
        place(track, quarters, c),
        place(track, quarters, d),
        place(track, quarters, e),
    ]
}

/// The five cells of the glider of index j on a track, in the order of its phase at rest.
pub fn glider_cells(track: Track, j: i64) -> [Cell; 5]
    requires low { neg_ℤ (pos (2 ^ 60)) ≤ℤ j }
    requires high { j ≤ℤ pos (2 ^ 60) }
    requires lane { IsLaneAtMost (2 ^ 60) track }
    ensures cells { listed result ≡ glider track j }
    ensures order { result ≡ glider_list track j }
{
    cells_on(track, j)
}

//! The rule on several strips at a time, by lanes.

ghost use Rattle.std.specs.Prelude.{◌≡◌, ℕ, ◌<◌, slice_index, length, ◌⊎◌};
ghost use Rattle.life_kernel.specs.Rows.{test, next_cell};

use std::simd::Simd;

/// The next generation of some strips: eight bit planes are added, in as many lanes as there are strips.
macro_rules! next_generation {
    ($lanes:literal, $above:ident, $here:ident, $below:ident, $west:ident, $east:ident) => {{
        let one = Simd::<u64, $lanes>::splat(1);
        let two = Simd::<u64, $lanes>::splat(2);
        let last = Simd::<u64, $lanes>::splat(63);
        let above = $above;
        let here = $here;
        let below = $below;
        let west = $west;
        let east = $east;
        let (above_ones, above_twos) = full_add!(
            above << one | west & one,
            above,
            above >> one | east << last
        );
        let (here_ones, here_twos) = half_add!(
            here << one | west >> one & one,
            here >> one | (east >> one) << last
        );
        let (below_ones, below_twos) = full_add!(
            below << one | west >> two & one,
            below,
            below >> one | (east >> two) << last
        );
        let (ones, carried_twos) = full_add!(above_ones, here_ones, below_ones);
        let (row_twos, row_fours) = full_add!(above_twos, here_twos, below_twos);
        let (twos, carried_fours) = half_add!(row_twos, carried_twos);
        let fours = row_fours | carried_fours;
        twos & (twos ^ fours) & (ones | here)
    }};
}

/// The ends of one strip as words.
#[inline(always)]
fn widened_1(ends: Simd<u8, 1>) -> Simd<u64, 1>
    ensures { result ≡ ends }
{
    ends.cast::<u64>()
}

/// The next generation of one strip, by lanes.
#[inline(always)]
fn strips_1(
    above: Simd<u64, 1>,
    here: Simd<u64, 1>,
    below: Simd<u64, 1>,
    west: Simd<u64, 1>,
    east: Simd<u64, 1>,
) -> Simd<u64, 1>
    ensures { (j : ℕ) → j < 1 → (k : ℕ) → k < 64 → test (slice_index result j) k
        ≡ next_cell (slice_index above j) (slice_index here j) (slice_index below j) (slice_index west j) (slice_index east j) k }
{
    next_generation!(1, above, here, below, west, east)
}

/// The ends of two strips as words.
#[inline(always)]
fn widened_2(ends: Simd<u8, 2>) -> Simd<u64, 2>
    ensures { result ≡ ends }
{
    ends.cast::<u64>()
}

/// The next generation of two strips, by lanes.
#[inline(always)]
fn strips_2(
    above: Simd<u64, 2>,
    here: Simd<u64, 2>,
    below: Simd<u64, 2>,
    west: Simd<u64, 2>,
    east: Simd<u64, 2>,
) -> Simd<u64, 2>
    ensures { (j : ℕ) → j < 2 → (k : ℕ) → k < 64 → test (slice_index result j) k
        ≡ next_cell (slice_index above j) (slice_index here j) (slice_index below j) (slice_index west j) (slice_index east j) k }
{
    next_generation!(2, above, here, below, west, east)
}

/// The ends of four strips as words.
#[inline(always)]
fn widened_4(ends: Simd<u8, 4>) -> Simd<u64, 4>
    ensures { result ≡ ends }
{
    ends.cast::<u64>()
}

/// The next generation of four strips, by lanes.
#[inline(always)]
fn strips_4(
    above: Simd<u64, 4>,
    here: Simd<u64, 4>,
    below: Simd<u64, 4>,
    west: Simd<u64, 4>,
    east: Simd<u64, 4>,
) -> Simd<u64, 4>
    ensures { (j : ℕ) → j < 4 → (k : ℕ) → k < 64 → test (slice_index result j) k
        ≡ next_cell (slice_index above j) (slice_index here j) (slice_index below j) (slice_index west j) (slice_index east j) k }
{
    next_generation!(4, above, here, below, west, east)
}

/// The ends of eight strips as words.
#[inline(always)]
fn widened_8(ends: Simd<u8, 8>) -> Simd<u64, 8>
    ensures { result ≡ ends }
{
    ends.cast::<u64>()
}

/// The next generation of eight strips, by lanes.
#[inline(always)]
fn strips_8(
    above: Simd<u64, 8>,
    here: Simd<u64, 8>,
    below: Simd<u64, 8>,
    west: Simd<u64, 8>,
    east: Simd<u64, 8>,
) -> Simd<u64, 8>
    ensures { (j : ℕ) → j < 8 → (k : ℕ) → k < 64 → test (slice_index result j) k
        ≡ next_cell (slice_index above j) (slice_index here j) (slice_index below j) (slice_index west j) (slice_index east j) k }
{
    next_generation!(8, above, here, below, west, east)
}

/// The same from and into slices.
fn fill_1(above: &[u64], here: &[u64], below: &[u64], west: &[u8], east: &[u8], next: &mut [u64])
    requires above { length above.now ≡ 1 }
    requires here { length here.now ≡ 1 }
    requires below { length below.now ≡ 1 }
    requires west { length west.now ≡ 1 }
    requires east { length east.now ≡ 1 }
    requires next { length next.old ≡ 1 }
    ensures { (j : ℕ) → j < 1 → (k : ℕ) → k < 64 → test (slice_index next.new j) k
        ≡ next_cell (slice_index above.now j) (slice_index here.now j) (slice_index below.now j) (slice_index west.now j) (slice_index east.now j) k }
{
    strips_1(
        Simd::from_slice(above),
        Simd::from_slice(here),
        Simd::from_slice(below),
        widened_1(Simd::from_slice(west)),
        widened_1(Simd::from_slice(east)),
    )
    .copy_to_slice(next);
}

/// The same from and into slices.
fn fill_2(above: &[u64], here: &[u64], below: &[u64], west: &[u8], east: &[u8], next: &mut [u64])
    requires above { length above.now ≡ 2 }
    requires here { length here.now ≡ 2 }
    requires below { length below.now ≡ 2 }
    requires west { length west.now ≡ 2 }
    requires east { length east.now ≡ 2 }
    requires next { length next.old ≡ 2 }
    ensures { (j : ℕ) → j < 2 → (k : ℕ) → k < 64 → test (slice_index next.new j) k
        ≡ next_cell (slice_index above.now j) (slice_index here.now j) (slice_index below.now j) (slice_index west.now j) (slice_index east.now j) k }
{
    strips_2(
        Simd::from_slice(above),
        Simd::from_slice(here),
        Simd::from_slice(below),
        widened_2(Simd::from_slice(west)),
        widened_2(Simd::from_slice(east)),
    )
    .copy_to_slice(next);
}

/// The same from and into slices.
fn fill_4(above: &[u64], here: &[u64], below: &[u64], west: &[u8], east: &[u8], next: &mut [u64])
    requires above { length above.now ≡ 4 }
    requires here { length here.now ≡ 4 }
    requires below { length below.now ≡ 4 }
    requires west { length west.now ≡ 4 }
    requires east { length east.now ≡ 4 }
    requires next { length next.old ≡ 4 }
    ensures { (j : ℕ) → j < 4 → (k : ℕ) → k < 64 → test (slice_index next.new j) k
        ≡ next_cell (slice_index above.now j) (slice_index here.now j) (slice_index below.now j) (slice_index west.now j) (slice_index east.now j) k }
{
    strips_4(
        Simd::from_slice(above),
        Simd::from_slice(here),
        Simd::from_slice(below),
        widened_4(Simd::from_slice(west)),
        widened_4(Simd::from_slice(east)),
    )
    .copy_to_slice(next);
}

/// The same from and into slices.
fn fill_8(above: &[u64], here: &[u64], below: &[u64], west: &[u8], east: &[u8], next: &mut [u64])
    requires above { length above.now ≡ 8 }
    requires here { length here.now ≡ 8 }
    requires below { length below.now ≡ 8 }
    requires west { length west.now ≡ 8 }
    requires east { length east.now ≡ 8 }
    requires next { length next.old ≡ 8 }
    ensures { (j : ℕ) → j < 8 → (k : ℕ) → k < 64 → test (slice_index next.new j) k
        ≡ next_cell (slice_index above.now j) (slice_index here.now j) (slice_index below.now j) (slice_index west.now j) (slice_index east.now j) k }
{
    strips_8(
        Simd::from_slice(above),
        Simd::from_slice(here),
        Simd::from_slice(below),
        widened_8(Simd::from_slice(west)),
        widened_8(Simd::from_slice(east)),
    )
    .copy_to_slice(next);
}

/// One generation of N strips at a time, N being 1, 2, 4 or 8; each is three rows of 64 cells (bit 0 is the westmost).
/// Bits 0, 1 and 2 of `west` and of `east` are the cells beyond the strip's ends in the rows above, here and below.
pub fn next_rows<const N: usize>(
    above: &[u64; N],
    here: &[u64; N],
    below: &[u64; N],
    west: &[u8; N],
    east: &[u8; N],
) -> [u64; N]
    requires { (N ≡ 1) ⊎ ((N ≡ 2) ⊎ ((N ≡ 4) ⊎ (N ≡ 8))) }
    ensures { (j : ℕ) → j < N → (k : ℕ) → k < 64 → test (slice_index result j) k
        ≡ next_cell (slice_index above.now j) (slice_index here.now j) (slice_index below.now j) (slice_index west.now j) (slice_index east.now j) k }
{
    let mut next = [0; N];
    if N == 1 {
        fill_1(above, here, below, west, east, &mut next);
        return next;
    }
    if N == 2 {
        fill_2(above, here, below, west, east, &mut next);
        return next;
    }
    if N == 4 {
        fill_4(above, here, below, west, east, &mut next);
        return next;
    }
    fill_8(above, here, below, west, east, &mut next);
    next
}

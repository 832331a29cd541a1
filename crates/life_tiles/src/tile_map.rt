//! Tiles, found by their places.

ghost use Rattle.std.specs.Prelude.{◌≡◌, false, ℕ, ◌+◌, ◌-◌, ◌*◌, ◌<◌, ◌≤◌, ◌^◌, [], Some, position, slice_get, slice_index, slice_index_or, length, IsOk, IfOk, OnOk, OnErr};
ghost use Rattle.life_tiles.specs.Tiling.{same_place, IsWithin, IsTiled, OnlyAppends, KeepsItems, KeepsPlaces, OnlyMakes};
ghost use Rattle.life_tiles.specs.Spans.{no_rows};
ghost use Rattle.indexmap.specs.IndexSet.{spare};

use crate::linking::{DIRECTIONS, NOWHERE, link};
use crate::place::Place;
use crate::span::Span;
use indexmap::IndexSet;
use life_cells::NoMemory;
use std::alloc::Global;

/// The side of a tile, and how many words it has.
pub(crate) const SIDE: usize = 64;

/// For how many tiles memory is taken at first.
const FEWEST: usize = 16;

/// For more tiles than this there is no memory: their words would have no index.
const MOST: usize = 0x80_0000_0000_0000;

/// Tiles by their places. The tile at index i has the words from 64 i on: one for each of its rows, going down.
#[derive(Drop)]
pub(crate) struct TileMap {
    /// The places of the tiles.
    pub places: IndexSet<Place>,
    /// Room for the places of those that are kept when the others are given back.
    pub kept: IndexSet<Place>,
    /// For each tile the indices of the nine about it, row by row from the north-west.
    pub beside: Vec<usize>,
    /// The words now; those behind the last tile are 0.
    pub rows: Vec<u64>,
    /// The words a generation ago, and room for those of the next; those behind the last tile are 0.
    pub next: Vec<u64>,
    /// The rows of each tile that may become other than they were a generation ago.
    pub awake: Vec<Span>,
    /// Room for these rows in the step after.
    pub waking: Vec<Span>,
    /// Whether a step was made, so that `next` has what was a generation ago.
    pub recent: bool,
    /// A tile that changed in the last step, if one did.
    pub stirring: usize,
    /// For how many tiles there is memory.
    pub room: usize,
}

impl TileMap {
    /// No tile.
    pub fn new(alloc: Global) -> Result<Self, NoMemory>
        ensures tiled { IfOk result IsTiled }
        ensures none { IfOk result (λ tiles. tiles.places.keys ≡ []) }
        ensures recent { IfOk result (λ tiles. tiles.recent ≡ false) }
    {
        let mut rows = Vec::new(alloc);
        let mut next = Vec::new(alloc);
        lengthen(&mut rows, &mut next, SIDE)?;
        Ok(TileMap {
            places: IndexSet::new(alloc),
            kept: IndexSet::new(alloc),
            beside: Vec::new(alloc),
            rows,
            next,
            awake: Vec::new(alloc),
            waking: Vec::new(alloc),
            recent: false,
            stirring: 0,
            room: 0,
        })
    }

    /// The index of the tile at this place.
    pub fn find(&self, place: Place) -> Option<usize>
        ensures { result ≡ position (same_place place) self.now.places.keys }
    {
        self.places.get_index_of(&place)
    }

    /// The index of the tile at this place, which is made where there is none; where the memory is used up, more is taken only
    /// if it may grow. No cell changes.
    pub fn make(&mut self, place: Place, grows: bool) -> Result<usize, NoMemory>
        requires tiled { IsTiled self.old }
        requires near { IsWithin (2 ^ 56) place }
        ensures makes { OnlyMakes self.old self.new }
        ensures there { IfOk result (λ index. slice_get self.new.places.keys index ≡ Some place) }
        ensures few { length self.new.places.keys ≤ length self.old.places.keys + 1 }
        ensures none { OnErr result (length self.new.places.keys ≤ length self.old.places.keys) }
        ensures full { OnErr result (self.new.room ≤ length self.new.places.keys) }
        ensures steady { grows ≡ false → self.new.room ≡ self.old.room }
    {
        if let Some(index) = self.find(place) {
            return Ok(index);
        }
        self.widen(grows)?;
        let (index, _) = self.places.insert_full(place)?;
        self.awake[index] = Span::ALL;
        self.waking[index] = Span::NONE;
        link(&self.places, &mut self.beside, index);
        Ok(index)
    }

    /// Makes sure that there is memory for one tile more.
    fn widen(&mut self, grows: bool) -> Result<(), NoMemory>
        requires { IsTiled self.old }
        ensures makes { OnlyMakes self.old self.new }
        ensures same { self.new.places.keys ≡ self.old.places.keys }
        ensures free { OnOk result (length self.new.places.keys < self.new.room) }
        ensures full { OnErr result (self.new.room ≤ length self.new.places.keys) }
        ensures steady { grows ≡ false → self.new.room ≡ self.old.room }
    {
        if self.places.len() < self.room {
            return Ok(());
        }
        if !grows {
            return Err(NoMemory);
        }
        self.grow(2 * self.room + FEWEST)
    }

    /// Takes memory for as many tiles again, if more than half of it is in use and there is more. No cell changes.
    pub fn loosen(&mut self)
        requires { IsTiled self.old }
        ensures makes { OnlyMakes self.old self.new }
        ensures same { self.new.places.keys ≡ self.old.places.keys }
    {
        if self.room < 2 * self.places.len() {
            let _ = self.grow(2 * self.room);
        }
    }

    /// Takes memory for so many tiles, if there is less. No cell changes.
    pub fn grow(&mut self, room: usize) -> Result<(), NoMemory>
        requires { IsTiled self.old }
        ensures makes { OnlyMakes self.old self.new }
        ensures same { self.new.places.keys ≡ self.old.places.keys }
        ensures room { OnOk result (room ≤ self.new.room) }
        ensures kept { OnErr result (self.new.room ≡ self.old.room) }
        ensures succeeds { room ≤ self.old.room → IsOk result }
    {
        if room <= self.room {
            return Ok(());
        }
        if MOST < room {
            return Err(NoMemory);
        }
        lengthen(&mut self.rows, &mut self.next, SIDE * room + SIDE)?;
        fill_marks(&mut self.beside, &mut self.awake, &mut self.waking, room)?;
        reserve(&mut self.places, &mut self.kept, room)?;
        self.room = room;
        Ok(())
    }
}

/// Appends zeros to two lists of words, where they are shorter.
fn lengthen(rows: &mut Vec<u64>, next: &mut Vec<u64>, len: usize) -> Result<(), NoMemory>
    ensures rows { OnlyAppends rows.old.items rows.new.items }
    ensures next { OnlyAppends next.old.items next.new.items }
    ensures rows_long { OnOk result (len ≤ length rows.new.items) }
    ensures next_long { OnOk result (len ≤ length next.new.items) }
{
    append_zeros(rows, len)?;
    append_zeros(next, len)
}

/// Appends zeros, where there are fewer words.
fn append_zeros(words: &mut Vec<u64>, len: usize) -> Result<(), NoMemory>
    ensures appends { OnlyAppends words.old.items words.new.items }
    ensures long { OnOk result (len ≤ length words.new.items) }
{
    if words.len() < len {
        words.resize(len, 0)?;
    }
    Ok(())
}

/// Makes links and rows for so many tiles, where there are fewer.
fn fill_marks(
    beside: &mut Vec<usize>,
    awake: &mut Vec<Span>,
    waking: &mut Vec<Span>,
    room: usize,
) -> Result<(), NoMemory>
    requires { room < 2 ^ 57 }
    ensures beside { KeepsItems beside.old.items beside.new.items 0 }
    ensures awake { KeepsItems awake.old.items awake.new.items no_rows }
    ensures waking { KeepsItems waking.old.items waking.new.items no_rows }
    ensures beside_long { OnOk result (9 * room ≤ length beside.new.items) }
    ensures awake_long { OnOk result (room ≤ length awake.new.items) }
    ensures waking_long { OnOk result (room ≤ length waking.new.items) }
{
    fill_up(beside, DIRECTIONS * room, NOWHERE)?;
    fill_up(awake, room, Span::NONE)?;
    fill_up(waking, room, Span::NONE)
}

/// Appends items, where there are fewer.
fn fill_up<T: Copy>(items: &mut Vec<T>, len: usize, item: T) -> Result<(), NoMemory>
    ensures kept { (j : ℕ) (d : T) → j < length items.old.items → slice_index_or items.new.items j d ≡ slice_index_or items.old.items j d }
    ensures grown { length items.old.items ≤ length items.new.items }
    ensures long { OnOk result (len ≤ length items.new.items) }
{
    if items.len() < len {
        items.resize(len, item)?;
    }
    Ok(())
}

/// Makes room for so many places.
fn reserve(
    places: &mut IndexSet<Place>,
    kept: &mut IndexSet<Place>,
    room: usize,
) -> Result<(), NoMemory>
    ensures places { KeepsPlaces places.old places.new }
    ensures kept { KeepsPlaces kept.old kept.new }
    ensures places_room { OnOk result (room ≤ length places.new.keys + spare places.new) }
    ensures kept_room { OnOk result (room ≤ length kept.new.keys + spare kept.new) }
{
    places.reserve(room.saturating_sub(places.len()))?;
    kept.reserve(room)?;
    Ok(())
}

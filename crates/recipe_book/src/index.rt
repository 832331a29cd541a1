//! The salvos of a book by the shape of what they build.

ghost use Rattle.std.specs.Prelude.{◌≢◌, ◌^◌, IfOk, OnOk};
ghost use Rattle.life_cells.specs.Boxes.{IsInRange};
ghost use Rattle.life_cells.specs.Cells.{alive, empty};
ghost use Rattle.recipe_book.specs.ByShape.{IsIndex, AddsNumber};

use indexmap::IndexMap;
use life_cells::{CellSet, NoMemory};
use life_islands::{Shape, shape_of};
use recipe_hit::CheckedSalvo;
use std::alloc::Global;

/// Adds a salvo's number under the shape of what it builds.
fn add_number(
    alloc: Global,
    index: &mut IndexMap<Shape, Vec<usize>>,
    product: &CellSet,
    number: usize,
) -> Result<(), NoMemory>
    requires some { product.now ≢ empty }
    requires range { IsInRange (2 ^ 60) (alive product.now) }
    ensures { OnOk result (AddsNumber (alive product.now) number index.old.entries index.new.entries) }
{
    let (shape, _) = shape_of(product)?;
    let mut numbers = match index.swap_remove(&shape) {
        Some(numbers) => numbers,
        None => Vec::new(alloc),
    };
    numbers.push(number)?;
    index.insert(shape, numbers)?;
    Ok(())
}

/// Under each shape the numbers of the salvos that build it, ascending. Salvos count from 1.
pub(crate) fn index_by_shape(
    alloc: Global,
    salvos: &[CheckedSalvo],
) -> Result<IndexMap<Shape, Vec<usize>>, NoMemory>
    ensures { IfOk result (λ index. IsIndex salvos.now index.entries) }
{
    let mut index = IndexMap::new(alloc);
    let mut number = 0;
    for salvo in salvos {
        number += 1;
        let product = &salvo.raw().product;
        if !product.is_empty() {
            add_number(alloc, &mut index, product, number)?;
        }
    }
    Ok(index)
}

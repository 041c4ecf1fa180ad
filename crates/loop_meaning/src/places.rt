// The touched cells at places.
ghost use Rattle.std.specs.Prelude.{◌≡◌, ◌↔◌, ◌++◌, [], OnOk, IfOk, Contains};
ghost use Rattle.std.specs.List.{filter_map, cons_option};
ghost use Rattle.wave_base.specs.declared.types.Cell.{Cell};
ghost use Rattle.loop_core.specs.Touches.{place_of, IsTouchable};
ghost use Rattle.loop_meaning.specs.Accesses.{IsAscending, cell_of};

use loop_core::arrays::Arrays;
use loop_core::decl::length_of;
use loop_core::nest::Nest;
use loop_core::place::Place;
use std::alloc::Global;
use wave_base::types::{Cell, Memory};

/// The cells of written arrays at these places, ascending and without repeats.
pub fn touched(
    alloc: Global,
    nest: &Nest,
    arrays: &Arrays,
    places: &[Place],
) -> Result<Vec<Cell>, Memory>
    ensures ascends { IfOk result (λ cells. IsAscending cells.items) }
    ensures cells { IfOk result (λ cells. (c : Cell) → Contains cells.items c ↔ (IsTouchable arrays.now nest.now c × Contains places.now (place_of c))) }
{
    let mut cells = cells_at(alloc, nest, arrays, places)?;
    settle(&mut cells);
    Ok(cells)
}

// Brings cells in order, and leaves one of each.
fn settle(cells: &mut Vec<Cell>)
    ensures ascends { IsAscending cells.new.items }
    ensures keeps { (c : Cell) → Contains cells.old.items c → Contains cells.new.items c }
    ensures adds_none { (c : Cell) → Contains cells.new.items c → Contains cells.old.items c }
{
    cells.sort_unstable();
    cells.dedup();
}

fn cells_at(
    alloc: Global,
    nest: &Nest,
    arrays: &Arrays,
    places: &[Place],
) -> Result<Vec<Cell>, Memory>
    ensures { IfOk result (λ cells. cells.items ≡ filter_map (cell_of arrays.now nest.now) places.now) }
{
    let mut cells = Vec::new(alloc);
    for place in places {
        let cell = find_cell(nest, arrays, *place);
        push_found(&mut cells, cell)?;
    }
    Ok(cells)
}

fn push_found(cells: &mut Vec<Cell>, found: Option<Cell>) -> Result<(), Memory>
    ensures { OnOk result (cells.new.items ≡ cells.old.items ++ cons_option found []) }
{
    match found {
        Some(cell) => {
            cells.push(cell)?;
            Ok(())
        }
        None => Ok(()),
    }
}

fn find_cell(nest: &Nest, arrays: &Arrays, place: Place) -> Option<Cell>
    ensures { result ≡ cell_of arrays.now nest.now place }
{
    let length = length_of(nest.decls.as_slice(), arrays.n(), arrays.nnz(), place.array);
    if nest.writes(place.array) && 0 <= place.at && place.at < length as i128 {
        Some(Cell {
            array: place.array,
            at: place.at as u32,
        })
    } else {
        None
    }
}

// The places of the values of an array, for `Find`.
ghost use Rattle.std.specs.Prelude.{◌≡◌, ◌∷◌, ◌≤◌, ◌<◌, ◌+◌, ◌^◌, [], ℤ, List, length, IfOk, IfSome};
ghost use Rattle.std.specs.List.{All};
ghost use Rattle.loop_core.specs.Lists.{Lists, list_of};
ghost use Rattle.inspector_run.specs.Tries.{places_of};
ghost use Rattle.inspector_run.specs.Left.{places_in};
ghost use Rattle.inspector_run.specs.Inverses.{IsBelow, IsListing, IsInverse, IsSearchable, Serve};

use crate::counted::{count_within, counted, listed_at};
use crate::sorted::{Held, equal_to, in_order};
use loop_core::arrays::Arrays;
use row_graph::lists::Lists as Counts;
use std::alloc::Global;
use std::sync::ledger::Ledger;
use wave_base::steps::Steps;
use wave_base::types::{ArrayId, Memory, RowId};

/// Where each value of an array stands.
#[derive(Drop)]
pub enum Listing {
    /// For each value from 0 on its places.
    Counted(Counts),
    /// The entries, ascending, each with its place.
    Sorted(Vec<Held>),
}

/// The inverse list of an array.
#[derive(Drop)]
pub struct Inverse {
    pub array: ArrayId,
    pub listing: Listing,
}

/// Places of an array, ascending.
#[derive(Clone, Copy)]
pub enum Places<'a> {
    Counted(&'a [RowId]),
    Sorted(&'a [Held]),
}

impl Inverse {
    /// The inverse list of an array. Each entry is read once.
    pub fn of<L: Ledger>(
        alloc: Global,
        array: ArrayId,
        arrays: &Arrays,
        steps: &mut Steps<L>,
    ) -> Result<Inverse, Memory>
        ensures array { IfOk result (λ inverse. inverse.array ≡ array) }
        ensures right { IfOk result (λ inverse. IsInverse (list_of arrays.now.lists array) inverse.listing) }
        ensures ticks { steps.new ≤ steps.old + length (list_of arrays.now.lists array) }
    {
        let values = read_all(alloc, array, arrays, steps)?;
        let listing = listing_of(alloc, values, arrays.n(), arrays.nnz())?;
        Ok(Inverse { array, listing })
    }
}

// The entries of an array.
fn read_all<L: Ledger>(
    alloc: Global,
    array: ArrayId,
    arrays: &Arrays,
    steps: &mut Steps<L>,
) -> Result<Vec<i64>, Memory>
    ensures entries { IfOk result (λ values. values.items ≡ list_of arrays.now.lists array) }
    ensures few { length (list_of arrays.now.lists array) < 2 ^ 64 }
    ensures ticks { steps.new ≤ steps.old + length (list_of arrays.now.lists array) }
{
    let many = arrays.len(array);
    let mut values = Vec::with_capacity(alloc, many as usize)?;
    for place in 0..many {
        let value = arrays.at(array, place as i128, steps);
        values.push(value)?;
    }
    Ok(values)
}

// By counting where the values lie in 0 to n or nnz, and by sorting otherwise.
fn listing_of(alloc: Global, values: Vec<i64>, n: u32, nnz: u32) -> Result<Listing, Memory>
    ensures { IfOk result (IsListing values.items) }
{
    let many = many_values(values.as_slice(), n, nnz);
    match many {
        Some(many) => {
            let counts = counted(alloc, many, values)?;
            Ok(Listing::Counted(counts))
        }
        None => {
            let entries = in_order(alloc, values)?;
            Ok(Listing::Sorted(entries))
        }
    }
}

// A number below which all values lie, where they and their places can be counted.
fn many_values(values: &[i64], n: u32, nnz: u32) -> Option<u32>
    ensures few { IfSome result (λ many. length values.now < 2 ^ 32) }
    ensures below { IfSome result (λ many. All (IsBelow many) values.now) }
{
    if values.len() > u32::MAX as usize {
        return None;
    }
    match count_within(values, n) {
        Some(many) => Some(many),
        None => count_within(values, nnz),
    }
}

/// The places of an array whose entry is a value, from its inverse list.
pub fn equal_in(inverses: &[Inverse], array: ArrayId, value: i128) -> Places<'_>
    requires { All (λ inverse. IsSearchable inverse.listing) inverses.now }
    ensures { (a : Lists) → Serve a inverses.now (array ∷ []) → places_in result ≡ places_of (list_of a.lists array) value }
{
    for inverse in inverses {
        if inverse.array == array {
            return places_at(&inverse.listing, value);
        }
    }
    Places::Sorted(&[])
}

fn places_at(listing: &Listing, value: i128) -> Places<'_>
    requires { IsSearchable listing.now }
    ensures { (list : List ℤ) → IsListing list listing.now → places_in result ≡ places_of list value }
{
    match listing {
        Listing::Counted(counts) => Places::Counted(listed_at(counts, value)),
        Listing::Sorted(entries) => Places::Sorted(equal_to(entries.as_slice(), value)),
    }
}

// The check of all declared properties, in order.
ghost use Rattle.std.specs.Prelude.{◌≡◌, ◌<◌, ◌^◌, IsTrue, IfOk, IfErr, OnErr, length};
ghost use Rattle.index_props.specs.Meanings.{Passes};
ghost use Rattle.prop_check.specs.Broken.{is_injective, IsRefusal};
ghost use Rattle.prop_check.specs.Finds.{Shows};

use crate::before::before;
use crate::diagonal::diagonal;
use crate::injective::injective;
use crate::neighbours::{rising, strict};
use crate::places::Places;
use crate::range::out_of_range;
use crate::segmented::{below, sorted, upto};
use loop_core::arrays::Arrays;
use loop_core::decl::{PropDecl, PropKind};
use std::alloc::Global;
use std::marker::Brand;
use std::sync::ledger::{Blank, Ledger};
use wave_base::steps::Steps;
use wave_base::types::Memory;

/// The arrays have all declared properties.
#[derive(Clone, Copy, Drop)]
pub struct Passed;

/// Why a check refuses.
#[derive(Clone, Copy, Drop)]
pub enum CheckRefusal {
    /// The first declared property that fails, counted from 1, and the two places that show it.
    Broken {
        property: u32,
        first: u64,
        second: u64,
    },
    /// Memory ran out. It comes only where an `injective` is declared.
    Memory,
}

/// Whether the arrays have all declared properties, or the first that fails, with its places. Each
/// property takes one pass over the entries that it speaks of; `injective` sorts them. Where a
/// `by` array falls, its segments overlap, and help in memory is used if it can be had.
pub fn check(alloc: Global, props: &[PropDecl], arrays: &Arrays) -> Result<Passed, CheckRefusal>
    requires few { length props.now < 2 ^ 32 }
    ensures passes { IfOk result (λ _. Passes props.now arrays.now) }
    ensures refuses { IfErr result (IsRefusal props.now arrays.now) }
{
    counted::<Brand>(alloc, props, arrays, Blank::new(1))
}

fn counted<L: Ledger>(
    alloc: Global,
    props: &[PropDecl],
    arrays: &Arrays,
    blank: Blank,
) -> Result<Passed, CheckRefusal>
    requires name { blank.name ≡ L.name }
    requires parts { blank.parts ≡ L.parts }
    requires one { blank.parts ≡ 1 }
    requires few { length props.now < 2 ^ 32 }
    ensures passes { IfOk result (λ _. Passes props.now arrays.now) }
    ensures refuses { IfErr result (IsRefusal props.now arrays.now) }
{
    let mut steps = Steps::<L>::open(blank);
    all(alloc, props, arrays, &mut steps)
}

fn all<L: Ledger>(
    alloc: Global,
    props: &[PropDecl],
    arrays: &Arrays,
    steps: &mut Steps<L>,
) -> Result<Passed, CheckRefusal>
    requires few { length props.now < 2 ^ 32 }
    ensures passes { IfOk result (λ _. Passes props.now arrays.now) }
    ensures refuses { IfErr result (IsRefusal props.now arrays.now) }
{
    let mut property = 0;
    for prop in props {
        property += 1;
        match failure(alloc, &prop.kind, arrays, steps) {
            Ok(None) => {}
            Ok(Some(x)) => {
                let (first, second) = (x.first, x.second);
                return Err(CheckRefusal::Broken {
                    property,
                    first,
                    second,
                });
            }
            Err(_) => return Err(CheckRefusal::Memory),
        }
    }
    Ok(Passed)
}

// The places of a property's failure.
fn failure<L: Ledger>(
    alloc: Global,
    kind: &PropKind,
    arrays: &Arrays,
    steps: &mut Steps<L>,
) -> Result<Option<Places>, Memory>
    ensures shows { IfOk result (Shows arrays.now kind.now) }
    ensures memory { OnErr result (IsTrue (is_injective kind.now)) }
{
    match kind {
        PropKind::Range(f, lo, hi) => Ok(out_of_range(arrays, *f, lo, hi, steps)),
        PropKind::Rising(p) => Ok(rising(arrays, *p, steps)),
        PropKind::Strict(p) => Ok(strict(arrays, *p, steps)),
        PropKind::Injective(f) => injective(alloc, arrays, *f, steps),
        PropKind::Sorted(f, p) => Ok(sorted(alloc, arrays, *f, *p, steps)),
        PropKind::Below(f, p) => Ok(below(alloc, arrays, *f, *p, steps)),
        PropKind::Upto(f, p) => Ok(upto(alloc, arrays, *f, *p, steps)),
        PropKind::Diagonal(d, f, p) => Ok(diagonal(arrays, *d, *f, *p, steps)),
        PropKind::Before(f, g) => Ok(before(arrays, *f, *g, steps)),
    }
}

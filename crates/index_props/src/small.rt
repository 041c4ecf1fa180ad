// A test of what callers owe: how large the constants in the bounds of properties are.
ghost use Rattle.std.specs.Prelude.{◌^◌, ◌≤◌, ◌↔◌, IsTrue, unsigned_abs};
ghost use Rattle.index_props.specs.Within.{BoundsWithin, AllBoundsWithin};

use loop_core::decl::{PropDecl, PropKind};
use loop_core::nest::Term;

/// Whether the properties may be handed to `instances`. It takes no memory.
pub fn are_bounds_small(props: &[PropDecl]) -> bool
    ensures { IsTrue result ↔ AllBoundsWithin props.now }
{
    for prop in props {
        if !has_small_bounds(&prop.kind) {
            return false;
        }
    }
    true
}

fn has_small_bounds(kind: &PropKind) -> bool
    ensures { IsTrue result ↔ BoundsWithin kind.now }
{
    match kind {
        PropKind::Range(_, lo, hi) => is_small(lo) && is_small(hi),
        PropKind::Rising(_) => true,
        PropKind::Strict(_) => true,
        PropKind::Injective(_) => true,
        PropKind::Sorted(_, _) => true,
        PropKind::Below(_, _) => true,
        PropKind::Upto(_, _) => true,
        PropKind::Diagonal(_, _, _) => true,
        PropKind::Before(_, _) => true,
    }
}

fn is_small(term: &Term) -> bool
    ensures { IsTrue result ↔ (unsigned_abs term.now.plus ≤ 2 ^ 21) }
{
    term.plus.unsigned_abs() <= 2_097_152
}

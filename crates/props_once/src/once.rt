// Properties without those that are declared again.
ghost use Rattle.std.specs.Prelude.{◌≡◌, IfOk, OnOk};
ghost use Rattle.props_once.specs.Repeats.{same_kind as are_same, is_declared as is_among, kept as kept_with, without_repeats as each_once};

use loop_core::copies::copy_props;
use loop_core::decl::{PropDecl, PropKind};
use sqlite_items::Items;
use std::alloc::Global;
use std::slice::from_ref;
use uf_constraints::same::same_term;
use wave_base::types::Memory;

/// The properties in their order, those left out that an earlier line declares: the same property of
/// the same arrays, with the same bounds. It compares each with those that are kept.
pub fn without_repeats(alloc: Global, props: &[PropDecl]) -> Result<Items<PropDecl>, Memory>
    ensures { IfOk result (λ once. once ≡ each_once props.now) }
{
    let mut kept = Items::new(alloc);
    for prop in props {
        keep(alloc, prop, &mut kept)?;
    }
    Ok(kept)
}

fn keep(alloc: Global, prop: &PropDecl, kept: &mut Items<PropDecl>) -> Result<(), Memory>
    ensures { OnOk result (kept.new ≡ kept_with kept.old prop.now) }
{
    if is_declared(kept.as_slice(), &prop.kind) {
        return Ok(());
    }
    kept.append(copy_props(alloc, from_ref(prop))?)?;
    Ok(())
}

fn is_declared(props: &[PropDecl], kind: &PropKind) -> bool
    ensures { result ≡ is_among props.now kind.now }
{
    props.iter().any(|prop| same_kind(kind, &prop.kind))
}

fn same_kind(kind: &PropKind, other: &PropKind) -> bool
    ensures { result ≡ are_same kind.now other.now }
{
    match (kind, other) {
        (PropKind::Range(f, lo, hi), PropKind::Range(g, low, high)) => {
            *f == *g && same_term(lo, low) && same_term(hi, high)
        }
        (PropKind::Rising(p), PropKind::Rising(q)) => *p == *q,
        (PropKind::Strict(p), PropKind::Strict(q)) => *p == *q,
        (PropKind::Injective(f), PropKind::Injective(g)) => *f == *g,
        (PropKind::Sorted(f, p), PropKind::Sorted(g, q)) => *f == *g && *p == *q,
        (PropKind::Below(f, p), PropKind::Below(g, q)) => *f == *g && *p == *q,
        (PropKind::Upto(f, p), PropKind::Upto(g, q)) => *f == *g && *p == *q,
        (PropKind::Diagonal(d, f, p), PropKind::Diagonal(e, g, q)) => {
            *d == *e && *f == *g && *p == *q
        }
        (PropKind::Before(f, g), PropKind::Before(h, k)) => *f == *h && *g == *k,
        _ => false,
    }
}

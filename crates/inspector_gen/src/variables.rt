// The variables of a relation in its two orders.
ghost use Rattle.std.specs.Prelude.{◌≡◌, ◌++◌, OnOk, IfOk};
ghost use Rattle.std.specs.List.{flat_map};
ghost use Rattle.inspector_gen.specs.Variables.{around_in as round, is_at as stands_at, unknown_of, unknowns_in};

use crate::unknown::{Span, Unknown};
use dep_extract::bases::on;
use loop_core::nest::{Nest, Side, VarId};
use sqlite_items::Items;
use std::alloc::Global;
use uf_constraints::reach::{Around, Site};
use uf_constraints::system::{Reference, Relation};
use wave_base::types::Memory;

fn is_at(r: Reference, s: &Site) -> bool
    ensures { result ≡ stands_at r s.now }
{
    s.reference.line == r.line && s.reference.bracket == r.bracket
}

fn push_unknown(
    alloc: Global,
    side: Side,
    around: &Around,
    into: &mut Items<Unknown>,
) -> Result<(), Memory>
    ensures { OnOk result (into.new ≡ into.old ++ unknown_of side around.now) }
{
    match around {
        Around::Loop { line, lo, hi } => {
            let lo = on(alloc, side, lo)?;
            let hi = on(alloc, side, hi)?;
            let var = VarId { line: *line, side };
            into.push(Unknown {
                var,
                span: Span::Between { lo, hi },
            })?;
            Ok(())
        }
        Around::Guard { .. } => Ok(()),
    }
}

fn push_inner(
    alloc: Global,
    side: Side,
    around: &[Around],
    into: &mut Items<Unknown>,
) -> Result<(), Memory>
    ensures { OnOk result (into.new ≡ into.old ++ flat_map (unknown_of side) around.now) }
{
    for a in around {
        push_unknown(alloc, side, a, into)?;
    }
    Ok(())
}

// What stands round a reference: that of its site.
fn around_in<'a>(sites: &'a [Site], r: Reference) -> &'a [Around]
    ensures { result.now ≡ round sites.now r }
{
    for s in sites {
        if is_at(r, s) {
            return s.around.as_slice();
        }
    }
    &[]
}

fn push_side(
    alloc: Global,
    nest: &Nest,
    sites: &[Site],
    side: Side,
    r: Reference,
    into: &mut Items<Unknown>,
) -> Result<(), Memory>
    ensures { OnOk result (into.new ≡ into.old ++ unknowns_in nest.now sites.now side r) }
{
    let var = VarId {
        line: nest.line,
        side,
    };
    into.push(Unknown {
        var,
        span: Span::Rows,
    })?;
    push_inner(alloc, side, around_in(sites, r), into)
}

/// The variables of the first side and then those of the second, each side from the outside in.
pub fn first_side_first(
    alloc: Global,
    nest: &Nest,
    sites: &[Site],
    r: &Relation,
) -> Result<Items<Unknown>, Memory>
    ensures { IfOk result (λ us. us ≡ unknowns_in nest.now sites.now Side.First r.now.first ++ unknowns_in nest.now sites.now Side.Second r.now.second) }
{
    let mut unknowns = Items::new(alloc);
    push_side(alloc, nest, sites, Side::First, r.first, &mut unknowns)?;
    push_side(alloc, nest, sites, Side::Second, r.second, &mut unknowns)?;
    Ok(unknowns)
}

/// The variables of the second side and then those of the first, each side from the outside in.
pub fn second_side_first(
    alloc: Global,
    nest: &Nest,
    sites: &[Site],
    r: &Relation,
) -> Result<Items<Unknown>, Memory>
    ensures { IfOk result (λ us. us ≡ unknowns_in nest.now sites.now Side.Second r.now.second ++ unknowns_in nest.now sites.now Side.First r.now.first) }
{
    let mut unknowns = Items::new(alloc);
    push_side(alloc, nest, sites, Side::Second, r.second, &mut unknowns)?;
    push_side(alloc, nest, sites, Side::First, r.first, &mut unknowns)?;
    Ok(unknowns)
}

// Systems with their atoms and instances.
use crate::system::System;
use index_props::instances::instances;
use index_props::rule::RuleInst;
use index_props::small::are_bounds_small;
use sqlite_items::Items;
use std::alloc::Global;
use uf_constraints::small::{are_diffs_small, are_terms_small};
use uf_constraints::system::{Diff, Universe};
use uf_constraints::universe::universe;

/// A base with the atoms and the instances of its system.
#[derive(Drop)]
pub struct Listing {
    pub base: Items<Diff>,
    pub universe: Universe,
    pub rules: Items<RuleInst>,
}

/// The listing of a system; none where a constant is too large, where it has more than 96 atoms, and
/// where it is out of memory.
pub fn list(alloc: Global, system: System) -> Option<Listing> {
    let (base, terms, props) = (system.base, system.terms, system.props);
    if !are_diffs_small(base.as_slice()) {
        return None;
    }
    if !are_terms_small(terms.as_slice()) {
        return None;
    }
    if !are_bounds_small(props.as_slice()) {
        return None;
    }
    let universe = universe(alloc, base.as_slice(), terms.as_slice(), props.as_slice()).ok()?;
    let rules = instances(alloc, &universe, system.decls.as_slice(), props.as_slice()).ok()?;
    Some(Listing {
        base,
        universe,
        rules,
    })
}

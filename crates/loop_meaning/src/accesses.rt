// The places that the instances of an iteration access.
ghost use Rattle.std.specs.Prelude.{◌≡◌, ◌≤◌, ◌++◌, pos, OnOk, IfOk};
ghost use Rattle.std.specs.List.{flat_map};
ghost use Rattle.loop_core.specs.Depth.{body_depth};
ghost use Rattle.loop_core.specs.Terms.{AreBounded};
ghost use Rattle.loop_core.specs.Variables.{bindings};
ghost use Rattle.loop_core.specs.Instances.{formula, instances};
ghost use Rattle.loop_core.specs.Touches.{reads};
ghost use Rattle.loop_meaning.specs.Accesses.{places_set};

use crate::walk::{Visitor, walk_row};
use loop_core::arrays::Arrays;
use loop_core::effect::Effect;
use loop_core::env::Env;
use loop_core::nest::{Expr, Nest};
use loop_core::place::Place;
use loop_core::terms::value as value_of_term;
use std::alloc::Global;
use wave_base::types::{Memory, RowId};

/// The places that instances read and set, in order.
#[derive(Drop)]
pub struct Accesses {
    pub reads: Vec<Place>,
    pub writes: Vec<Place>,
}

impl Visitor for Accesses {
    type Fault = Memory;

    ghost use Rattle.std.specs.Prelude.{◌≡◌, ◌++◌};
    ghost use Rattle.loop_core.specs.Touches.{reads};
    ghost use Rattle.loop_meaning.specs.Accesses.{places_set};

    ghost moves = { λ x s y. (y.reads.items ≡ x.reads.items ++ reads s.value) × (y.writes.items ≡ x.writes.items ++ places_set s.effect) };

    fn visit(
        &mut self,
        _line: u16,
        effect: Effect,
        value: &Expr,
        env: &Env<'_>,
        arrays: &Arrays,
    ) -> Result<(), Memory> {
        list_reads(&mut self.reads, value, env, arrays)?;
        list_target(&mut self.writes, effect)
    }
}

// A place that is set is listed. A local is no place.
fn list_target(places: &mut Vec<Place>, effect: Effect) -> Result<(), Memory>
    ensures { OnOk result (places.new.items ≡ places.old.items ++ places_set effect) }
{
    match effect {
        Effect::Sets(place) => {
            places.push(place)?;
            Ok(())
        }
        Effect::Keeps(_) => Ok(()),
    }
}

fn list_reads(
    places: &mut Vec<Place>,
    expr: &Expr,
    env: &Env<'_>,
    arrays: &Arrays,
) -> Result<(), Memory>
    requires { AreBounded (bindings env.now) }
    ensures { OnOk result (places.new.items ≡ places.old.items ++ reads (formula arrays.now (bindings env.now) expr.now)) }
{
    match expr {
        Expr::Lit(_) => Ok(()),
        Expr::Local(_) => Ok(()),
        Expr::Read(array, at) => {
            let at = value_of_term(at, env, arrays);
            places.push(Place { array: *array, at })?;
            Ok(())
        }
        Expr::Op(_, left, right) => {
            list_reads(places, left.get(), env, arrays)?;
            list_reads(places, right.get(), env, arrays)
        }
    }
}

/// The places that the instances of an iteration read and set.
pub fn list_accesses(
    alloc: Global,
    nest: &Nest,
    arrays: &Arrays,
    row: RowId,
) -> Result<Accesses, Memory>
    requires { body_depth nest.now.body ≤ 5 }
    ensures reads { IfOk result (λ a. a.reads.items ≡ flat_map (λ s. reads s.value) (instances arrays.now nest.now (pos row.0))) }
    ensures writes { IfOk result (λ a. a.writes.items ≡ flat_map (λ s. places_set s.effect) (instances arrays.now nest.now (pos row.0))) }
{
    let mut made = Accesses {
        reads: Vec::new(alloc),
        writes: Vec::new(alloc),
    };
    walk_row(nest, arrays, row, &mut made)?;
    Ok(made)
}

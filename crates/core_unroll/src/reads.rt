// The reads and the write of an instance.
ghost use Rattle.std.specs.Prelude.{◌≡◌, ◌++◌, ◌∷◌, [], OnOk, IfOk, map, not};
ghost use Rattle.std.specs.List.{filter};
ghost use Rattle.loop_core.specs.declared.place.Place.{Place};
ghost use Rattle.loop_core.specs.Terms.{AreBounded};
ghost use Rattle.loop_core.specs.Variables.{bindings};
ghost use Rattle.loop_core.specs.Instances.{formula};
ghost use Rattle.loop_core.specs.Sequence.{word_of};
ghost use Rattle.core_nest.specs.Nested.{cell_of};
ghost use Rattle.core_value.specs.Taken.{flagged};
ghost use Rattle.core_unroll.specs.Plans.{shared_by, others_by, read_of, write_of};

use core_run::action::Action;
use core_value::evaluate::is_written;
use loop_core::arrays::Arrays;
use loop_core::effect::Effect;
use loop_core::env::Env;
use loop_core::nest::Expr;
use loop_core::place::Place;
use loop_core::terms::value as value_of_term;
use loop_core::values::Values;
use wave_base::types::{Cell, Memory};

/// Lists the reads of an expression from left to right: those of written arrays as actions, of any other the word.
///
/// A place past 2^32 is answered as out of memory, as no list is so long.
pub fn list_reads(
    actions: &mut Vec<Action>,
    others: &mut Vec<i64>,
    written: &[bool],
    values: &Values,
    expr: &Expr,
    env: &Env<'_>,
    arrays: &Arrays,
) -> Result<(), Memory>
    requires { AreBounded (bindings env.now) }
    ensures actions { OnOk result (actions.new.items ≡ actions.old.items ++ map read_of (shared_by (flagged written.now) (formula arrays.now (bindings env.now) expr.now))) }
    ensures others { OnOk result (others.new.items ≡ others.old.items ++ others_by (flagged written.now) values.now (formula arrays.now (bindings env.now) expr.now)) }
{
    match expr {
        Expr::Lit(_) => Ok(()),
        Expr::Local(_) => Ok(()),
        Expr::Read(array, at) => {
            let at = value_of_term(at, env, arrays);
            let place = Place { array: *array, at };
            list_read(actions, others, written, values, place)
        }
        Expr::Op(_, left, right) => {
            list_reads(actions, others, written, values, left.get(), env, arrays)?;
            list_reads(actions, others, written, values, right.get(), env, arrays)
        }
    }
}

fn list_read(
    actions: &mut Vec<Action>,
    others: &mut Vec<i64>,
    written: &[bool],
    values: &Values,
    place: Place,
) -> Result<(), Memory>
    ensures actions { OnOk result (actions.new.items ≡ actions.old.items ++ map read_of (filter (λ (p : Place). flagged written.now p.array) (place ∷ []))) }
    ensures others { OnOk result (others.new.items ≡ others.old.items ++ map (word_of values.now) (filter (λ (p : Place). not (flagged written.now p.array)) (place ∷ []))) }
{
    if is_written(written, place.array) {
        let cell = cell_at(place)?;
        actions.push(Action::Read {
            begins: false,
            cell,
        })?;
        Ok(())
    } else {
        others.push(values.read(place.array, place.at))?;
        Ok(())
    }
}

/// Lists the write of an instance. One that keeps a local has none.
pub fn list_write(actions: &mut Vec<Action>, effect: Effect, at: usize) -> Result<(), Memory>
    ensures { OnOk result (actions.new.items ≡ actions.old.items ++ write_of at effect) }
{
    match effect {
        Effect::Sets(place) => {
            let cell = cell_at(place)?;
            actions.push(Action::Write {
                begins: false,
                cell,
                at,
            })?;
            Ok(())
        }
        Effect::Keeps(_) => Ok(()),
    }
}

fn cell_at(place: Place) -> Result<Cell, Memory>
    ensures { IfOk result (λ cell. cell ≡ cell_of place) }
{
    if 0 <= place.at && place.at < 4294967296 {
        Ok(Cell {
            array: place.array,
            at: place.at as u32,
        })
    } else {
        Err(Memory)
    }
}

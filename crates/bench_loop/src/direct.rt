// The loop run in order by a runner of its own, to be measured against the walk.
ghost use Rattle.std.specs.Prelude.{◌≡◌, ◌+◌, ◌≤◌, length, pos};
ghost use Rattle.loop_core.specs.Variables.{bindings};
ghost use Rattle.loop_core.specs.Terms.{AreBounded, IsWithin};
ghost use Rattle.loop_core.specs.Depth.{depth, body_depth};
ghost use Rattle.loop_core.specs.Instances.{instances, item_instances, body_instances, turns, trips, bound};
ghost use Rattle.loop_core.specs.Sequence.{after_all, fresh, sequential};

use loop_core::arrays::Arrays;
use loop_core::effect::Effect;
use loop_core::env::{Env, bind};
use loop_core::nest::{Item, Nest, Side, VarId};
use loop_core::place::Place;
use loop_core::terms::value as eval;
use loop_core::values::Values;
use loop_meaning::exprs::{is_met, value};
use loop_meaning::running::Running;

/// Runs the loop in program order, without the walk. It takes no memory.
pub fn run_directly(nest: &Nest, arrays: &Arrays, values: &mut Values)
    requires { body_depth nest.now.body ≤ 5 }
    ensures { values.new ≡ sequential nest.now arrays.now values.old }
{
    let mut running = Running::begin(values.take());
    for row in 0..arrays.n() {
        run_row(nest, arrays, row, &mut running);
    }
    *values = running.end();
}

fn run_row(nest: &Nest, arrays: &Arrays, row: u32, running: &mut Running)
    requires { body_depth nest.now.body ≤ 5 }
    ensures { running.new ≡ after_all (instances arrays.now nest.now (pos row)) (fresh running.old.lists) }
{
    let outside = Env::Empty;
    let env = bind(nest.line, row as i128, &outside);
    running.renew();
    run_body(nest.body.as_slice(), &env, arrays, running);
}

#[cycle(runs)]
fn run_body(items: &[Item], env: &Env<'_>, arrays: &Arrays, running: &mut Running)
    requires bounded { AreBounded (bindings env.now) }
    requires shallow { length (bindings env.now) + body_depth items.now ≤ 64 }
    ensures { running.new ≡ after_all (body_instances arrays.now items.now (bindings env.now)) running.old }
{
    for item in items {
        run_item(item, env, arrays, running);
    }
}

#[cycle(runs)]
fn run_item(item: &Item, env: &Env<'_>, arrays: &Arrays, running: &mut Running)
    requires bounded { AreBounded (bindings env.now) }
    requires shallow { length (bindings env.now) + depth item.now ≤ 64 }
    ensures { running.new ≡ after_all (item_instances arrays.now item.now (bindings env.now)) running.old }
{
    match item {
        Item::For {
            line,
            name: _,
            lo,
            hi,
            body,
        } => {
            let lo = eval(lo, env, arrays);
            let hi = eval(hi, env, arrays);
            run_turns(lo, hi, *line, body.as_slice(), env, arrays, running);
        }
        Item::When {
            line: _,
            rel,
            left,
            right,
            body,
        } => {
            if is_met(*rel, left, right, env, arrays) {
                run_body(body.as_slice(), env, arrays, running);
            }
        }
        Item::Set {
            line: _,
            array,
            at,
            value: expr,
        } => {
            let at = eval(at, env, arrays);
            let word = value(expr, env, arrays, &*running);
            running.put(Effect::Sets(Place { array: *array, at }), word);
        }
        Item::Keep {
            line: _,
            local,
            value: expr,
        } => {
            let word = value(expr, env, arrays, &*running);
            running.put(Effect::Keeps(*local), word);
        }
    }
}

// The body for each number from `lo` up to but not including `hi`.
#[cycle(runs)]
fn run_turns(
    lo: i128,
    hi: i128,
    line: u16,
    body: &[Item],
    env: &Env<'_>,
    arrays: &Arrays,
    running: &mut Running,
)
    requires bounded { AreBounded (bindings env.now) }
    requires shallow { length (bindings env.now) + body_depth body.now + 1 ≤ 64 }
    requires low { IsWithin (length (bindings env.now) + 1) lo }
    requires high { IsWithin (length (bindings env.now) + 1) hi }
    ensures { running.new ≡ after_all (turns (trips lo hi) lo (λ i. body_instances arrays.now body.now (bound line i (bindings env.now)))) running.old }
{
    let var = VarId {
        line,
        side: Side::Own,
    };
    for i in lo..hi {
        run_body(body, &Env::Bind(var, i, &*env), arrays, running);
    }
}

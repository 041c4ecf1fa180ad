// A nest with its arrays, planned.
ghost use Rattle.std.specs.Prelude.{◌≡◌, ◌≤◌, ℤ, List, IfOk, OnOk};
ghost use Rattle.loop_core.specs.IsNest.{IsNest};
ghost use Rattle.loop_core.specs.Lengths.{HaveLengths};
ghost use Rattle.index_props.specs.Meanings.{Passes};
ghost use Rattle.index_props.specs.Sound.{IndexLengths};
ghost use Rattle.access_bounds.specs.Accepted.{IsAccepted};
ghost use Rattle.loop_plan.specs.Planned.{IsPlanOf};
ghost use Rattle.core_machine.specs.FitWork.{IsFitWork};
ghost use Rattle.work_samples.specs.Works.{IsPlanned};

use crate::unfit::Unfit;
use access_bounds::accept::{Accepted, accept};
use access_bounds::laws::accesses_are_inside;
use array_bind::bind::Bound;
use core_machine::work::Work;
use dep_simplify::verdicts::verdicts;
use loop_core::arrays::Arrays;
use loop_core::nest::Nest;
use loop_plan::laws::plans_fit_the_dependences;
use loop_plan::plan::plan_loop;
use plan_build::build::Built;
use prop_check::check::check;
use std::alloc::Global;
use std::thread::Threads;
use wave_base::types::Memory;

fn expect_properties(alloc: Global, nest: &Nest, arrays: &Arrays) -> Result<(), Unfit>
    ensures { OnOk result (Passes nest.now.props arrays.now) }
{
    let props = nest.props.as_slice();
    if props.len() > 65536 {
        return Err(Unfit::Property);
    }
    match check(alloc, props, arrays) {
        Ok(_) => Ok(()),
        Err(_) => Err(Unfit::Property),
    }
}

fn accepted(alloc: Global, nest: &Nest) -> Result<Accepted, Unfit>
    requires { IsNest nest.now }
    ensures nest { IfOk result (λ a. a ≡ nest.now) }
    ensures accepted { IfOk result (λ a. IsAccepted nest.now) }
{
    let copy = nest.copy(alloc)?;
    match accept(alloc, copy) {
        Ok(loop_in) => Ok(loop_in),
        Err(refusal) => Err(Unfit::Bounds(refusal)),
    }
}

fn plan_accepted<R: AllocGlobal + Threads + Sync>(
    rt: &R,
    loop_in: &Accepted,
    arrays: &Arrays,
    workers: u32,
) -> Result<Built, Memory>
    requires lengths { IndexLengths loop_in.now.decls arrays.now }
    requires passes { Passes loop_in.now.props arrays.now }
    requires some { 1 ≤ workers }
    requires few { workers ≤ 64 }
    ensures { IfOk result (λ built. (x : List (List ℤ)) → HaveLengths loop_in.now.decls arrays.now x
        → IsPlanOf loop_in.now arrays.now x workers built) }
{
    let verdicts = verdicts(rt.alloc(), loop_in)?;
    plan_loop(rt, loop_in, verdicts.as_slice(), arrays, workers)
}

// The plan of a nest that is accepted, over arrays with its properties.
fn plan_nest<R: AllocGlobal + Threads + Sync>(
    rt: &R,
    nest: &Nest,
    arrays: &Arrays,
    workers: u32,
) -> Result<Built, Unfit>
    requires is_nest { IsNest nest.now }
    requires lengths { IndexLengths nest.now.decls arrays.now }
    requires some { 1 ≤ workers }
    requires few { workers ≤ 64 }
    ensures accepted { IfOk result (λ _. IsAccepted nest.now) }
    ensures passes { IfOk result (λ _. Passes nest.now.props arrays.now) }
    ensures plan { IfOk result (λ built. (x : List (List ℤ)) → HaveLengths nest.now.decls arrays.now x
        → IsPlanOf nest.now arrays.now x workers built) }
{
    expect_properties(rt.alloc(), nest, arrays)?;
    let loop_in = accepted(rt.alloc(), nest)?;
    let built = plan_accepted(rt, &loop_in, arrays, workers)?;
    Ok(built)
}

/// The work of a nest with its arrays, planned for some workers. It is refused where the nest isn't accepted or
/// the arrays break a declared property.
pub fn planned<R: AllocGlobal + Threads + Sync>(
    rt: &R,
    nest: Nest,
    bound: Bound,
    workers: u32,
) -> Result<Work, Unfit>
    requires is_nest { IsNest nest }
    requires lengths { HaveLengths nest.decls bound.arrays bound.values }
    requires some { 1 ≤ workers }
    requires few { workers ≤ 64 }
    ensures fit { IfOk result IsFitWork }
    ensures nest { IfOk result (λ work. work.nest ≡ nest) }
    ensures bound { IfOk result (λ work. bound ≡ record { arrays = work.arrays; values = work.values }) }
    ensures plan { IfOk result (IsPlanned workers) }
{
    accesses_are_inside();
    plans_fit_the_dependences();
    let built = plan_nest(rt, &nest, &bound.arrays, workers)?;
    let Bound { arrays, values } = bound;
    Ok(Work {
        nest,
        arrays,
        values,
        sched: built.sched,
    })
}

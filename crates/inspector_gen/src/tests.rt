// The tests after a variable.
ghost use Rattle.std.specs.Prelude.{◌≡◌, ◌++◌, OnOk, IfOk};
ghost use Rattle.inspector_gen.specs.Plans.{is_due as due, may_test as can_test, tests_due};

use crate::fixed::is_fixed;
use inspector_run::plan::InspOp;
use loop_core::copies::copy_atom;
use loop_core::nest::VarId;
use sqlite_items::Items;
use std::alloc::Global;
use uf_constraints::system::Diff;
use wave_base::types::Memory;

fn may_test(fixed: &[VarId], d: &Diff) -> bool
    ensures { result ≡ can_test fixed.now d.now }
{
    if fixed.is_empty() {
        return false;
    }
    is_fixed(fixed, &d.a) && is_fixed(fixed, &d.b)
}

fn is_due(earlier: &[VarId], fixed: &[VarId], d: &Diff) -> bool
    ensures { result ≡ due earlier.now fixed.now d.now }
{
    let now = may_test(fixed, d);
    let before = may_test(earlier, d);
    now && !before
}

fn copy_diff(alloc: Global, d: &Diff) -> Result<Diff, Memory>
    ensures { IfOk result (λ copy. copy ≡ d.now) }
{
    let a = copy_atom(alloc, &d.a)?;
    let b = copy_atom(alloc, &d.b)?;
    Ok(Diff { a, b, c: d.c })
}

/// Puts the tests at the end whose variables are fixed now, and weren't all fixed earlier.
pub fn push_tests(
    alloc: Global,
    base: &[Diff],
    earlier: &[VarId],
    fixed: &[VarId],
    ops: &mut Items<InspOp>,
) -> Result<(), Memory>
    ensures { OnOk result (ops.new ≡ ops.old ++ tests_due base.now earlier.now fixed.now) }
{
    for d in base {
        if is_due(earlier, fixed, d) {
            ops.push(InspOp::Test(copy_diff(alloc, d)?))?;
        }
    }
    Ok(())
}

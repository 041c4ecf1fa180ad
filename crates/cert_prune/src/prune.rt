// A certificate without the steps that its last one doesn't need.
ghost use Rattle.std.specs.Prelude.{◌≡◌, ◌≤◌, [], length, List, IfOk, Ok};
ghost use Rattle.loop_core.specs.declared.nest.Atom.{Atom};
ghost use Rattle.uf_constraints.specs.declared.system.Diff.{Diff};
ghost use Rattle.index_props.specs.declared.rule.RuleInst.{RuleInst};
ghost use Rattle.index_props.specs.Certificate.{outcome};
ghost use Rattle.cert_prune.specs.Kept.{IsLean};

use crate::kept::kept;
use crate::needed::needed;
use index_props::certificate::Cert;
use std::alloc::Global;
use wave_base::types::Memory;

/// The certificate cut down to the steps that its last one needs, with new numbers.
///
/// Each step but the last is named by a later one. Where the old certificate passes the check, the new
/// one passes it with the same constraint, over any universe, base and instances. The work is linear
/// in the steps with the steps that they name.
pub fn prune(alloc: Global, cert: &Cert) -> Result<Cert, Memory>
    ensures same { IfOk result (λ pruned. (u : List Atom) (base : List Diff) (rules : List RuleInst) (d : Diff)
        → outcome u base rules [] cert.now.steps ≡ Ok d → outcome u base rules [] pruned.steps ≡ Ok d) }
    ensures shorter { IfOk result (λ pruned. length pruned.steps ≤ length cert.now.steps) }
    ensures lean { IfOk result (λ pruned. IsLean pruned.steps) }
{
    let steps = cert.steps.as_slice();
    let marks = needed(alloc, steps)?;
    let steps = kept(alloc, steps, marks.as_slice())?;
    Ok(Cert { steps })
}

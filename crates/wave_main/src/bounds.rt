// Whether a loop is accepted.
ghost use Rattle.std.specs.Prelude.{◌≡◌, ◌⊎◌, MatchResult};
ghost use Rattle.loop_core.specs.IsNest.{IsNest};
ghost use Rattle.access_bounds.specs.Accepted.{IsAccepted};
ghost use Rattle.wave_main.specs.Bounds.{IsBoundsFault};

use crate::status::Status;
use access_bounds::accept::{Accepted, accept};
use access_bounds::refusal::BoundsRefusal;
use loop_core::nest::Nest;
use loop_syntax::refusal::LimitKind;
use std::alloc::Global;

/// A nest of which no access leaves its array, whatever files have the declared properties; or its
/// first bracket of which this can't be derived, if no system of constraints has too many atoms.
pub fn accepted(alloc: Global, nest: Nest) -> Result<Accepted, Status>
    requires { IsNest nest }
    ensures { MatchResult result (λ loop_in. (loop_in ≡ nest) × IsAccepted nest) (λ status. (status ≡ Status.Memory) ⊎ IsBoundsFault nest status) }
{
    match accept(alloc, nest) {
        Ok(loop_in) => Ok(loop_in),
        Err(BoundsRefusal::TermsFull { line }) => Err(Status::LoopLimit {
            line,
            kind: LimitKind::Atoms,
        }),
        Err(
            BoundsRefusal::Unbounded {
                line,
                bracket,
                side,
            },
        ) => Err(Status::Unbounded {
            line,
            bracket,
            side,
        }),
        Err(BoundsRefusal::Memory) => Err(Status::Memory),
    }
}

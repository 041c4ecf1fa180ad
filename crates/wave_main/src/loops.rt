// The loop of a file.
ghost use Rattle.std.specs.Prelude.{◌≡◌, ◌⊎◌, ◌≤◌, ◌<◌, ◌^◌, ℕ, List, MatchResult, IfOk, length};
ghost use Rattle.loop_core.specs.Depth.{body_depth};
ghost use Rattle.loop_core.specs.IsNest.{IsNest};
ghost use Rattle.loop_core.specs.Sizes.{sizes};
ghost use Rattle.loop_lines.specs.Plain.{HasNames};
ghost use Rattle.wave_main.specs.Files.{IsFetched};
ghost use Rattle.wave_main.specs.Loops.{loop_status, IsLoop, IsLoopFault};

use crate::status::Status;
use loop_core::nest::Nest;
use loop_laws::laws::what_is_read_is_a_nest;
use loop_syntax::read::read;
use loop_syntax::refusal::{LimitKind, LoopRefusal};
use std::alloc::Global;

fn loop_status(refusal: LoopRefusal) -> Status
    ensures { result ≡ loop_status refusal }
{
    match refusal {
        LoopRefusal::Text { line } => Status::LoopText { line },
        LoopRefusal::Name { line, kind } => Status::LoopName { line, kind },
        LoopRefusal::Limit { line, kind } => Status::LoopLimit { line, kind },
        LoopRefusal::Memory => Status::Memory,
    }
}

fn too_long() -> Status
    ensures { result ≡ Status.LoopLimit 0 LimitKind.Length }
{
    Status::LoopLimit {
        line: 0,
        kind: LimitKind::Length,
    }
}

/// The loop of a file that was fetched; a file that is too long passes a limit.
pub fn read_loop(alloc: Global, file: Option<Vec<u8>>) -> Result<Nest, Status>
    ensures answer { (bytes : List ℕ) → IsFetched 65536 bytes file → MatchResult result (IsLoop bytes) (λ status. (status ≡ Status.Memory) ⊎ IsLoopFault bytes status) }
    ensures nest { IfOk result IsNest }
    ensures names { IfOk result HasNames }
    ensures shallow { IfOk result (λ nest. body_depth nest.body ≤ 5) }
    ensures few { IfOk result (λ nest. length (sizes nest.decls) ≤ 64) }
    ensures few_properties { IfOk result (λ nest. length nest.props < 2 ^ 32) }
{
    match file {
        Some(bytes) => nest_of(alloc, bytes.as_slice()),
        None => Err(too_long()),
    }
}

/// The loop that bytes are; more than 65,536 pass a limit.
pub fn nest_of(alloc: Global, bytes: &[u8]) -> Result<Nest, Status>
    ensures answer { MatchResult result (IsLoop bytes.now) (λ status. (status ≡ Status.Memory) ⊎ IsLoopFault bytes.now status) }
    ensures nest { IfOk result IsNest }
    ensures names { IfOk result HasNames }
    ensures shallow { IfOk result (λ nest. body_depth nest.body ≤ 5) }
    ensures few { IfOk result (λ nest. length (sizes nest.decls) ≤ 64) }
    ensures few_properties { IfOk result (λ nest. length nest.props < 2 ^ 32) }
{
    what_is_read_is_a_nest();
    if bytes.len() > 65536 {
        return Err(too_long());
    }
    match read(alloc, bytes) {
        Ok(nest) => Ok(nest),
        Err(refusal) => Err(loop_status(refusal)),
    }
}

// The first line of a file.
ghost use Rattle.std.specs.Prelude.{◌≤◌, ◌^◌, length, IfOk};
ghost use Rattle.mtx_read.specs.Files.{IsHead};

use crate::refusal::{BigKind, MtxRefusal};
use text_base::lines::split_line;

/// The first line of a file and the text after it, or the refusal of a file that is too long or has
/// no line.
#[tactic(auto, using(crate::proofs::Whole::too_long, crate::proofs::Whole::has_head))]
pub fn split_head(bytes: &[u8]) -> Result<(&[u8], &[u8]), MtxRefusal>
    ensures head { IsHead bytes.now result }
    ensures few { IfOk result (λ x. length x.1.now ≤ 2 ^ 28) }
{
    if bytes.len() > 1 << 28 {
        return Err(MtxRefusal::Big {
            what: BigKind::Bytes,
            value: (1 << 28) + 1,
        });
    }
    if bytes.is_empty() {
        return Err(MtxRefusal::Header);
    }
    Ok(split_line(bytes))
}

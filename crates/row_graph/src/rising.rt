// Whether pairs come in an order in which the first rows ascend at each second row.
ghost use Rattle.std.specs.Prelude.{◌≡◌, ◌<◌, All, IfOk, IsTrue};
ghost use Rattle.wave_base.specs.declared.types.RowId.{RowId};
ghost use Rattle.row_graph.specs.Rising.{DoFirstsRise};

use std::alloc::Global;
use wave_base::types::{Memory, RowId};

/// Whether no pair has a first row below that of an earlier pair with its second row. So it is where pairs come by
/// their first rows, and where they come by their second rows and then by their first rows.
///
/// It looks at pairs up to the first that falls.
pub fn do_firsts_rise(alloc: Global, n: u32, pairs: &[(RowId, RowId)]) -> Result<bool, Memory>
    requires { All (λ (p : RowId × RowId). p.1.0 < n) pairs.now }
    ensures { IfOk result (λ rise. IsTrue rise → DoFirstsRise n pairs.now) }
{
    let mut last = vec![in alloc; RowId(0); n as usize]?;
    for pair in pairs {
        let at = pair.1.0 as usize;
        if pair.0.0 < last[at].0 {
            return Ok(false);
        }
        last[at] = pair.0;
    }
    Ok(true)
}

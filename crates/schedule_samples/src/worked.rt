// Graphs whose schedules were worked out by hand.
ghost use Rattle.std.specs.Prelude.{◌<◌, All, IfOk};
ghost use Rattle.wave_base.specs.declared.types.RowId.{RowId};

use crate::made::valid_pairs;
use std::alloc::{AllocError, Global};
use wave_base::types::RowId;

/// Forward substitution in six rows: 2 and 3 depend on 0 and 1; 4 and 5 depend on 0, 1, 2 and 3.
pub fn forward_substitution(alloc: Global) -> Result<Vec<(RowId, RowId)>, AllocError>
    ensures earlier { IfOk result (λ pairs. All (λ (p : RowId × RowId). p.0.0 < p.1.0) pairs.items) }
    ensures below { IfOk result (λ pairs. All (λ (p : RowId × RowId). p.1.0 < 6) pairs.items) }
{
    let raw = vec![in alloc;
        (0, 2),
        (1, 2),
        (0, 3),
        (1, 3),
        (0, 4),
        (1, 4),
        (2, 4),
        (3, 4),
        (0, 5),
        (1, 5),
        (2, 5),
        (3, 5),
    ]?;
    valid_pairs(alloc, 6, raw.as_slice())
}

/// Substitution by columns in four rows: 2 depends on 1, twice over; 3 depends on 1 and 2.
pub fn by_columns(alloc: Global) -> Result<Vec<(RowId, RowId)>, AllocError>
    ensures earlier { IfOk result (λ pairs. All (λ (p : RowId × RowId). p.0.0 < p.1.0) pairs.items) }
    ensures below { IfOk result (λ pairs. All (λ (p : RowId × RowId). p.1.0 < 4) pairs.items) }
{
    valid_pairs(alloc, 4, [(1, 2), (1, 3), (2, 3), (1, 2)].as_slice())
}

/// Nine rows in three levels of three: on three workers row 8 depends on row 0 of the first worker,
/// and on row 4 of the second, which depends on row 0 too.
pub fn over_a_third_worker(alloc: Global) -> Result<Vec<(RowId, RowId)>, AllocError>
    ensures earlier { IfOk result (λ pairs. All (λ (p : RowId × RowId). p.0.0 < p.1.0) pairs.items) }
    ensures below { IfOk result (λ pairs. All (λ (p : RowId × RowId). p.1.0 < 9) pairs.items) }
{
    valid_pairs(
        alloc,
        9,
        [(0, 3), (0, 4), (2, 5), (3, 6), (4, 7), (0, 8), (4, 8)].as_slice(),
    )
}

/// Incomplete factors of three rows with entries beside the diagonal: 2 depends on 1, and 1 only on
/// values that stay.
pub fn incomplete_factors(alloc: Global) -> Result<Vec<(RowId, RowId)>, AllocError>
    ensures earlier { IfOk result (λ pairs. All (λ (p : RowId × RowId). p.0.0 < p.1.0) pairs.items) }
    ensures below { IfOk result (λ pairs. All (λ (p : RowId × RowId). p.1.0 < 3) pairs.items) }
{
    valid_pairs(alloc, 3, [(1, 2)].as_slice())
}

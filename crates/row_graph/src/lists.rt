// Lists of rows, one after another in one array.
ghost use Rattle.std.specs.Prelude.{◌≡◌, ◌==◌, ◌<◌, ◌++◌, ◌+◌, ◌^◌, ◌∷◌, [], length, map, sum_by, slice_index_or, IfOk, OnOk};
ghost use Rattle.row_graph.specs.Cut.{IsCut, cut, part};

use std::alloc::Global;
use std::marker::Model;
use wave_base::types::{Memory, RowId};

/// Lists of rows. List k is `flat` from `starts[k]` up to `starts[k + 1]`.
#[derive(Debug, Drop)]
pub struct Lists {
    starts: Vec<usize>,
    flat: Vec<RowId>,
}

impl Model for Lists {
    ghost use Rattle.std.specs.Prelude.{List};
    ghost use Rattle.wave_base.specs.declared.types.RowId.{RowId};
    ghost use Rattle.row_graph.specs.Cut.{IsCut, cut};

    ghost Value = { List (List RowId) };

    ghost view = { λ l. cut l.starts.items l.flat.items };

    ghost invariant = { λ l. IsCut l.starts.items l.flat.items };
}

impl Lists {
    /// The lists that `flat` has between one start and the next. It takes no memory.
    pub fn from_parts(starts: Vec<usize>, flat: Vec<RowId>) -> Lists
        requires { IsCut starts.items flat.items }
        ensures { result ≡ cut starts.items flat.items }
    {
        Lists { starts, flat }
    }

    /// No lists.
    pub fn none(alloc: Global) -> Result<Lists, Memory>
        ensures { IfOk result (λ lists. lists ≡ []) }
    {
        let mut starts = Vec::new(alloc);
        starts.push(0)?;
        Ok(Lists {
            starts,
            flat: Vec::new(alloc),
        })
    }

    /// One list more, at the end.
    pub fn with_list(self, list: &[RowId]) -> Result<Lists, Memory>
        ensures { IfOk result (λ lists. lists ≡ self ++ list.now ∷ []) }
    {
        let Lists {
            mut starts,
            mut flat,
        } = self;
        flat.extend_from_slice(list)?;
        starts.push(flat.len())?;
        Ok(Lists { starts, flat })
    }

    /// The number of lists.
    pub fn len(&self) -> usize
        ensures len { result ≡ length self.now }
        ensures fits { length self.now + 1 < 2 ^ 64 }
    {
        self.starts.len() - 1
    }

    /// Whether there are no lists.
    pub fn is_empty(&self) -> bool
        ensures { result ≡ (length self.now == 0) }
    {
        self.len() == 0
    }

    /// One of the lists.
    pub fn list(&self, at: usize) -> &[RowId]
        requires { at < length self.now }
        ensures { result.now ≡ slice_index_or self.now at [] }
    {
        between(self.starts.as_slice(), self.flat.as_slice(), at)
    }

    /// The number of rows in all lists together.
    pub fn total(&self) -> usize
        ensures { result ≡ sum_by length self.now }
    {
        self.flat.len()
    }
}

// The list of one number.
fn between<'a>(starts: &[usize], flat: &'a [RowId], at: usize) -> &'a [RowId]
    requires cut { IsCut starts.now flat.now }
    requires at { at + 1 < length starts.now }
    ensures { result.now ≡ part starts.now flat.now at }
{
    let from = starts[at];
    let to = starts[at + 1];
    &flat[from..to]
}

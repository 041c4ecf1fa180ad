// Lists that contracts see as lists.
ghost use Rattle.std.specs.Prelude.{◌≡◌, ◌++◌, ◌∷◌, [], IfOk, OnErr, OnOk};

use smallvec::SmallVec;
use std::alloc::Global;
use std::marker::Model;
use wave_base::types::{Memory, RowId};

/// A wait for another worker: it is over once that worker has finished `count` tasks.
#[derive(Clone, Copy, Debug, Default, PartialEq, Eq)]
pub struct Wait {
    pub worker: u32,
    pub count: u32,
}

/// Rows, which contracts see as a list.
#[derive(Debug, Drop)]
pub struct RowList {
    items: Vec<RowId>,
}

impl Model for RowList {
    ghost use Rattle.std.specs.Prelude.{List};
    ghost use Rattle.wave_base.specs.declared.types.RowId.{RowId};

    ghost Value = { List RowId };

    ghost view = { λ l. l.items.items };
}

impl RowList {
    /// The rows of a `Vec`. It takes no memory.
    pub fn from_vec(items: Vec<RowId>) -> RowList
        ensures { result ≡ items.items }
    {
        RowList { items }
    }

    /// The rows of a slice.
    pub fn from_slice(alloc: Global, rows: &[RowId]) -> Result<RowList, Memory>
        ensures { IfOk result (λ list. list ≡ rows.now) }
    {
        let items = Vec::from_slice(alloc, rows)?;
        Ok(RowList { items })
    }

    /// The rows as a `Vec`. It takes no memory.
    pub fn into_vec(self) -> Vec<RowId>
        ensures { result.items ≡ self }
    {
        let RowList { items } = self;
        items
    }

    /// The rows as a slice.
    pub fn as_slice(&self) -> &[RowId]
        ensures { result.now ≡ self.now }
    {
        self.items.as_slice()
    }

    /// An equal list.
    pub fn copy(&self, alloc: Global) -> Result<RowList, Memory>
        ensures { IfOk result (λ copy. copy ≡ self.now) }
    {
        RowList::from_slice(alloc, self.as_slice())
    }
}

/// Waits, which contracts see as a list. Up to four need no memory.
#[derive(Debug, Drop)]
pub struct WaitList {
    items: SmallVec<Wait, 4>,
}

impl Model for WaitList {
    ghost use Rattle.std.specs.Prelude.{List};
    ghost use Rattle.sched_types.specs.declared.lists.Wait.{Wait};

    ghost Value = { List Wait };

    ghost view = { λ l. l.items.items };
}

impl WaitList {
    /// No waits.
    pub fn new(alloc: Global) -> WaitList
        ensures { result ≡ [] }
    {
        WaitList {
            items: SmallVec::new(alloc),
        }
    }

    /// One wait more, at the end. When out of memory, the list is as before.
    pub fn push(&mut self, wait: Wait) -> Result<(), Memory>
        ensures ok { OnOk result (self.new ≡ self.old ++ wait ∷ []) }
        ensures err { OnErr result (self.new ≡ self.old) }
    {
        self.items.push(wait)?;
        Ok(())
    }

    /// The waits as a slice.
    pub fn as_slice(&self) -> &[Wait]
        ensures { result.now ≡ self.now }
    {
        self.items.as_slice()
    }

    /// An equal list.
    pub fn copy(&self, alloc: Global) -> Result<WaitList, Memory>
        ensures { IfOk result (λ copy. copy ≡ self.now) }
    {
        let items = SmallVec::from_slice(alloc, self.items.as_slice())?;
        Ok(WaitList { items })
    }
}

// The actions of a script.
ghost use Rattle.std.specs.Prelude.{◌≡◌, ◌+◌, ◌<◌, ◌^◌, IsSome, slice_get};

use core_book::book::How;
use std::marker::Model;
use wave_base::types::Cell;

/// One action. A read and a write say whether they are the first action of their row. A write
/// names its instance among the worker's.
#[derive(Clone, Copy)]
pub enum Action {
    Look { from: u32, need: u64 },
    Read { begins: bool, cell: Cell },
    Write { begins: bool, cell: Cell, at: usize },
    Finish,
}

/// The actions of one worker, in order. Contracts see a list.
#[derive(Drop)]
pub struct Script {
    actions: Vec<Action>,
}

impl Model for Script {
    ghost use Rattle.std.specs.Prelude.{List};
    ghost use Rattle.core_run.specs.declared.action.Action.{Action};

    ghost Value = { List Action };

    ghost view = { λ s. s.actions.items };
}

impl Script {
    /// The actions of a `Vec`. It takes no memory.
    pub fn from_vec(actions: Vec<Action>) -> Script
        ensures { result ≡ actions.items }
    {
        Script { actions }
    }

    /// The action at a place, and none past the end.
    pub fn at(&self, place: usize) -> Option<Action>
        ensures is { result ≡ slice_get self.now place }
        ensures small { IsSome result → place + 1 < 2 ^ 64 }
    {
        self.actions.get(place).copied()
    }
}

/// The instances of one worker, in order. Contracts see a list.
#[derive(Drop)]
pub struct Hows {
    items: Vec<How>,
}

impl Model for Hows {
    ghost use Rattle.std.specs.Prelude.{List};
    ghost use Rattle.core_book.specs.declared.book.How.{How};

    ghost Value = { List How };

    ghost view = { λ h. h.items.items };
}

impl Hows {
    /// The instances of a `Vec`. It takes no memory.
    pub fn from_vec(items: Vec<How>) -> Hows
        ensures { result ≡ items.items }
    {
        Hows { items }
    }

    pub fn as_slice(&self) -> &[How]
        ensures { result.now ≡ self.now }
    {
        self.items.as_slice()
    }
}

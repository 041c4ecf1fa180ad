// What the instances of a row change.
ghost use Rattle.std.specs.Prelude.{◌≡◌, pos, slice_index_or};
ghost use Rattle.loop_core.specs.Lists.{entry};
ghost use Rattle.loop_core.specs.Sequence.{done, fresh};

use loop_core::effect::Effect;
use loop_core::locals::Locals;
use loop_core::values::Values;
use std::marker::Model;
use wave_base::types::ArrayId;

/// The data arrays, and the locals of the current row.
#[derive(Drop)]
pub struct Running {
    values: Values,
    locals: Locals,
    // Whether a local was kept since the row began: where none was, all are still 0.
    kept: bool,
}

impl Model for Running {
    ghost use Rattle.std.specs.Prelude.{◌≡◌, false};
    ghost use Rattle.loop_core.specs.Sequence.{State, zeros};

    ghost Value = { State };

    ghost view = { λ r. record { lists = r.values; locals = r.locals } };

    ghost invariant = { λ r. r.kept ≡ false → r.locals ≡ zeros };
}

impl Running {
    /// What a row begins with: these arrays, and all locals 0. It takes no memory.
    pub fn begin(values: Values) -> Running
        ensures { result ≡ fresh values }
    {
        Running {
            values,
            locals: Locals::zeros(),
            kept: false,
        }
    }

    /// The next row begins: all locals are 0.
    pub fn renew(&mut self)
        ensures { self.new ≡ fresh self.old.lists }
    {
        if self.kept {
            self.locals = Locals::zeros();
            self.kept = false;
        }
    }

    /// The data arrays. It takes no memory.
    pub fn end(self) -> Values
        ensures { result ≡ self.lists }
    {
        let Running {
            values,
            locals: _,
            kept: _,
        } = self;
        values
    }

    /// The word at a place, and 0 outside the list.
    pub fn read(&self, array: ArrayId, at: i128) -> i64
        ensures { result ≡ entry self.now.lists array at }
    {
        self.values.read(array, at)
    }

    /// The word of a local, and 0 where there is no such local.
    pub fn local(&self, local: u8) -> i64
        ensures { result ≡ slice_index_or self.now.locals local (pos 0) }
    {
        self.locals.get(local)
    }

    /// The word goes where the effect says.
    pub fn put(&mut self, effect: Effect, word: i64)
        ensures { self.new ≡ done effect word self.old }
    {
        match effect {
            Effect::Sets(place) => self.values.write(place.array, place.at, word),
            Effect::Keeps(local) => {
                self.locals.keep(local, word);
                self.kept = true;
            }
        }
    }
}

// A row, instance after instance.
ghost use Rattle.std.specs.Prelude.{◌≡◌, ◌<◌, ◌^◌};
ghost use Rattle.loop_core.specs.Variables.{bindings};
ghost use Rattle.loop_core.specs.Terms.{AreBounded};
ghost use Rattle.loop_core.specs.Instances.{formula, Load};
ghost use Rattle.loop_core.specs.Sequence.{zeros};
ghost use Rattle.core_law.specs.Scripts.{row_actions};
ghost use Rattle.core_machine.specs.FitWork.{IsFitWork, plain};
ghost use Rattle.done_words.specs.Seats.{view};

use core_machine::work::Work;
use core_value::evaluate::is_written;
use done_words::board::Board;
use done_words::work_seat::WorkSeat;
use loop_core::arrays::Arrays;
use loop_core::effect::Effect;
use loop_core::env::Env;
use loop_core::locals::Locals;
use loop_core::nest::Expr;
use loop_core::place::Place;
use loop_core::terms::value as value_of_term;
use loop_core::values::Values;
use loop_meaning::exprs::operate;
use loop_meaning::walk::{Visitor, walk_row};
use std::convert::Infallible;
use wave_base::types::{ArrayId, Cell, RowId};

/// A worker in a row: its seat on the board, the words of arrays that the nest doesn't write, which arrays it
/// writes, and the locals of the row.
#[derive(Drop)]
pub struct Run<'a> {
    pub seat: &'a mut WorkSeat,
    pub board: &'a Board,
    pub values: &'a Values,
    pub written: &'a [bool],
    pub locals: Locals,
}

/// Each instance makes its reads, from left to right, and then its write.
impl Visitor for Run<'_> {
    type Fault = Infallible;

    ghost use Rattle.p2p_exec.specs.Rows.{MayVisit, Visits};

    ghost may_visit = { MayVisit };

    ghost moves = { Visits };

    fn visit(
        &mut self,
        _line: u16,
        effect: Effect,
        value: &Expr,
        env: &Env<'_>,
        arrays: &Arrays,
    ) -> Result<(), Infallible> {
        let word = self.value(value, env, arrays);
        self.put(effect, word);
        Ok(())
    }
}

impl Run<'_> {
    ghost use Rattle.p2p_exec.specs.Rows.{IsOf, IsSameRun};
    ghost use Rattle.p2p_exec.specs.Tasks.{MayAct, Acts};
    ghost use Rattle.p2p_exec.specs.Reading.{MayRead, Reads};
    ghost use Rattle.p2p_exec.specs.Putting.{MayPut, Puts};

    /// Runs a row of a work from its first instance on: its actions were next, and are made. It takes no memory.
    pub fn row(&mut self, work: &Work, row: RowId)
        requires fit { IsFitWork work.now }
        requires over { IsOf work.now self.old }
        requires here { row.0 < work.now.arrays.n }
        requires begins { self.old.locals ≡ zeros }
        requires next { MayAct work.now (view self.old.seat.now) (row_actions (plain work.now) row) }
        ensures over { IsOf work.now self.new }
        ensures same { IsSameRun self.old self.new }
        ensures ran { Acts work.now (view self.old.seat.now) (row_actions (plain work.now) row) (view self.new.seat.now) }
    {
        sizes_fit(&work.arrays);
        match walk_row(&work.nest, &work.arrays, row, self) {
            Ok(()) => {}
            Err(never) => match never {},
        }
    }

    // The value of an expression, built while its reads are made.
    fn value(&mut self, expr: &Expr, env: &Env<'_>, arrays: &Arrays) -> i64
        requires bounded { AreBounded (bindings env.now) }
        requires may { MayRead self.old (formula arrays.now (bindings env.now) expr.now) }
        ensures { Reads self.old (formula arrays.now (bindings env.now) expr.now) result self.new }
    {
        match expr {
            Expr::Lit(word) => *word,
            Expr::Read(array, at) => {
                let at = value_of_term(at, env, arrays);
                self.load(*array, at)
            }
            Expr::Local(local) => self.locals.get(*local),
            Expr::Op(op, left, right) => {
                let left = self.value(left.get(), env, arrays);
                let right = self.value(right.get(), env, arrays);
                operate(*op, left, right)
            }
        }
    }

    // The word at a place: from the board where the nest writes the array.
    fn load(&mut self, array: ArrayId, at: i128) -> i64
        requires may { MayRead self.old (Load array at) }
        ensures { Reads self.old (Load array at) result self.new }
    {
        if is_written(self.written, array) {
            let cell = Cell {
                array,
                at: at as u32,
            };
            self.seat.read(self.board, cell)
        } else {
            self.values.read(array, at)
        }
    }

    // The value goes to the board, or is kept in a local.
    fn put(&mut self, effect: Effect, word: i64)
        requires may { MayPut self.old effect word }
        ensures { Puts self.old effect word self.new }
    {
        match effect {
            Effect::Sets(place) => {
                let cell = Cell {
                    array: place.array,
                    at: place.at as u32,
                };
                self.seat.write(self.board, cell, word);
            }
            Effect::Keeps(local) => self.locals.keep(local, word),
        }
    }
}

// The sizes are in range: each is read once, and nothing else is done.
fn sizes_fit(arrays: &Arrays)
    ensures { (arrays.now.n < 2 ^ 32) × (arrays.now.nnz < 2 ^ 32) }
{
    let (_rows, _entries) = (arrays.n(), arrays.nnz());
}

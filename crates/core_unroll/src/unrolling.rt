// What instances leave in scripts.
ghost use Rattle.std.specs.Prelude.{◌≡◌, ◌≤◌, ◌<◌, ◌+◌, IfOk, OnOk};
ghost use Rattle.core_book.specs.Follows.{kept_local};

use crate::reads::{list_reads, list_write};
use crate::statements::find_statement;
use core_book::book::{Book, How};
use core_run::action::Action;
use loop_core::arrays::Arrays;
use loop_core::effect::Effect;
use loop_core::env::Env;
use loop_core::nest::Expr;
use loop_core::values::Values;
use loop_meaning::walk::Visitor;
use wave_base::types::Memory;

/// The actions and the instances of one worker so far, how many instances of the current row, the room
/// for registers that the rows so far need, and what all workers share.
#[derive(Drop)]
pub struct Unrolling {
    pub actions: Vec<Action>,
    pub hows: Vec<How>,
    pub before: u32,
    pub room: usize,
    pub book: Book,
    pub values: Values,
    pub slots: Vec<u16>,
}

/// The actions of each instance are put down.
impl Visitor for Unrolling {
    type Fault = Memory;

    ghost use Rattle.core_unroll.specs.Moves.{IsMove};

    ghost moves = { IsMove };

    fn visit(
        &mut self,
        line: u16,
        effect: Effect,
        value: &Expr,
        env: &Env<'_>,
        arrays: &Arrays,
    ) -> Result<(), Memory> {
        let at = self.hows.len();
        let from = self.book.others.len() as u64;
        let start = self.actions.len();
        list_reads(
            &mut self.actions,
            &mut self.book.others,
            self.book.written.as_slice(),
            &self.values,
            value,
            env,
            arrays,
        )?;
        let reads = self.actions.len() - start;
        let statement = find_statement(
            &mut self.book.statements,
            &mut self.slots,
            line,
            value,
            reads,
        )?;
        list_write(&mut self.actions, effect, at)?;
        let next = next_in_row(self.before)?;
        self.hows.push(How {
            statement,
            keeps: local_of(effect),
            before: self.before,
            from,
        })?;
        self.before = next;
        Ok(())
    }
}

fn next_in_row(before: u32) -> Result<u32, Memory>
    ensures { IfOk result (λ next. next ≡ before + 1) }
{
    match before.checked_add(1) {
        Some(next) => Ok(next),
        None => Err(Memory),
    }
}

fn local_of(effect: Effect) -> Option<u8>
    ensures { result ≡ kept_local effect }
{
    match effect {
        Effect::Sets(_) => None,
        Effect::Keeps(local) => Some(local),
    }
}

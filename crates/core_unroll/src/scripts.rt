// The script of a worker, row after row and task after task.
ghost use Rattle.std.specs.Prelude.{◌≡◌, ◌≤◌, ◌++◌, [], length, List, map, max, OnOk};
ghost use Rattle.loop_core.specs.Depth.{body_depth};
ghost use Rattle.core_run.specs.declared.action.Action.{Action};
ghost use Rattle.core_unroll.specs.Plans.{beginning, begun, look_of};
ghost use Rattle.core_unroll.specs.Advances.{RowAdvances, RowsAdvance, TaskAdvances, TasksAdvance};

use crate::unrolling::Unrolling;
use core_run::action::Action;
use loop_core::arrays::Arrays;
use loop_core::nest::Nest;
use loop_meaning::walk::walk_row;
use sched_types::lists::Wait;
use sched_types::sched::Task;
use wave_base::types::{Memory, RowId};

impl Unrolling {
    /// Puts down the tasks of a worker.
    pub fn unroll_tasks(
        &mut self,
        nest: &Nest,
        arrays: &Arrays,
        tasks: &[Task],
    ) -> Result<(), Memory>
        requires { body_depth nest.now.body ≤ 5 }
        ensures { OnOk result (TasksAdvance nest.now arrays.now tasks.now self.old self.new) }
    {
        for task in tasks {
            self.unroll_task(nest, arrays, task)?;
        }
        Ok(())
    }

    // The looks of a task, then its rows, and then its finish.
    fn unroll_task(&mut self, nest: &Nest, arrays: &Arrays, task: &Task) -> Result<(), Memory>
        requires { body_depth nest.now.body ≤ 5 }
        ensures { OnOk result (TaskAdvances nest.now arrays.now task.now self.old self.new) }
    {
        list_looks(&mut self.actions, task.waits.as_slice())?;
        self.unroll_rows(nest, arrays, task.rows.as_slice())?;
        self.actions.push(Action::Finish)?;
        Ok(())
    }

    fn unroll_rows(&mut self, nest: &Nest, arrays: &Arrays, rows: &[RowId]) -> Result<(), Memory>
        requires { body_depth nest.now.body ≤ 5 }
        ensures { OnOk result (RowsAdvance nest.now arrays.now rows.now self.old self.new) }
    {
        for row in rows {
            self.unroll_row(nest, arrays, *row)?;
        }
        Ok(())
    }

    // The instances of a row. Its first action says that it begins the row.
    fn unroll_row(&mut self, nest: &Nest, arrays: &Arrays, row: RowId) -> Result<(), Memory>
        requires { body_depth nest.now.body ≤ 5 }
        ensures { OnOk result (RowAdvances nest.now arrays.now row self.old self.new) }
    {
        let start = self.actions.len();
        self.before = 0;
        walk_row(nest, arrays, row, self)?;
        begin_row(&mut self.actions, start);
        let end = self.actions.len();
        let actions = end.saturating_sub(start);
        self.make_room(actions);
        Ok(())
    }

    // Room for as many registers as a row has actions.
    fn make_room(&mut self, actions: usize)
        ensures { self.new ≡ record self.old { room = max self.old.room actions } }
    {
        self.room = self.room.max(actions);
    }
}

fn list_looks(actions: &mut Vec<Action>, waits: &[Wait]) -> Result<(), Memory>
    ensures { OnOk result (actions.new.items ≡ actions.old.items ++ map look_of waits.now) }
{
    for wait in waits {
        actions.push(Action::Look {
            from: wait.worker,
            need: wait.count as u64,
        })?;
    }
    Ok(())
}

// The action at a place says that it begins its row.
fn begin_row(actions: &mut Vec<Action>, start: usize)
    ensures { (earlier row : List Action) → actions.old.items ≡ earlier ++ row → start ≡ length earlier → actions.new.items ≡ earlier ++ begun row }
{
    begin_at(actions.as_mut_slice(), start);
}

fn begin_at(actions: &mut [Action], start: usize)
    ensures { (earlier row : List Action) → actions.old ≡ earlier ++ row → start ≡ length earlier → actions.new ≡ earlier ++ begun row }
{
    if start < actions.len() {
        actions[start] = beginning(actions[start]);
    }
}

fn beginning(action: Action) -> Action
    ensures { result ≡ beginning action }
{
    match action {
        Action::Read { begins: _, cell } => Action::Read { begins: true, cell },
        Action::Write {
            begins: _,
            cell,
            at,
        } => Action::Write {
            begins: true,
            cell,
            at,
        },
        Action::Look { from, need } => Action::Look { from, need },
        Action::Finish => Action::Finish,
    }
}

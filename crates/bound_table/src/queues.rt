// Instances that wait, each at the places of the premise that it watches.
ghost use Rattle.std.specs.Prelude.{◌≡◌, ◌<◌, ◌++◌, ◌∷◌, [], ℕ, length, IfOk, OnOk, replicate, slice_set, slice_index_or};
ghost use Rattle.bound_table.specs.Queues.{queue, put_in, without};

use crate::waiting::Waiting;
use std::alloc::Global;
use std::marker::Model;
use std::mem::replace;
use wave_base::types::Memory;

/// Instances that wait, which contracts see as a list.
#[derive(Drop)]
pub struct Queue {
    waiting: Vec<Waiting>,
}

impl Model for Queue {
    ghost use Rattle.std.specs.Prelude.{List};
    ghost use Rattle.bound_table.specs.declared.waiting.Waiting.{Waiting};

    ghost Value = { List Waiting };

    ghost view = { λ q. q.waiting.items };
}

impl Queue {
    fn new(alloc: Global) -> Queue
        ensures { result ≡ [] }
    {
        Queue {
            waiting: Vec::new(alloc),
        }
    }

    fn push(&mut self, waiting: Waiting) -> Result<(), Memory>
        ensures { OnOk result (self.new ≡ self.old ++ waiting ∷ []) }
    {
        self.waiting.push(waiting)?;
        Ok(())
    }

    fn copy(&self, alloc: Global) -> Result<Queue, Memory>
        ensures { IfOk result (λ q. q ≡ self.now) }
    {
        let waiting = Vec::from_slice(alloc, &self.waiting)?;
        Ok(Queue { waiting })
    }

    /// The instances as a slice.
    pub fn as_slice(&self) -> &[Waiting]
        ensures { result.now ≡ self.now }
    {
        &self.waiting
    }
}

/// A queue for each place of a row, which contracts see as a list of them.
#[derive(Drop)]
pub struct QueueRow {
    queues: Vec<Queue>,
}

impl Model for QueueRow {
    ghost use Rattle.std.specs.Prelude.{List};
    ghost use Rattle.bound_table.specs.declared.waiting.Waiting.{Waiting};

    ghost Value = { List (List Waiting) };

    ghost view = { λ r. r.queues.items };
}

impl QueueRow {
    fn new(alloc: Global, size: usize) -> Result<QueueRow, Memory>
        ensures { IfOk result (λ r. r ≡ replicate size []) }
    {
        let mut queues = Vec::with_capacity(alloc, size)?;
        for _ in 0..size {
            queues.push(Queue::new(alloc))?;
        }
        Ok(QueueRow { queues })
    }

    fn put(&mut self, y: usize, waiting: Waiting) -> Result<(), Memory>
        requires { y < length self.old }
        ensures { OnOk result (self.new ≡ slice_set self.old y (slice_index_or self.old y [] ++ waiting ∷ [])) }
    {
        self.queues[y].push(waiting)
    }

    fn take(&mut self, alloc: Global, y: usize) -> Queue
        requires { y < length self.old }
        ensures taken { result ≡ slice_index_or self.old y [] }
        ensures left { self.new ≡ slice_set self.old y [] }
    {
        replace(&mut self.queues[y], Queue::new(alloc))
    }

    fn copy(&self, alloc: Global) -> Result<QueueRow, Memory>
        ensures { IfOk result (λ r. r ≡ self.now) }
    {
        let mut queues = Vec::with_capacity(alloc, self.queues.len())?;
        for queue in &self.queues {
            queues.push(queue.copy(alloc)?)?;
        }
        Ok(QueueRow { queues })
    }
}

/// A queue for each pair of places of a table.
#[derive(Drop)]
pub struct Queues {
    pub rows: Vec<QueueRow>,
}

impl Queues {
    /// Queues in which nothing waits, for a table of so many rows.
    pub fn new(alloc: Global, size: usize) -> Result<Queues, Memory>
        ensures { IfOk result (λ q. q.rows.items ≡ replicate size (replicate size [])) }
    {
        let mut rows = Vec::with_capacity(alloc, size)?;
        for _ in 0..size {
            rows.push(QueueRow::new(alloc, size)?)?;
        }
        Ok(Queues { rows })
    }

    /// Puts an instance at the end of the queue of the premise that it watches.
    pub fn put(&mut self, waiting: Waiting) -> Result<(), Memory>
        requires x { waiting.seen.x < length self.old.rows.items }
        requires y { waiting.seen.y < length (slice_index_or self.old.rows.items waiting.seen.x []) }
        ensures { OnOk result (self.new.rows.items ≡ put_in self.old.rows.items waiting.seen.x waiting.seen.y waiting) }
    {
        let seen = waiting.seen;
        self.rows[seen.x].put(seen.y, waiting)
    }

    /// The queue of a pair of places, in which nothing waits after that.
    pub fn take(&mut self, alloc: Global, x: usize, y: usize) -> Queue
        requires x { x < length self.old.rows.items }
        requires y { y < length (slice_index_or self.old.rows.items x []) }
        ensures taken { result ≡ queue self.old.rows.items x y }
        ensures left { self.new.rows.items ≡ without self.old.rows.items x y }
    {
        self.rows[x].take(alloc, y)
    }

    /// Equal queues.
    pub fn copy(&self, alloc: Global) -> Result<Queues, Memory>
        ensures { IfOk result (λ q. q.rows.items ≡ self.now.rows.items) }
    {
        let mut rows = Vec::with_capacity(alloc, self.rows.len())?;
        for row in &self.rows {
            rows.push(row.copy(alloc)?)?;
        }
        Ok(Queues { rows })
    }
}

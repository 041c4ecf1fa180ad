// The rule of the board's table.
use crate::view::View;
use atomic_table::{Seat, Table, TableRule};
use core_machine::work::Work;
use std::alloc::Global;
use std::snapshot::Snapshot;

pub struct Reaches;

impl TableRule<(), View, Snapshot<Work>> for Reaches {
    ghost use Rattle.done_words.specs.Rule.{Keeps};
    ghost use Rattle.done_words.specs.Views.{leading};

    ghost holds = { λ key s. Keeps key.value s };

    ghost first = { λ key. leading key.value };
}

pub type SharedWords = Table<(), View, Snapshot<Work>, Reaches, Global>;

pub type Sit = Seat<(), View>;

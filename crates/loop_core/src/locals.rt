// The locals of a row.
ghost use Rattle.std.specs.Prelude.{◌≡◌, pos, slice_index_or, slice_set};
ghost use Rattle.loop_core.specs.Sequence.{zeros};

use std::marker::Model;

/// The words of the 16 locals of a row, which contracts see as a list. They stand in place and take
/// no memory.
#[derive(Drop)]
pub struct Locals {
    words: [i64; 16],
}

impl Model for Locals {
    ghost use Rattle.std.specs.Prelude.{List, ℤ};

    ghost Value = { List ℤ };

    ghost view = { λ l. l.words };
}

impl Locals {
    /// The locals that a row begins with: all are 0.
    pub fn zeros() -> Locals
        ensures { result ≡ zeros }
    {
        Locals { words: [0; 16] }
    }

    /// The word of a local, and 0 where there is no such local.
    pub fn get(&self, local: u8) -> i64
        ensures { result ≡ slice_index_or self.now local (pos 0) }
    {
        if local < 16 {
            self.words[local as usize]
        } else {
            0
        }
    }

    /// The local keeps the word. Nothing happens where there is no such local.
    pub fn keep(&mut self, local: u8, word: i64)
        ensures { self.new ≡ slice_set self.old local word }
    {
        if local < 16 {
            self.words[local as usize] = word;
        }
    }
}

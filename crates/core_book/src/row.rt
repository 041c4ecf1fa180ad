// How far a row has come.
ghost use Rattle.std.specs.Prelude.{◌≡◌, ◌+◌, ◌<◌, ◌≤◌, ◌^◌, ℤ, List, length};
ghost use Rattle.core_book.specs.declared.book.Book.{Book};
ghost use Rattle.core_book.specs.declared.book.How.{How};
ghost use Rattle.core_rows.specs.Progress.{begun_row};
ghost use Rattle.core_book.specs.Hows.{stepped, how_reads, how_at, progress_before, worked};
ghost use Rattle.core_book.specs.Caught.{IsCaught, progress_of};

use crate::book::{Book, How};
use loop_core::locals::Locals;

/// The locals after the first so many instances of a row, and how many registers these have taken.
#[derive(Drop)]
pub struct Row {
    pub first: usize,
    pub count: usize,
    pub used: usize,
    pub locals: Locals,
}

impl Row {
    /// The row that begins with this instance, before it. It takes no memory.
    pub fn begin(first: usize) -> Row
        ensures first { result.first ≡ first }
        ensures count { result.count ≡ 0 }
        ensures begun { progress_of result ≡ begun_row 16 }
    {
        Row {
            first,
            count: 0,
            used: 0,
            locals: Locals::zeros(),
        }
    }

    /// The value of an instance over the registers of its row. The instances between the last one asked for and
    /// this one are applied once; where this one is of another row, its row is begun. It takes no memory.
    pub fn value(&mut self, book: &Book, hows: &[How], registers: &[i64], at: usize) -> i64
        requires there { at < length hows.now }
        requires before { (how_at hows.now at).before ≤ at }
        requires caught { IsCaught book.now hows.now registers.now self.old }
        requires enough { (progress_before book.now hows.now registers.now at).used ≤ length registers.now }
        ensures value { result ≡ worked book.now hows.now registers.now at }
        ensures caught { IsCaught book.now hows.now registers.now self.new }
    {
        let how = hows[at];
        let before = how.before as usize;
        self.turn_to(at - before, before);
        for place in self.count..before {
            self.step(book, hows[at - before + place], registers);
        }
        book.value(how, &self.locals, registers, self.used)
    }

    // The row that begins with an instance, begun where this is another row or is past so many of its instances.
    fn turn_to(&mut self, first: usize, before: usize)
        ensures first { self.new.first ≡ first }
        ensures count { self.new.count ≤ before }
        ensures caught { (book : Book) (hows : List How) (registers : List ℤ) → IsCaught book hows registers self.old → IsCaught book hows registers self.new }
    {
        if self.first != first || before < self.count {
            *self = Row::begin(first);
        }
    }

    // One instance more.
    fn step(&mut self, book: &Book, how: How, registers: &[i64])
        requires count { self.old.count + 1 < 2 ^ 64 }
        requires used { self.old.used + how_reads book.now how < 2 ^ 64 }
        ensures first { self.new.first ≡ self.old.first }
        ensures count { self.new.count ≡ self.old.count + 1 }
        ensures step { progress_of self.new ≡ stepped book.now registers.now how (progress_of self.old) }
    {
        let value = book.value(how, &self.locals, registers, self.used);
        if let Some(local) = how.keeps {
            self.locals.keep(local, value);
        }
        self.used += book.reads(how);
        self.count += 1;
    }
}

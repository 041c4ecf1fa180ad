// Where the workers stand in their scripts, what they have read, and how far their rows have come.
ghost use Rattle.std.specs.Prelude.{if◌then◌else◌, ◌≡◌, ◌+◌, ◌<◌, ◌^◌, suc, [], ◌∷◌, ◌++◌, List, length, pos, replicate, slice_index_or, slice_set, IfOk};
ghost use Rattle.core_law.specs.Sequential.{kept};
ghost use Rattle.core_law.specs.Machine.{stand};
ghost use Rattle.core_book.specs.declared.book.Book.{Book};
ghost use Rattle.core_book.specs.declared.book.How.{How};
ghost use Rattle.core_book.specs.Caught.{IsCaught};
ghost use Rattle.core_book.specs.Hows.{worked};
ghost use Rattle.core_run.specs.Seats.{IsRoomy, IsThere, AreCaught, stand_at, no_row};

use core_book::book::{Book, How};
use core_book::laws::rows_stay_caught;
use core_book::row::Row;
use std::alloc::Global;
use std::marker::Model;
use wave_base::types::Memory;

/// Where one worker stands, and how far its row has come. The first `len` of its words are its registers.
#[derive(Drop)]
pub struct Standing {
    pub place: usize,
    pub words: Vec<i64>,
    pub len: usize,
    pub row: Row,
}

/// Where all workers stand, each with the same room for registers. Contracts see places, registers and rows
/// as lists.
#[derive(Drop)]
pub struct Standings {
    items: Vec<Standing>,
    room: usize,
}

impl Model for Standings {
    ghost use Rattle.std.specs.Prelude.{map};
    ghost use Rattle.core_run.specs.Seats.{Seats, AreRoomy, stand_at, row_at};

    ghost Value = { Seats };

    ghost view = { λ s. record { stands = map stand_at s.items.items; rows = map row_at s.items.items; room = s.room } };

    ghost invariant = { λ s. AreRoomy s.room s.items.items };
}

impl Standings {
    /// So many workers at the starts of their scripts, each with this room and without registers.
    pub fn begin(alloc: Global, workers: usize, room: usize) -> Result<Standings, Memory>
        ensures stands { IfOk result (λ s. s.stands ≡ replicate workers (stand 0 [])) }
        ensures room { IfOk result (λ s. s.room ≡ room) }
        ensures caught { IfOk result (λ s. (book : Book) (hows : List (List How)) → AreCaught book hows s) }
    {
        let mut items = Vec::with_capacity(alloc, workers)?;
        for _ in 0..workers {
            items.push(begin_standing(alloc, room)?)?;
        }
        Ok(Standings { items, room })
    }

    /// The number of workers.
    pub fn len(&self) -> usize
        ensures { result ≡ length self.now.stands }
    {
        self.items.len()
    }

    /// The place of a worker.
    pub fn place(&self, worker: usize) -> usize
        requires { worker < length self.now.stands }
        ensures { result ≡ (slice_index_or self.now.stands worker (stand 0 [])).place }
    {
        self.items[worker].place
    }

    /// Goes past an action that reads nothing. The first one of a row clears the registers.
    pub fn pass(&mut self, worker: usize, begins: bool)
        requires worker { worker < length self.old.stands }
        requires place { (slice_index_or self.old.stands worker (stand 0 [])).place + 1 < 2 ^ 64 }
        ensures stands { self.new.stands ≡ slice_set self.old.stands worker (stand (suc (slice_index_or self.old.stands worker (stand 0 [])).place) (kept begins (slice_index_or self.old.stands worker (stand 0 [])).registers)) }
        ensures room { self.new.room ≡ self.old.room }
        ensures caught { (book : Book) (hows : List (List How)) → AreCaught book hows self.old → AreCaught book hows self.new }
    {
        let standing = &mut self.items[worker];
        standing.turn(begins);
        standing.place += 1;
    }

    /// Goes past a read, and puts its word after the registers. The first action of a row clears
    /// them before.
    pub fn hold(&mut self, worker: usize, begins: bool, word: i64)
        requires worker { worker < length self.old.stands }
        requires place { (slice_index_or self.old.stands worker (stand 0 [])).place + 1 < 2 ^ 64 }
        requires room { length (kept begins (slice_index_or self.old.stands worker (stand 0 [])).registers) < self.old.room }
        ensures stands { self.new.stands ≡ slice_set self.old.stands worker (stand (suc (slice_index_or self.old.stands worker (stand 0 [])).place) (kept begins (slice_index_or self.old.stands worker (stand 0 [])).registers ++ word ∷ [])) }
        ensures room { self.new.room ≡ self.old.room }
        ensures caught { (book : Book) (hows : List (List How)) → AreCaught book hows self.old → AreCaught book hows self.new }
    {
        rows_stay_caught();
        let standing = &mut self.items[worker];
        standing.turn(begins);
        let len = standing.len;
        standing.words[len] = word;
        standing.len = len + 1;
        standing.place += 1;
    }

    /// Goes past a write, and gives its value over the registers of its row. The instances of the row between
    /// the write before and this one are applied once.
    pub fn work(&mut self, worker: usize, begins: bool, book: &Book, hows: &[How], at: usize) -> i64
        requires worker { worker < length self.old.stands }
        requires place { (slice_index_or self.old.stands worker (stand 0 [])).place + 1 < 2 ^ 64 }
        requires there { IsThere book.now hows.now (kept begins (slice_index_or self.old.stands worker (stand 0 [])).registers) at }
        requires caught { IsCaught book.now hows.now (slice_index_or self.old.stands worker (stand 0 [])).registers (slice_index_or self.old.rows worker no_row) }
        ensures value { result ≡ worked book.now hows.now (kept begins (slice_index_or self.old.stands worker (stand 0 [])).registers) at }
        ensures stands { self.new.stands ≡ slice_set self.old.stands worker (stand (suc (slice_index_or self.old.stands worker (stand 0 [])).place) (kept begins (slice_index_or self.old.stands worker (stand 0 [])).registers)) }
        ensures room { self.new.room ≡ self.old.room }
        ensures caught { (all : List (List How)) → slice_index_or all worker [] ≡ hows.now → AreCaught book.now all self.old → AreCaught book.now all self.new }
    {
        let standing = &mut self.items[worker];
        standing.turn(begins);
        standing.place += 1;
        let registers = &standing.words[..standing.len];
        standing.row.value(book, hows, registers, at)
    }
}

impl Standing {
    // The first action of a row clears the registers and begins the row.
    fn turn(&mut self, begins: bool)
        ensures place { self.new.place ≡ self.old.place }
        ensures words { self.new.words ≡ self.old.words }
        ensures len { self.new.len ≡ (if begins then 0 else self.old.len) }
        ensures caught { (book : Book) (hows : List How) → IsCaught book hows (stand_at self.old).registers self.old.row → IsCaught book hows (stand_at self.new).registers self.new.row }
    {
        if begins {
            self.len = 0;
            self.row = Row::begin(0);
        }
    }
}

fn begin_standing(alloc: Global, room: usize) -> Result<Standing, Memory>
    ensures stand { IfOk result (λ s. stand_at s ≡ stand 0 []) }
    ensures roomy { IfOk result (IsRoomy room) }
    ensures caught { IfOk result (λ s. (book : Book) (hows : List How) → IsCaught book hows [] s.row) }
{
    let words = zeros(alloc, room)?;
    Ok(Standing {
        place: 0,
        words,
        len: 0,
        row: Row::begin(0),
    })
}

fn zeros(alloc: Global, count: usize) -> Result<Vec<i64>, Memory>
    ensures { IfOk result (λ words. words.items ≡ replicate count (pos 0)) }
{
    let words = vec![in alloc; 0; count]?;
    Ok(words)
}

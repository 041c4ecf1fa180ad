// What instances take their values from: the statements' expressions, and words that never change.
ghost use Rattle.std.specs.Prelude.{◌≡◌, drop, take};
ghost use Rattle.core_book.specs.Hows.{how_value, how_reads};

use core_value::evaluate::evaluate;
use loop_core::locals::Locals;
use loop_core::nest::Expr;

/// Where the value of an instance comes from: its statement, the local that keeps it where one does, how many
/// instances of its row come before it, and where its words of arrays that the nest doesn't write begin.
#[derive(Clone, Copy)]
pub struct How {
    pub statement: u16,
    pub keeps: Option<u8>,
    pub before: u32,
    pub from: u64,
}

/// The expression of a statement, with the number of its reads of arrays that the nest writes.
#[derive(Drop)]
pub struct Statement {
    pub value: Expr,
    pub reads: usize,
}

/// The statements, which arrays are written, and the words of other arrays.
#[derive(Drop)]
pub struct Book {
    pub statements: Vec<Statement>,
    pub written: Vec<bool>,
    pub others: Vec<i64>,
}

impl Book {
    /// The value of an instance over locals, and over its own among the registers of its row, which stand from
    /// `used` on. It is 0 where there is no such statement.
    pub fn value(&self, how: How, locals: &Locals, registers: &[i64], used: usize) -> i64
        ensures { result ≡ how_value self.now how locals.now registers.now used }
    {
        match self.statements.get(how.statement as usize) {
            Some(statement) => {
                let own = up_to(from(registers, used), statement.reads);
                let others = from(self.others.as_slice(), how.from as usize);
                evaluate(
                    &statement.value,
                    locals,
                    self.written.as_slice(),
                    own,
                    others,
                )
                .value
            }
            None => 0,
        }
    }

    /// How many registers are an instance's own.
    pub fn reads(&self, how: How) -> usize
        ensures { result ≡ how_reads self.now how }
    {
        match self.statements.get(how.statement as usize) {
            Some(statement) => statement.reads,
            None => 0,
        }
    }
}

fn from(words: &[i64], count: usize) -> &[i64]
    ensures { result.now ≡ drop count words.now }
{
    if count < words.len() {
        &words[count..]
    } else {
        &[]
    }
}

fn up_to(words: &[i64], count: usize) -> &[i64]
    ensures { result.now ≡ take count words.now }
{
    if count < words.len() {
        &words[..count]
    } else {
        words
    }
}

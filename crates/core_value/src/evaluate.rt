// Expressions over words that were read before.
ghost use Rattle.std.specs.Prelude.{◌≡◌, drop};
ghost use Rattle.core_value.specs.Taken.{taken, first_of, flagged};

use loop_core::locals::Locals;
use loop_core::nest::Expr;
use loop_meaning::exprs::operate;
use wave_base::types::ArrayId;

/// A value, and the words that are left.
#[derive(Clone, Copy)]
pub struct Valued<'a> {
    pub value: i64,
    pub registers: &'a [i64],
    pub others: &'a [i64],
}

/// The value of an expression over these locals, where each read takes the first word that is left:
/// that of an array that is written from the registers, any other from the other words. It takes time
/// linear in the expression, and no memory.
pub fn evaluate<'a>(
    expr: &Expr,
    locals: &Locals,
    written: &[bool],
    registers: &'a [i64],
    others: &'a [i64],
) -> Valued<'a>
    ensures value { result.value ≡ (taken (flagged written.now) locals.now expr.now registers.now others.now).value }
    ensures registers { result.registers.now ≡ (taken (flagged written.now) locals.now expr.now registers.now others.now).registers }
    ensures others { result.others.now ≡ (taken (flagged written.now) locals.now expr.now registers.now others.now).others }
{
    match expr {
        Expr::Lit(word) => Valued {
            value: *word,
            registers,
            others,
        },
        Expr::Read(array, _) => {
            if is_written(written, *array) {
                Valued {
                    value: first(registers),
                    registers: rest(registers),
                    others,
                }
            } else {
                Valued {
                    value: first(others),
                    registers,
                    others: rest(others),
                }
            }
        }
        Expr::Local(local) => Valued {
            value: locals.get(*local),
            registers,
            others,
        },
        Expr::Op(op, left, right) => {
            let left = evaluate(left.get(), locals, written, registers, others);
            let right = evaluate(right.get(), locals, written, left.registers, left.others);
            Valued {
                value: operate(*op, left.value, right.value),
                registers: right.registers,
                others: right.others,
            }
        }
    }
}

/// Whether an array is written, by a list of flags.
pub fn is_written(written: &[bool], array: ArrayId) -> bool
    ensures { result ≡ flagged written.now array }
{
    let at = array.0 as usize;
    if at < written.len() {
        written[at]
    } else {
        false
    }
}

fn first(words: &[i64]) -> i64
    ensures { result ≡ first_of words.now }
{
    if words.is_empty() { 0 } else { words[0] }
}

fn rest(words: &[i64]) -> &[i64]
    ensures { result.now ≡ drop 1 words.now }
{
    if words.is_empty() { words } else { &words[1..] }
}

// What a closure knows.
ghost use Rattle.std.specs.Prelude.{◌≡◌, []};
ghost use Rattle.std.specs.List.{cons_option};
ghost use Rattle.inspector_gen.specs.Known.{Bounds, IsTable, knows as is_known, constant_between as constants, constant as constant_of, is_at_most as at_most};

use bound_close::closure::Closure;
use loop_core::nest::Atom;

/// The least bound of `a - b`.
pub fn least(closure: &Closure, a: &Atom, b: &Atom) -> Option<i64>
    ensures { (bounds : Bounds) → IsTable closure.now bounds → result ≡ bounds a.now b.now }
{
    closure.bound(a, b)
}

/// Whether `a - b <= c` is known.
pub fn knows(closure: &Closure, a: &Atom, b: &Atom, c: i128) -> bool
    ensures { (bounds : Bounds) → IsTable closure.now bounds → result ≡ is_known bounds (record { a = a.now; b = b.now; c = c }) }
{
    let least = least(closure, a, b);
    is_at_most(c, least)
}

fn is_at_most(c: i128, least: Option<i64>) -> bool
    ensures { result ≡ at_most c least }
{
    match least {
        Some(least) => least as i128 <= c,
        None => false,
    }
}

/// The constant c of `a = b + c`, where both halves are known.
pub fn constant_between(closure: &Closure, a: &Atom, b: &Atom) -> Option<i64>
    ensures { (bounds : Bounds) → IsTable closure.now bounds → cons_option result [] ≡ constants bounds a.now b.now }
{
    let there = least(closure, a, b);
    let back = least(closure, b, a);
    constant(there, back)
}

fn constant(there: Option<i64>, back: Option<i64>) -> Option<i64>
    ensures { cons_option result [] ≡ constant_of there back }
{
    let Some(there) = there else {
        return None;
    };
    let Some(back) = back else {
        return None;
    };
    if there as i128 + back as i128 == 0 {
        Some(there)
    } else {
        None
    }
}

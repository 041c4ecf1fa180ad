// The operation of a variable.
ghost use Rattle.std.specs.Prelude.{◌≡◌, IfOk};
ghost use Rattle.inspector_gen.specs.Plans.{is_first_side as first, loop_of as loop_with, loop_over_rows as over_rows, operation as op_of, other_row as other, other_side as opposite};

use crate::fixed::is_among;
use crate::kind::Kind;
use crate::unknown::{Span, Unknown};
use inspector_run::plan::InspOp;
use loop_core::copies::copy_term;
use loop_core::nest::{Atom, Side, Term, VarId};
use std::alloc::Global;
use wave_base::types::Memory;

fn other_side(side: Side) -> Side
    ensures { result ≡ opposite side }
{
    match side {
        Side::First => Side::Second,
        Side::Second => Side::First,
        Side::Own => Side::Own,
    }
}

fn other_row(v: VarId) -> VarId
    ensures { result ≡ other v }
{
    VarId {
        line: v.line,
        side: other_side(v.side),
    }
}

fn is_first_side(side: Side) -> bool
    ensures { result ≡ first side }
{
    match side {
        Side::First => true,
        Side::Second => false,
        Side::Own => false,
    }
}

fn loop_over_rows(v: VarId, other: VarId, is_first: bool, is_known: bool) -> InspOp
    ensures { result ≡ over_rows v other is_first is_known }
{
    let zero = Term {
        atom: Atom::Zero,
        plus: 0,
    };
    let rows = Term {
        atom: Atom::N,
        plus: 0,
    };
    if !is_known {
        InspOp::Loop {
            var: v,
            lo: zero,
            hi: rows,
        }
    } else if is_first {
        InspOp::Loop {
            var: v,
            lo: zero,
            hi: Term {
                atom: Atom::Var(other),
                plus: 0,
            },
        }
    } else {
        InspOp::Loop {
            var: v,
            lo: Term {
                atom: Atom::Var(other),
                plus: 1,
            },
            hi: rows,
        }
    }
}

fn loop_of(alloc: Global, earlier: &[VarId], v: VarId, span: &Span) -> Result<InspOp, Memory>
    ensures { IfOk result (λ op. op ≡ loop_with earlier.now v span.now) }
{
    match span {
        Span::Rows => {
            let other = other_row(v);
            let is_known = is_among(earlier, other);
            Ok(loop_over_rows(v, other, is_first_side(v.side), is_known))
        }
        Span::Between { lo, hi } => Ok(InspOp::Loop {
            var: v,
            lo: copy_term(alloc, lo)?,
            hi: copy_term(alloc, hi)?,
        }),
    }
}

/// The operation of a variable of a kind, after those that come earlier.
pub fn operation(
    alloc: Global,
    earlier: &[VarId],
    u: &Unknown,
    kind: Kind,
) -> Result<InspOp, Memory>
    ensures { IfOk result (λ op. op ≡ op_of earlier.now u.now kind) }
{
    let var = u.var;
    match kind {
        Kind::Given { term } => Ok(InspOp::Let { var, term }),
        Kind::Found { array, plus, term } => Ok(InspOp::Find {
            var,
            array,
            plus,
            term,
        }),
        Kind::Located { array, plus, term } => Ok(InspOp::Locate {
            var,
            array,
            plus,
            term,
        }),
        Kind::Looped => loop_of(alloc, earlier, var, &u.span),
    }
}

// The constants on a line.
ghost use Rattle.std.specs.Prelude.{◌≡◌, [], ◌∷◌};
ghost use Rattle.std.specs.List.{list_all, flat_map};
ghost use Rattle.loop_core.specs.IsNest.{is_constant};
ghost use Rattle.loop_syntax.specs.Counts.{constants, value_terms, bounds, has_constants};

use loop_lines::line::{Line, NamedProp};
use loop_lines::tree::{NamedAtom, NamedExpr, NamedTerm};

/// Whether a number is from -1,048,576 to 1,048,576.
fn is_constant(value: i64) -> bool
    ensures { result ≡ is_constant value }
{
    -1_048_576 <= value && value <= 1_048_576
}

/// Whether all constants of a term are within the limit, those in brackets too.
fn has_constants(term: &NamedTerm) -> bool
    ensures { result ≡ list_all is_constant (constants term.now) }
{
    match &term.atom {
        NamedAtom::At(_, inner) => has_constants(inner.get()) && is_constant(term.plus),
        _ => is_constant(term.plus),
    }
}

fn have_constants(first: &NamedTerm, second: &NamedTerm) -> bool
    ensures { result ≡ list_all is_constant (flat_map constants (first.now ∷ second.now ∷ [])) }
{
    has_constants(first) && has_constants(second)
}

/// Whether the terms in an expression are so. The numbers of the expression itself have no limit.
fn value_has_constants(value: &NamedExpr) -> bool
    ensures { result ≡ list_all is_constant (flat_map constants (value_terms value.now)) }
{
    match value {
        NamedExpr::Lit(_) => true,
        NamedExpr::Read(_, at) => has_constants(at),
        NamedExpr::Local(_) => true,
        NamedExpr::Op(_, left, right) => {
            value_has_constants(left.get()) && value_has_constants(right.get())
        }
    }
}

fn prop_has_constants(prop: &NamedProp) -> bool
    ensures { result ≡ list_all is_constant (flat_map constants (bounds prop.now)) }
{
    match prop {
        NamedProp::Range(_, lo, hi) => have_constants(lo, hi),
        _ => true,
    }
}

/// Whether all constants of the terms on a line are from -1,048,576 to 1,048,576.
pub fn line_has_constants(line: &Line) -> bool
    ensures { result ≡ has_constants line.now }
{
    match line {
        Line::Prop(prop) => prop_has_constants(prop),
        Line::For(_, lo, hi) => have_constants(lo, hi),
        Line::When(_, left, right) => have_constants(left, right),
        Line::Set(_, at, value) => has_constants(at) && value_has_constants(value),
        Line::Keep(_, value) => value_has_constants(value),
        _ => true,
    }
}

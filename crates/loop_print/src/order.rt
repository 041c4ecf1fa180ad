// The lines above the loop in the order of their numbers.
ghost use Rattle.std.specs.Prelude.{◌≡◌, ◌∷◌, [], MatchOption, List};
ghost use Rattle.loop_core.specs.declared.decl.Decl.{Decl};
ghost use Rattle.loop_print.specs.PrintHeads.{head_lines};
ghost use Rattle.loop_print.specs.PrintOrder.{line_of, side_lines, lines_left};

use loop_core::decl::{Decl, LocalDecl, PropDecl};
use loop_core::nest::Nest;

/// A line above the loop: a declaration, a local or a property.
#[derive(Clone, Copy)]
pub enum Head<'a> {
    Declares(&'a Decl),
    Keeps(&'a LocalDecl),
    States(&'a PropDecl),
}

/// The lines above the loop that are left, those of each kind in the order of their numbers.
#[derive(Clone, Copy)]
pub struct Heads<'a> {
    pub decls: &'a [Decl],
    pub locals: &'a [LocalDecl],
    pub props: &'a [PropDecl],
}

/// All lines above the loop.
pub fn heads_of(nest: &Nest) -> Heads<'_>
    ensures { (all : List Decl) → lines_left all result ≡ head_lines all nest.now.decls nest.now.locals nest.now.props }
{
    Heads {
        decls: nest.decls.as_slice(),
        locals: nest.locals.as_slice(),
        props: nest.props.as_slice(),
    }
}

impl Head<'_> {
    fn number(&self) -> u16
        ensures { (all : List Decl) → (line_of all self.now).number ≡ result }
    {
        match self {
            Head::Declares(decl) => decl.line,
            Head::Keeps(local) => local.line,
            Head::States(prop) => prop.line,
        }
    }
}

impl<'a> Heads<'a> {
    /// The first local or property, and what is left without it.
    fn next_side(self) -> Option<(Head<'a>, Heads<'a>)>
        ensures { (all : List Decl) → MatchOption result (side_lines all self.entry ≡ []) (λ x. (side_lines all self.entry ≡ line_of all x.0 ∷ side_lines all x.1) × (x.1.decls.now ≡ self.entry.decls.now)) }
    {
        match (self.locals.split_first(), self.props.split_first()) {
            (None, None) => None,
            (None, Some((prop, props))) => Some((Head::States(prop), Heads { props, ..self })),
            (Some((local, locals)), None) => Some((Head::Keeps(local), Heads { locals, ..self })),
            (Some((local, locals)), Some((prop, props))) => {
                if prop.line < local.line {
                    Some((Head::States(prop), Heads { props, ..self }))
                } else {
                    Some((Head::Keeps(local), Heads { locals, ..self }))
                }
            }
        }
    }

    /// The first line, and what is left without it.
    pub fn next(self) -> Option<(Head<'a>, Heads<'a>)>
        ensures { (all : List Decl) → MatchOption result (lines_left all self.entry ≡ []) (λ x. lines_left all self.entry ≡ line_of all x.0 ∷ lines_left all x.1) }
    {
        let Some((decl, decls)) = self.decls.split_first() else {
            return self.next_side();
        };
        let own = Heads { decls, ..self };
        match self.next_side() {
            Some((side, rest)) => {
                if side.number() < decl.line {
                    Some((side, rest))
                } else {
                    Some((Head::Declares(decl), own))
                }
            }
            None => Some((Head::Declares(decl), own)),
        }
    }
}

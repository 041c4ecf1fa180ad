// The nest, gathered line by line.
ghost use Rattle.std.specs.Prelude.{◌≡◌, ◌<◌, ◌+◌, ◌^◌, ◌++◌, [], ◌∷◌, IfOk};
ghost use Rattle.loop_syntax.specs.Scope.{empty, scope_after};
ghost use Rattle.loop_syntax.specs.Resolved.{declaration, property, local};
ghost use Rattle.loop_syntax.specs.Narrow.{IsNarrow};
ghost use Rattle.loop_syntax.specs.Stages.{Above, Behind, AreNested, AreFew};
ghost use Rattle.loop_syntax.specs.Bodies.{stage_of};
ghost use Rattle.loop_syntax.specs.Gathering.{Grows, IsMade};
ghost use Rattle.loop_syntax.specs.declared.body.Body.TheVariants.{Above as above};
ghost use Rattle.loop_syntax.specs.TextNest.{IsNestOf};

use crate::body::{Body, go_on};
use crate::numbered::Numbered;
use crate::resolve::prop_in;
use crate::scope::Scope;
use loop_core::decl::{Decl, DeclKind, LocalDecl, PropDecl};
use loop_core::name::Name;
use loop_core::nest::Nest;
use loop_lines::line::Line;
use sqlite_items::Items;
use std::alloc::Global;
use wave_base::types::Memory;

/// What the lines so far give.
#[derive(Drop)]
pub struct Gathered {
    pub decls: Items<Decl>,
    pub props: Items<PropDecl>,
    pub locals: Items<LocalDecl>,
    pub body: Body,
}

fn declare(decls: &mut Items<Decl>, line: u16, name: &Name, kind: DeclKind) -> Result<(), Memory>
    ensures { IfOk result (λ _. decls.new ≡ decls.old ++ record { line = line; name = name.now; kind = kind } ∷ []) }
{
    decls.push(Decl {
        line,
        name: name.copy(),
        kind,
    })?;
    Ok(())
}

fn add_declaration(decls: &mut Items<Decl>, number: u16, line: &Line) -> Result<(), Memory>
    ensures { IfOk result (λ _. decls.new ≡ decls.old ++ declaration number line.now) }
{
    match line {
        Line::Matrix(name, form) => declare(decls, number, name, DeclKind::Matrix(*form)),
        Line::Index(name, size) => declare(decls, number, name, DeclKind::Index(*size)),
        Line::Vector(name, size, source) => {
            declare(decls, number, name, DeclKind::Vector(*size, *source))
        }
        _ => Ok(()),
    }
}

fn add_property(
    alloc: Global,
    props: &mut Items<PropDecl>,
    scope: &Scope,
    number: u16,
    line: &Line,
) -> Result<(), Memory>
    requires { IsNarrow scope.now }
    ensures { IfOk result (λ _. props.new ≡ props.old ++ property scope.now number line.now) }
{
    match line {
        Line::Prop(prop) => {
            let kind = prop_in(alloc, scope, prop)?;
            props.push(PropDecl { line: number, kind })?;
            Ok(())
        }
        _ => Ok(()),
    }
}

fn add_local(locals: &mut Items<LocalDecl>, number: u16, line: &Line) -> Result<(), Memory>
    ensures { IfOk result (λ _. locals.new ≡ locals.old ++ local number line.now) }
{
    match line {
        Line::Local(name) => {
            locals.push(LocalDecl {
                line: number,
                name: name.copy(),
            })?;
            Ok(())
        }
        _ => Ok(()),
    }
}

impl Gathered {
    fn new(alloc: Global) -> Gathered
        ensures decls { result.decls ≡ [] }
        ensures props { result.props ≡ [] }
        ensures locals { result.locals ≡ [] }
        ensures body { result.body ≡ above }
    {
        Gathered {
            decls: Items::new(alloc),
            props: Items::new(alloc),
            locals: Items::new(alloc),
            body: Body::Above,
        }
    }

    /// What a line adds.
    fn add(self, alloc: Global, scope: &Scope, next: &Numbered) -> Result<Gathered, Memory>
        requires narrow { IsNarrow scope.now }
        requires small { next.now.number < 65536 }
        ensures { IfOk result (λ g. Grows scope.now next.now self g) }
    {
        let Gathered {
            mut decls,
            mut props,
            mut locals,
            body,
        } = self;
        let number = next.number as u16;
        add_declaration(&mut decls, number, &next.line)?;
        add_property(alloc, &mut props, scope, number, &next.line)?;
        add_local(&mut locals, number, &next.line)?;
        let body = go_on(alloc, scope, body, number, &next.line)?;
        Ok(Gathered {
            decls,
            props,
            locals,
            body,
        })
    }

    /// The nest, after the loop's end.
    fn nest(self) -> Nest
        requires { stage_of self.body ≡ Behind }
        ensures { IsMade self result }
    {
        let Gathered {
            decls,
            props,
            locals,
            body,
        } = self;
        let Body::Behind(line, name, body) = body else {
            unreachable!()
        };
        Nest {
            decls,
            props,
            locals,
            line,
            name,
            body,
        }
    }
}

/// What a line adds, with the scope after it.
fn step(
    alloc: Global,
    scope: &mut Scope,
    so_far: Gathered,
    next: &Numbered,
) -> Result<Gathered, Memory>
    requires narrow { IsNarrow scope.old }
    requires small { next.now.number < 65536 }
    requires few { scope.old.arrays + scope.old.locals + 4 < 2 ^ 32 }
    ensures grows { IfOk result (λ g. Grows scope.old next.now so_far g) }
    ensures scope { IfOk result (λ _. scope.new ≡ scope_after scope.old next.now) }
{
    let so_far = so_far.add(alloc, scope, next)?;
    scope.pass(next.number, &next.line)?;
    Ok(so_far)
}

/// The nest of lines that fit and pass no limit.
pub fn build(alloc: Global, lines: &[Numbered]) -> Result<Nest, Memory>
    requires nested { AreNested Above lines.now }
    requires few { AreFew empty lines.now }
    ensures { IfOk result (λ nest. IsNestOf lines.now nest) }
{
    let mut scope = Scope::new(alloc);
    let mut so_far = Gathered::new(alloc);
    for next in lines {
        so_far = step(alloc, &mut scope, so_far, next)?;
    }
    Ok(so_far.nest())
}

// The outer loop and its items, line by line.
ghost use Rattle.std.specs.Prelude.{◌≡◌, ◌+◌, length, Some, IfOk};
ghost use Rattle.loop_lines.specs.declared.line.Line.TheVariants.{End as end};
ghost use Rattle.loop_syntax.specs.Narrow.{IsNarrow};
ghost use Rattle.loop_syntax.specs.Nesting.{Opens, Sets, Keeps, Ends};
ghost use Rattle.loop_syntax.specs.Stages.{Within as within, stage_within};
ghost use Rattle.loop_syntax.specs.Bodies.{Adds, Goes};
ghost use Rattle.loop_syntax.specs.declared.body.Body.TheVariants as bodies;
ghost use Rattle.loop_syntax.specs.Resolved.{array_in as array_number, local_in as local_value, term_in as term_value, value_in as expr_value};
ghost use Rattle.loop_syntax.specs.declared.items.Head.TheVariants.{For as repeats, When as guards};

use crate::items::{Head, OpenBlock, add_kept, add_statement, close_block};
use crate::resolve::{array_in, local_in, term_in, value_in};
use crate::scope::Scope;
use loop_core::name::Name;
use loop_core::nest::{Item, Rel};
use loop_lines::line::Line;
use loop_lines::tree::{ArrayName, NamedExpr, NamedTerm};
use sqlite_items::Items;
use std::alloc::Global;
use wave_base::types::Memory;

/// The outer loop before its end: its line and variable, the blocks that are open in it, and the
/// items in the innermost of them.
#[derive(Drop)]
pub struct OpenLoop {
    pub line: u16,
    pub name: Name,
    pub around: Items<OpenBlock>,
    pub items: Items<Item>,
}

/// What the lines so far are of the outer loop.
#[derive(Drop)]
pub enum Body {
    /// None of it.
    Above,
    /// A part of it.
    Within(OpenLoop),
    /// All of it: its line, its variable and its items.
    Behind(u16, Name, Items<Item>),
}

impl OpenLoop {
    /// A block begins. The items before it wait with it.
    fn begin(self, alloc: Global, line: u16, head: Head) -> Result<Body, Memory>
        ensures { IfOk result (λ b. Adds self (Some (within (length self.around + 1))) (Opens line head) b) }
    {
        let OpenLoop {
            line: own,
            name,
            mut around,
            items,
        } = self;
        around.push(OpenBlock {
            line,
            head,
            before: items,
        })?;
        Ok(Body::Within(OpenLoop {
            line: own,
            name,
            around,
            items: Items::new(alloc),
        }))
    }

    fn repeat(
        self,
        alloc: Global,
        scope: &Scope,
        line: u16,
        name: &Name,
        lo: &NamedTerm,
        hi: &NamedTerm,
    ) -> Result<Body, Memory>
        requires { IsNarrow scope.now }
        ensures { IfOk result (λ b. Adds self (Some (within (length self.around + 1))) (Opens line (repeats name.now (term_value scope.now lo.now) (term_value scope.now hi.now))) b) }
    {
        let lo = term_in(alloc, scope, lo)?;
        let hi = term_in(alloc, scope, hi)?;
        self.begin(alloc, line, Head::For(name.copy(), lo, hi))
    }

    fn guard(
        self,
        alloc: Global,
        scope: &Scope,
        line: u16,
        rel: Rel,
        left: &NamedTerm,
        right: &NamedTerm,
    ) -> Result<Body, Memory>
        requires { IsNarrow scope.now }
        ensures { IfOk result (λ b. Adds self (Some (within (length self.around + 1))) (Opens line (guards rel (term_value scope.now left.now) (term_value scope.now right.now))) b) }
    {
        let left = term_in(alloc, scope, left)?;
        let right = term_in(alloc, scope, right)?;
        self.begin(alloc, line, Head::When(rel, left, right))
    }

    /// A statement.
    fn set(
        self,
        alloc: Global,
        scope: &Scope,
        line: u16,
        array: &ArrayName,
        at: &NamedTerm,
        value: &NamedExpr,
    ) -> Result<Body, Memory>
        requires { IsNarrow scope.now }
        ensures { IfOk result (λ b. Adds self (Some (within (length self.around))) (Sets line (array_number scope.now array.now) (term_value scope.now at.now) (expr_value scope.now value.now)) b) }
    {
        let at = term_in(alloc, scope, at)?;
        let value = value_in(alloc, scope, value)?;
        let OpenLoop {
            line: own,
            name,
            around,
            items,
        } = self;
        let items = add_statement(items, line, array_in(scope, array), at, value)?;
        Ok(Body::Within(OpenLoop {
            line: own,
            name,
            around,
            items,
        }))
    }

    /// A statement that keeps a local.
    fn keep(
        self,
        alloc: Global,
        scope: &Scope,
        line: u16,
        local: &Name,
        value: &NamedExpr,
    ) -> Result<Body, Memory>
        requires { IsNarrow scope.now }
        ensures { IfOk result (λ b. Adds self (Some (within (length self.around))) (Keeps line (local_value scope.now local.now) (expr_value scope.now value.now)) b) }
    {
        let value = value_in(alloc, scope, value)?;
        let OpenLoop {
            line: own,
            name,
            around,
            items,
        } = self;
        let items = add_kept(items, line, local_in(scope, local), value)?;
        Ok(Body::Within(OpenLoop {
            line: own,
            name,
            around,
            items,
        }))
    }

    /// The end of the innermost open block, or of the loop itself.
    fn end(self) -> Result<Body, Memory>
        ensures { IfOk result (λ b. Adds self (stage_within (length self.around) end) Ends b) }
    {
        let OpenLoop {
            line,
            name,
            mut around,
            items,
        } = self;
        let Some(block) = around.pop() else {
            return Ok(Body::Behind(line, name, items));
        };
        let items = close_block(block, items)?;
        Ok(Body::Within(OpenLoop {
            line,
            name,
            around,
            items,
        }))
    }

    /// A line inside the loop.
    fn go_on(self, alloc: Global, scope: &Scope, number: u16, line: &Line) -> Result<Body, Memory>
        requires { IsNarrow scope.now }
        ensures { IfOk result (λ b. Goes scope.now number line.now (bodies.Within self) b) }
    {
        match line {
            Line::For(name, lo, hi) => self.repeat(alloc, scope, number, name, lo, hi),
            Line::When(rel, left, right) => self.guard(alloc, scope, number, *rel, left, right),
            Line::Set(array, at, value) => self.set(alloc, scope, number, array, at, value),
            Line::Keep(name, value) => self.keep(alloc, scope, number, name, value),
            Line::End => self.end(),
            _ => Ok(Body::Within(self)),
        }
    }
}

/// The first line of the loop, or a line above it.
fn go_above(alloc: Global, scope: &Scope, number: u16, line: &Line) -> Body
    ensures { Goes scope.now number line.now bodies.Above result }
{
    match line {
        Line::Loop(name) => Body::Within(OpenLoop {
            line: number,
            name: name.copy(),
            around: Items::new(alloc),
            items: Items::new(alloc),
        }),
        _ => Body::Above,
    }
}

/// The body with a line after it, where the line can stand there.
pub fn go_on(
    alloc: Global,
    scope: &Scope,
    body: Body,
    number: u16,
    line: &Line,
) -> Result<Body, Memory>
    requires { IsNarrow scope.now }
    ensures { IfOk result (λ b. Goes scope.now number line.now body b) }
{
    match body {
        Body::Above => Ok(go_above(alloc, scope, number, line)),
        Body::Within(open) => open.go_on(alloc, scope, number, line),
        Body::Behind(own, name, items) => Ok(Body::Behind(own, name, items)),
    }
}

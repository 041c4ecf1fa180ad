// Blocks of items and their lines.
ghost use Rattle.std.specs.Prelude.{◌≡◌, ◌++◌, [], ◌∷◌, IfOk};
ghost use Rattle.loop_syntax.specs.Nesting.{Opens, Sets, Keeps, Ends, item_marks, marks};

use loop_core::name::Name;
use loop_core::nest::{Expr, Item, Rel, Term};
use sqlite_items::Items;
use wave_base::types::{ArrayId, Memory};

/// The first line of a block.
#[derive(Drop)]
pub enum Head {
    For(Name, Term, Term),
    When(Rel, Term, Term),
}

/// A block that is open, with the items before it in the block round it.
#[derive(Drop)]
pub struct OpenBlock {
    pub line: u16,
    pub head: Head,
    pub before: Items<Item>,
}

fn block(line: u16, head: Head, body: Items<Item>) -> Item
    ensures { item_marks result ≡ Opens line head ∷ (marks body ++ Ends ∷ []) }
{
    match head {
        Head::For(name, lo, hi) => Item::For {
            line,
            name,
            lo,
            hi,
            body,
        },
        Head::When(rel, left, right) => Item::When {
            line,
            rel,
            left,
            right,
            body,
        },
    }
}

fn add(before: Items<Item>, item: Item) -> Result<Items<Item>, Memory>
    ensures { IfOk result (λ items. marks items ≡ marks before ++ item_marks item) }
{
    let mut items = before;
    items.push(item)?;
    Ok(items)
}

/// The items with a statement after them.
pub fn add_statement(
    before: Items<Item>,
    line: u16,
    array: ArrayId,
    at: Term,
    value: Expr,
) -> Result<Items<Item>, Memory>
    ensures { IfOk result (λ items. marks items ≡ marks before ++ Sets line array at value ∷ []) }
{
    let item = Item::Set {
        line,
        array,
        at,
        value,
    };
    add(before, item)
}

/// The items with a statement after them that keeps a local.
pub fn add_kept(
    before: Items<Item>,
    line: u16,
    local: u8,
    value: Expr,
) -> Result<Items<Item>, Memory>
    ensures { IfOk result (λ items. marks items ≡ marks before ++ Keeps line local value ∷ []) }
{
    add(before, Item::Keep { line, local, value })
}

/// The items before a block, and the block after them, which has these items.
pub fn close_block(begun: OpenBlock, body: Items<Item>) -> Result<Items<Item>, Memory>
    ensures { IfOk result (λ items. marks items ≡ marks begun.before ++ Opens begun.line begun.head ∷ (marks body ++ Ends ∷ [])) }
{
    let OpenBlock { line, head, before } = begun;
    add(before, block(line, head, body))
}

// What names stand for, in a table that finds a name by its hash.
ghost use Rattle.std.specs.Prelude.{◌≡◌, ℕ, List, ◌∷◌, [], IsSome, IfOk, OnOk};
ghost use Rattle.std.proofs.Common.{ap};
ghost use Rattle.std.specs.Cmp.{partial_equiv_from_equiv};
ghost use Rattle.std.specs.Cmp.Lexicographic.{bytes_decides, on_texts_equal};
ghost use Rattle.std.specs.HashMap.{get};
ghost use Rattle.std.specs.Str.{bytes_eq};
ghost use Rattle.loop_syntax.specs.Standing.{same_key, key, standing_of, first_meaning, and_declared, with_variable, own_meaning, ChangesAt};

use crate::scope::Meaning;
use loop_core::name::Name;
use std::collections::HashMap;
use std::hash::{Hash, Hasher};
use wave_base::types::Memory;

/// A name by which a table is asked. Two are equal where their bytes are.
#[derive(Drop)]
pub struct Key {
    pub name: Name,
}

impl PartialEq for Key {
    ghost eq = { λ a b. bytes_eq a.name b.name };

    ghost laws = { partial_equiv_from_equiv (on_texts_equal (λ k. k.name)) };

    fn eq(&self, other: &Key) -> bool {
        self.name.as_slice() == other.name.as_slice()
    }
}

impl Eq for Key {
    ghost laws = { on_texts_equal (λ k. k.name) };
}

impl Hash for Key {
    ghost hash_input = { λ k. k.name ∷ [] };

    ghost respects_eq = { λ a b h. ap (λ name. name ∷ []) ((bytes_decides a.name b.name).0 h) };

    fn hash<H: Hasher>(&self, state: &mut H) {
        state.write(self.name.as_slice());
    }
}

/// What a name stands for among the declared names, and the line of the innermost loop that has it
/// as its variable.
#[derive(Clone, Copy, Debug)]
pub struct Standing {
    pub declared: Option<Meaning>,
    pub variable: Option<u32>,
}

/// The first of two meanings.
fn first_meaning(first: Option<Meaning>, second: Option<Meaning>) -> Option<Meaning>
    ensures { result ≡ first_meaning first second }
{
    match first {
        Some(meaning) => Some(meaning),
        None => second,
    }
}

/// What a name means: a variable goes before a declared name.
pub fn own_meaning(own: Standing) -> Option<Meaning>
    ensures { result ≡ own_meaning own }
{
    match own.variable {
        Some(line) => Some(Meaning::Variable(line)),
        None => own.declared,
    }
}

/// What names stand for.
pub type Standings = HashMap<Key, Standing>;

/// What a name stands for in a table.
pub fn standing_of(table: &Standings, name: &Name) -> Standing
    ensures { result ≡ standing_of table.now name.now }
{
    match table.get(&Key { name: name.copy() }) {
        Some(own) => *own,
        None => Standing {
            declared: None,
            variable: None,
        },
    }
}

/// What a name stands for in a table, which has room for it from then on.
pub fn make_room(table: &mut Standings, name: &Name) -> Result<Standing, Memory>
    ensures own { IfOk result (λ own. own ≡ standing_of table.old name.now) }
    ensures present { OnOk result (IsSome (get same_key table.new (key name.now))) }
    ensures same { (other : List ℕ) → standing_of table.new other ≡ standing_of table.old other }
{
    let own = table.entry(Key { name: name.copy() })?.or_insert(Standing {
        declared: None,
        variable: None,
    });
    Ok(*own)
}

/// A name of the table stands for this too, unless it is declared already.
pub fn put_declared(table: &mut Standings, name: &Name, meaning: Meaning)
    requires { IsSome (get same_key table.old (key name.now)) }
    ensures { ChangesAt name.now (λ own. and_declared own meaning) table.old table.new }
{
    if let Some(own) = table.get_mut(&Key { name: name.copy() }) {
        own.declared = first_meaning(own.declared, Some(meaning));
    }
}

/// A name of the table is now the variable of the loop on this line, or of none.
pub fn put_variable(table: &mut Standings, name: &Name, line: Option<u32>)
    requires { IsSome (get same_key table.old (key name.now)) }
    ensures { ChangesAt name.now (λ own. with_variable own line) table.old table.new }
{
    if let Some(own) = table.get_mut(&Key { name: name.copy() }) {
        own.variable = line;
    }
}

// The entries of a universe, grouped by array.
ghost use Rattle.std.specs.Prelude.{◌≡◌, ◌≤◌, ◌+◌, ◌^◌, ◌++◌, [], ◌∷◌, unsigned_abs, OnOk, IfOk};
ghost use Rattle.loop_core.specs.declared.nest.Atom.{out-Atom};
ghost use Rattle.uf_constraints.specs.Constants.{IndexWithin, IndexesWithin};
ghost use Rattle.uf_constraints.specs.Universe.{next};
ghost use Rattle.index_props.specs.Entries.{entries as entries_in, entry_at, if_of, of_array as those_of, has_entry as among};
ghost use Rattle.index_props.specs.Within.{EntriesWithin};

use crate::entry::{Entry, next_term};
use loop_core::copies::copy_term;
use loop_core::decl::Decl;
use loop_core::nest::{Atom, Term};
use sqlite_items::Items;
use std::alloc::Global;
use uf_constraints::same::same_term;
use wave_base::types::{ArrayId, Memory};

/// The entries among the atoms, in their order.
pub fn entries(alloc: Global, decls: &[Decl], atoms: &[Atom]) -> Result<Items<Entry>, Memory>
    requires { IndexesWithin (2 ^ 21 + 1) atoms.now }
    ensures entries { IfOk result (λ es. es ≡ entries_in decls.now atoms.now) }
    ensures within { IfOk result EntriesWithin }
{
    let mut found = Items::new(alloc);
    for atom in atoms {
        push_entry(alloc, decls, atom, &mut found)?;
    }
    Ok(found)
}

fn push_entry(
    alloc: Global,
    decls: &[Decl],
    atom: &Atom,
    into: &mut Items<Entry>,
) -> Result<(), Memory>
    requires atom { IndexWithin (2 ^ 21 + 1) (out-Atom atom.now) }
    requires into { EntriesWithin into.old }
    ensures entry { OnOk result (into.new ≡ into.old ++ entry_at decls.now atom.now) }
    ensures within { OnOk result (EntriesWithin into.new) }
{
    match atom {
        Atom::At(array, index) => {
            let index = copy_term(alloc, index.get())?;
            push_one(Entry::of(alloc, decls, *array, index)?, into)
        }
        Atom::Zero => Ok(()),
        Atom::N => Ok(()),
        Atom::Nnz => Ok(()),
        Atom::Var(_) => Ok(()),
    }
}

#[tactic(auto, using(crate::proofs::Pushed::pushed_within))]
fn push_one(entry: Entry, into: &mut Items<Entry>) -> Result<(), Memory>
    requires entry { unsigned_abs entry.index.plus ≤ 2 ^ 21 + 1 }
    requires into { EntriesWithin into.old }
    ensures entry { OnOk result (into.new ≡ into.old ++ entry ∷ []) }
    ensures within { OnOk result (EntriesWithin into.new) }
{
    into.push(entry)?;
    Ok(())
}

/// The entries of one array, in their order.
pub fn of_array(alloc: Global, array: ArrayId, es: &[Entry]) -> Result<Items<Entry>, Memory>
    requires { EntriesWithin es.now }
    ensures entries { IfOk result (λ found. found ≡ those_of array es.now) }
    ensures within { IfOk result EntriesWithin }
{
    let mut found = Items::new(alloc);
    for e in es {
        push_if_of(alloc, array, e, &mut found)?;
    }
    Ok(found)
}

fn push_if_of(
    alloc: Global,
    array: ArrayId,
    e: &Entry,
    into: &mut Items<Entry>,
) -> Result<(), Memory>
    requires entry { unsigned_abs e.now.index.plus ≤ 2 ^ 21 + 1 }
    requires into { EntriesWithin into.old }
    ensures entry { OnOk result (into.new ≡ into.old ++ if_of array e.now) }
    ensures within { OnOk result (EntriesWithin into.new) }
{
    if e.array() == array {
        push_one(e.copy(alloc)?, into)
    } else {
        Ok(())
    }
}

/// Whether the array's entry at this argument is among them. It takes no memory.
pub fn has_entry(es: &[Entry], array: ArrayId, index: &Term) -> bool
    ensures { result ≡ among es.now array index.now }
{
    es.iter()
        .any(|e| e.array() == array && same_term(index, e.index()))
}

/// Whether the array's entry at the argument that is greater by 1 is among them.
pub fn has_next(alloc: Global, es: &[Entry], array: ArrayId, index: &Term) -> Result<bool, Memory>
    requires { unsigned_abs index.now.plus ≤ 2 ^ 22 }
    ensures { IfOk result (λ b. b ≡ among es.now array (next index.now)) }
{
    let after = next_term(alloc, index)?;
    Ok(has_entry(es, array, &after))
}

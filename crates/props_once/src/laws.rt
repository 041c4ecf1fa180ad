// What follows from properties follows from them without repeats, and the other way round.
ghost use Rattle.std.specs.Prelude.{◌≡◌, ◌↔◌, ℤ, List};
ghost use Rattle.std.specs.List.{Contains};
ghost use Rattle.loop_core.specs.declared.decl.Decl.{Decl};
ghost use Rattle.loop_core.specs.declared.decl.PropDecl.{PropDecl};
ghost use Rattle.loop_core.specs.declared.nest.Atom.{Atom};
ghost use Rattle.loop_core.specs.declared.nest.Term.{Term};
ghost use Rattle.loop_core.specs.Lists.{Lists};
ghost use Rattle.uf_constraints.specs.declared.system.Diff.{Diff};
ghost use Rattle.uf_constraints.specs.Universe.{atoms_due};
ghost use Rattle.index_props.specs.Derivable.{Derivable, IsContradictory};
ghost use Rattle.index_props.specs.Meanings.{Passes};
ghost use Rattle.index_props.specs.Rules.{instances_of};
ghost use Rattle.index_props.specs.Sound.{AllNameIndexes};
ghost use Rattle.index_props.specs.Within.{AllBoundsWithin};
ghost use Rattle.props_once.specs.Repeats.{without_repeats};

/// Each property is one of those without repeats, its line aside, and each of those is declared.
pub fn each_is_declared_once()
    ensures kept { (props : List PropDecl) (p : PropDecl) → Contains props p
        → (q : PropDecl) × Contains (without_repeats props) q × (q.kind ≡ p.kind) }
    ensures declared { (props : List PropDecl) (q : PropDecl) → Contains (without_repeats props) q → Contains props q }
{}

/// What is derivable by the instances of the properties is derivable by those of the properties
/// without repeats, and the other way round, so both are contradictory or neither is.
pub fn the_same_is_derivable()
    ensures derivable { (decls : List Decl) (props : List PropDecl) (u : List Atom) (base : List Diff) (a b : Atom) (c : ℤ)
        → Derivable u base (instances_of decls props u) a b c ↔ Derivable u base (instances_of decls (without_repeats props) u) a b c }
    ensures contradictory { (decls : List Decl) (props : List PropDecl) (u : List Atom) (base : List Diff)
        → IsContradictory u base (instances_of decls props u) ↔ IsContradictory u base (instances_of decls (without_repeats props) u) }
{}

/// The same atoms are due, in the same order.
pub fn the_same_atoms_are_due()
    ensures { (base : List Diff) (extra : List Term) (props : List PropDecl)
        → atoms_due base extra (without_repeats props) ≡ atoms_due base extra props }
{}

/// The same arrays pass.
pub fn the_same_arrays_pass()
    ensures { (props : List PropDecl) (a : Lists) → Passes (without_repeats props) a ↔ Passes props a }
{}

/// Properties without repeats name index arrays and have small bounds where all properties do.
pub fn conditions_carry_over()
    ensures names { (decls : List Decl) (props : List PropDecl) → AllNameIndexes decls props → AllNameIndexes decls (without_repeats props) }
    ensures bounds { (props : List PropDecl) → AllBoundsWithin props → AllBoundsWithin (without_repeats props) }
{}

// What is derivable is true.
ghost use Rattle.std.specs.Prelude.{List};
ghost use Rattle.loop_core.specs.declared.decl.Decl.{Decl};
ghost use Rattle.loop_core.specs.declared.decl.PropDecl.{PropDecl};
ghost use Rattle.loop_core.specs.declared.nest.Atom.{Atom};
ghost use Rattle.uf_constraints.specs.declared.system.Diff.{Diff};
ghost use Rattle.index_props.specs.Derivable.{Derivable};
ghost use Rattle.index_props.specs.Rules.{instances_of};
ghost use Rattle.index_props.specs.Sound.{AllNameIndexes};
ghost use Rattle.cert_check.specs.Answer.{IsTrueFor};

/// What is derivable by the instances of a universe, of declarations and of properties is true for all
/// arrays of the declared lengths that have the properties, and all values of the variables that make
/// the base true. It does nothing; its contract is the law.
pub fn derivable_is_true()
    ensures { (u : List Atom) (base : List Diff) (decls : List Decl) (props : List PropDecl) (d : Diff) → AllNameIndexes decls props
        → Derivable u base (instances_of decls props u) d.a d.b d.c → IsTrueFor decls props base d }
{}

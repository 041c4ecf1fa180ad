// The instances of a universe can be handed to `close`.
ghost use Rattle.std.specs.Prelude.{◌+◌, ◌^◌, List};
ghost use Rattle.loop_core.specs.declared.decl.Decl.{Decl};
ghost use Rattle.loop_core.specs.declared.decl.PropDecl.{PropDecl};
ghost use Rattle.loop_core.specs.declared.nest.Atom.{Atom};
ghost use Rattle.uf_constraints.specs.Constants.{IndexesWithin};
ghost use Rattle.uf_constraints.specs.Over.{IsClosed};
ghost use Rattle.index_props.specs.Rules.{instances_of};
ghost use Rattle.index_props.specs.Sound.{AllNameIndexes};
ghost use Rattle.index_props.specs.Within.{AllBoundsWithin};
ghost use Rattle.bound_ways.specs.Over.{AreRulesOver};

/// All constraints of the instances are over the atoms, with right sides from -2^23 to 2^23, where the
/// atoms are closed and their constants small, as those of a universe are, and the properties name
/// index arrays and have small bounds. It does nothing; its contract is the law.
pub fn instances_can_be_closed()
    ensures { (decls : List Decl) (props : List PropDecl) (atoms : List Atom) → AllNameIndexes decls props → IsClosed atoms
        → IndexesWithin (2 ^ 21 + 1) atoms → AllBoundsWithin props → AreRulesOver atoms (instances_of decls props atoms) }
{}

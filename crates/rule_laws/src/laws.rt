// Each line of the table of rules is sound: for arrays of the declared lengths that have the
// property, true premises give true results.
ghost use Rattle.std.specs.Prelude.{◌+◌, ◌^◌, true, false, IsTrue, List};
ghost use Rattle.std.specs.List.{All, Contains, flat_map};
ghost use Rattle.wave_base.specs.declared.types.ArrayId.{ArrayId};
ghost use Rattle.loop_core.specs.declared.decl.Decl.{Decl};
ghost use Rattle.loop_core.specs.declared.decl.PropDecl.{PropDecl};
ghost use Rattle.loop_core.specs.declared.decl.PropKind.{PropKind};
ghost use Rattle.loop_core.specs.declared.decl.PropKind.TheVariants.{Range, Rising, Strict, Injective, Sorted, Below, Upto, Diagonal, Before};
ghost use Rattle.loop_core.specs.declared.nest.Nest.{Nest};
ghost use Rattle.loop_core.specs.declared.nest.Term.{Term};
ghost use Rattle.loop_core.specs.declared.nest.Atom.{Atom};
ghost use Rattle.loop_core.specs.Binding.{Binding};
ghost use Rattle.loop_core.specs.Lists.{Lists};
ghost use Rattle.loop_core.specs.IsNest.{IsNest, is_bound};
ghost use Rattle.loop_core.specs.Shape.{body_lines, line_terms};
ghost use Rattle.loop_core.specs.Sizes.{is_index};
ghost use Rattle.index_props.specs.declared.rule.PairLine.TheVariants.{Equal as EqualLine, Injective as InjectiveLine, Ordered as OrderedLine};
ghost use Rattle.index_props.specs.declared.rule.RuleInst.{RuleInst};
ghost use Rattle.index_props.specs.Entries.{entry_of};
ghost use Rattle.uf_constraints.specs.Constants.{IndexesWithin, TermsWithin, atom_within};
ghost use Rattle.uf_constraints.specs.Over.{IsClosed};
ghost use Rattle.index_props.specs.Meanings.{Passes};
ghost use Rattle.index_props.specs.Rules.{pair_instance, range_instance, sorted_instance, limit_instance, diagonal_instance, before_instance, order, instances_of};
ghost use Rattle.index_props.specs.Sound.{IsSound, segment_of, IndexLengths, Follows, AllNameIndexes};
ghost use Rattle.index_props.specs.Table.{IsInstance, IsRuleOver};
ghost use Rattle.index_props.specs.Within.{AllBoundsWithin};
ghost use Rattle.rule_laws.specs.Small.{IsSmallRule};

/// Each instance is a line of the table, and all array entries that it names are in the universe.
pub fn instances_are_lines()
    ensures { (decls : List Decl) (props : List PropDecl) (atoms : List Atom) → All (IsInstance decls props atoms) (instances_of decls props atoms) }
{}

/// Each line of the table at array entries of the universe is an instance.
pub fn lines_are_instances()
    ensures { (decls : List Decl) (props : List PropDecl) (atoms : List Atom) (r : RuleInst) → IsInstance decls props atoms r
        → Contains (instances_of decls props atoms) r }
{}

/// Each instance is sound: for arrays of the declared lengths that have all declared properties,
/// and all values of the variables, true premises give true results.
pub fn instances_are_sound()
    ensures { (decls : List Decl) (props : List PropDecl) (atoms : List Atom) → AllNameIndexes decls props
        → (a : Lists) (env : List Binding) → IndexLengths decls a → Passes props a
        → All (Follows a env) (instances_of decls props atoms) }
{}

/// Each instance has its premises and results over the atoms, where they have 0, n, nnz and the
/// atoms inside their entries among them, as those of a universe do.
pub fn instances_are_over()
    ensures { (decls : List Decl) (props : List PropDecl) (atoms : List Atom) → AllNameIndexes decls props → IsClosed atoms
        → All (IsRuleOver atoms) (instances_of decls props atoms) }
{}

/// The right sides of each instance are from -2^23 to 2^23, under the conditions of `instances`.
pub fn instances_are_small()
    ensures { (decls : List Decl) (props : List PropDecl) (atoms : List Atom) → IndexesWithin (2 ^ 21 + 1) atoms → AllBoundsWithin props
        → All IsSmallRule (instances_of decls props atoms) }
{}

/// A nest meets the conditions of `universe`, `instances` and the laws above: the constants of its
/// terms and of the bounds of its properties are from -2^21 to 2^21, and its properties name index
/// arrays.
pub fn nest_meets_conditions()
    ensures names { (nest : Nest) → IsNest nest → AllNameIndexes nest.decls nest.props }
    ensures bounds { (nest : Nest) → IsNest nest → AllBoundsWithin nest.props }
    ensures terms { (nest : Nest) → IsNest nest → TermsWithin (2 ^ 21) (flat_map (λ l. line_terms l.form) (body_lines nest)) }
    ensures atoms { (nest : Nest) → IsNest nest → All (λ t. IsTrue (atom_within (2 ^ 21) t.atom)) (flat_map (λ l. line_terms l.form) (body_lines nest)) }
{}

/// Equal arguments give equal entries, whatever the property.
pub fn equal_arguments()
    ensures { (decls : List Decl) (kind : PropKind) (f : ArrayId) (s t : Term) → IsSound decls kind
        (pair_instance EqualLine (entry_of decls f s) (entry_of decls f t)) }
{}

/// `range`: an entry lies between the bounds, which have no variable and no entry.
pub fn range()
    ensures { (decls : List Decl) (f : ArrayId) (lo hi t : Term) → IsTrue (is_bound lo) → IsTrue (is_bound hi) → IsTrue (is_index decls f) → IsSound decls (Range f lo hi)
        (range_instance lo hi (entry_of decls f t)) }
{}

/// `rising`: from arguments in order to entries in order.
pub fn rising_forth()
    ensures { (decls : List Decl) (p : ArrayId) (s t : Term) → IsTrue (is_index decls p) → IsSound decls (Rising p)
        (pair_instance (OrderedLine (order false false)) (entry_of decls p s) (entry_of decls p t)) }
{}

/// `rising`: from an entry below another back to their arguments.
pub fn rising_back()
    ensures { (decls : List Decl) (p : ArrayId) (s t : Term) → IsTrue (is_index decls p) → IsSound decls (Rising p)
        (pair_instance (OrderedLine (order true true)) (entry_of decls p s) (entry_of decls p t)) }
{}

/// `strict`: from arguments in order to entries in order.
pub fn strict_forth_weak()
    ensures { (decls : List Decl) (p : ArrayId) (s t : Term) → IsTrue (is_index decls p) → IsSound decls (Strict p)
        (pair_instance (OrderedLine (order false false)) (entry_of decls p s) (entry_of decls p t)) }
{}

/// `strict`: from an entry below another back to their arguments.
pub fn strict_back_strict()
    ensures { (decls : List Decl) (p : ArrayId) (s t : Term) → IsTrue (is_index decls p) → IsSound decls (Strict p)
        (pair_instance (OrderedLine (order true true)) (entry_of decls p s) (entry_of decls p t)) }
{}

/// `strict`: from an argument below another to their entries.
pub fn strict_forth()
    ensures { (decls : List Decl) (p : ArrayId) (s t : Term) → IsTrue (is_index decls p) → IsSound decls (Strict p)
        (pair_instance (OrderedLine (order true false)) (entry_of decls p s) (entry_of decls p t)) }
{}

/// `strict`: from entries in order back to arguments in order.
pub fn strict_back()
    ensures { (decls : List Decl) (p : ArrayId) (s t : Term) → IsTrue (is_index decls p) → IsSound decls (Strict p)
        (pair_instance (OrderedLine (order false true)) (entry_of decls p s) (entry_of decls p t)) }
{}

/// `injective`: equal entries have equal arguments.
pub fn injective()
    ensures { (decls : List Decl) (f : ArrayId) (s t : Term) → IsTrue (is_index decls f) → IsSound decls (Injective f)
        (pair_instance InjectiveLine (entry_of decls f s) (entry_of decls f t)) }
{}

/// `sorted`: in a segment, from an argument below another to their entries.
pub fn sorted_strict_forth()
    ensures { (decls : List Decl) (f p : ArrayId) (s t u : Term) → IsTrue (is_index decls f) → IsTrue (is_index decls p) → IsSound decls (Sorted f p)
        (sorted_instance (order true false) (entry_of decls f s) (entry_of decls f t) (segment_of decls p u)) }
{}

/// `sorted`: in a segment, from arguments in order to entries in order.
pub fn sorted_forth()
    ensures { (decls : List Decl) (f p : ArrayId) (s t u : Term) → IsTrue (is_index decls f) → IsTrue (is_index decls p) → IsSound decls (Sorted f p)
        (sorted_instance (order false false) (entry_of decls f s) (entry_of decls f t) (segment_of decls p u)) }
{}

/// `sorted`: in a segment, from entries in order back to arguments in order.
pub fn sorted_back()
    ensures { (decls : List Decl) (f p : ArrayId) (s t u : Term) → IsTrue (is_index decls f) → IsTrue (is_index decls p) → IsSound decls (Sorted f p)
        (sorted_instance (order false true) (entry_of decls f s) (entry_of decls f t) (segment_of decls p u)) }
{}

/// `sorted`: in a segment, from an entry below another back to their arguments.
pub fn sorted_strict_back()
    ensures { (decls : List Decl) (f p : ArrayId) (s t u : Term) → IsTrue (is_index decls f) → IsTrue (is_index decls p) → IsSound decls (Sorted f p)
        (sorted_instance (order true true) (entry_of decls f s) (entry_of decls f t) (segment_of decls p u)) }
{}

/// `below`: an entry in segment u is below u.
pub fn below()
    ensures { (decls : List Decl) (f p : ArrayId) (s u : Term) → IsTrue (is_index decls f) → IsTrue (is_index decls p) → IsSound decls (Below f p)
        (limit_instance true (entry_of decls f s) (segment_of decls p u)) }
{}

/// `upto`: an entry in segment u is at most u.
pub fn upto()
    ensures { (decls : List Decl) (f p : ArrayId) (s u : Term) → IsTrue (is_index decls f) → IsTrue (is_index decls p) → IsSound decls (Upto f p)
        (limit_instance false (entry_of decls f s) (segment_of decls p u)) }
{}

/// `diagonal`: d[t] lies in segment t of p, and there f holds t.
pub fn diagonal()
    ensures { (decls : List Decl) (d f p : ArrayId) (t : Term) → IsTrue (is_index decls d) → IsTrue (is_index decls p) → IsSound decls (Diagonal d f p)
        (diagonal_instance decls f p (entry_of decls d t)) }
{}

/// `before`: an entry is at most that of the other array at the same argument.
pub fn before()
    ensures { (decls : List Decl) (f g : ArrayId) (t : Term) → IsTrue (is_index decls f) → IsSound decls (Before f g)
        (before_instance decls g (entry_of decls f t)) }
{}

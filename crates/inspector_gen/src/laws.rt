// What holds of plans.
ghost use Rattle.std.specs.Prelude.{◌≡◌, ◌↔◌, ℕ, []};
ghost use Rattle.std.specs.List.{Contains};
ghost use Rattle.loop_core.specs.declared.nest.Nest.{Nest};
ghost use Rattle.loop_core.specs.declared.nest.Atom.{Atom};
ghost use Rattle.loop_core.specs.Lists.{Lists};
ghost use Rattle.loop_core.specs.IsNest.{IsNest};
ghost use Rattle.uf_constraints.specs.declared.system.Relation.{Relation};
ghost use Rattle.uf_constraints.specs.Pairs.{Pairs};
ghost use Rattle.uf_constraints.specs.Relations.{relations};
ghost use Rattle.uf_constraints.specs.Universe.{atoms_due};
ghost use Rattle.index_props.specs.Meanings.{Passes};
ghost use Rattle.index_props.specs.Rules.{instances_of};
ghost use Rattle.index_props.specs.Sound.{IndexLengths};
ghost use Rattle.bound_ways.specs.Exact.{IsBound};
ghost use Rattle.bound_close.specs.Closure.{Found as Closed};
ghost use Rattle.inspector_run.specs.Pairs.{emitted};
ghost use Rattle.inspector_run.specs.IsPlan.{IsPlan};
ghost use Rattle.inspector_gen.specs.Known.{Bounds, IsTable};
ghost use Rattle.inspector_gen.specs.Kinds.{Facts};
ghost use Rattle.inspector_gen.specs.Made.{facts_of};
ghost use Rattle.inspector_gen.specs.Plans.{plan_of};
ghost use Rattle.inspector_gen.specs.Quick.{quick_plan_of};
ghost use Rattle.inspector_gen.specs.Plain.{plain_plan_of};
ghost use Rattle.inspector_gen.specs.Derived.{AreDerived, rows};
ghost use Rattle.inspector_gen.specs.Own.{IsOwn, Inspects};

use bracket_claims::laws::systems_are_small;
use cert_check::laws::derivable_is_true;
use rule_laws::laws::nest_meets_conditions;

/// The plan of a relation of a nest emits two rows just where the relation has them as a pair, for arrays
/// of the declared lengths that pass the properties. Each bound that the plan was made by must follow
/// from the relation's base. It does nothing; its contract is the law.
pub fn plans_give_pairs()
    ensures { (nest : Nest) (r : Relation) (f : Facts) (a : Lists) → IsNest nest → Contains (relations nest) r → AreDerived nest r f
        → IndexLengths nest.decls a → Passes nest.props a
        → (i j : ℕ) → Contains (emitted a (plan_of nest f r)) (rows i j) ↔ Pairs nest.line r a i j }
{
    nest_meets_conditions();
    derivable_is_true();
    systems_are_small();
}

/// And so does the quick plan.
pub fn quick_plans_give_pairs()
    ensures { (nest : Nest) (r : Relation) (f : Facts) (a : Lists) → IsNest nest → Contains (relations nest) r → AreDerived nest r f
        → IndexLengths nest.decls a → Passes nest.props a
        → (i j : ℕ) → Contains (emitted a (quick_plan_of nest f r)) (rows i j) ↔ Pairs nest.line r a i j }
{
    nest_meets_conditions();
    derivable_is_true();
    systems_are_small();
}

/// The least bounds that follow from a relation's base are such bounds, where the closure is over the
/// atoms of the relation's system.
pub fn least_bounds_follow()
    ensures { (nest : Nest) (r : Relation) (k : Closed) (bounds : Bounds) → k.atoms ≡ atoms_due r.base [] nest.props
        → ((x y : Atom) → IsBound k.atoms r.base (instances_of nest.decls nest.props k.atoms) x y (bounds x y)) → AreDerived nest r (facts_of nest k bounds) }
{}

/// The closure of a relation's own system has a table of least bounds.
pub fn closures_have_tables()
    ensures { (nest : Nest) (r : Relation) (k : Closed) → IsOwn nest r k → (bounds : Bounds) × IsTable k bounds }
{}

/// At the least bounds of the closure of the relation's own system the plan is one that can be run, and
/// it inspects the relation over arrays of the declared lengths that pass the properties.
pub fn plans_inspect()
    ensures form { (nest : Nest) (r : Relation) (k : Closed) (bounds : Bounds) → IsOwn nest r k → IsTable k bounds → IsPlan (plan_of nest (facts_of nest k bounds) r) }
    ensures pairs { (nest : Nest) (r : Relation) (k : Closed) (bounds : Bounds) → IsOwn nest r k → IsTable k bounds
        → (a : Lists) → IndexLengths nest.decls a → Passes nest.props a → Inspects nest r a (plan_of nest (facts_of nest k bounds) r) }
{
    nest_meets_conditions();
    derivable_is_true();
    systems_are_small();
}

/// And so does the quick plan.
pub fn quick_plans_inspect()
    ensures form { (nest : Nest) (r : Relation) (k : Closed) (bounds : Bounds) → IsOwn nest r k → IsTable k bounds → IsPlan (quick_plan_of nest (facts_of nest k bounds) r) }
    ensures pairs { (nest : Nest) (r : Relation) (k : Closed) (bounds : Bounds) → IsOwn nest r k → IsTable k bounds
        → (a : Lists) → IndexLengths nest.decls a → Passes nest.props a → Inspects nest r a (quick_plan_of nest (facts_of nest k bounds) r) }
{
    nest_meets_conditions();
    derivable_is_true();
    systems_are_small();
}

/// The plain plan can be run, and inspects the relation over any arrays.
pub fn plain_plans_inspect()
    ensures form { (nest : Nest) (r : Relation) → IsNest nest → Contains (relations nest) r → IsPlan (plain_plan_of nest r) }
    ensures pairs { (nest : Nest) (r : Relation) → IsNest nest → Contains (relations nest) r → (a : Lists) → Inspects nest r a (plain_plan_of nest r) }
{
    systems_are_small();
}

// What the definitions of properties and of their failures say together.
ghost use Rattle.std.specs.Prelude.{◌≡◌, ◌↔◌, ℕ};
ghost use Rattle.loop_core.specs.declared.decl.PropKind.{PropKind};
ghost use Rattle.loop_core.specs.Lists.{Lists};
ghost use Rattle.index_props.specs.Meanings.{Means};
ghost use Rattle.index_props.specs.Places.{FailsAt};

/// A property fails exactly where it has places of a failure.
pub fn failures_have_places()
    ensures { (a : Lists) (kind : PropKind) → (Means a kind → ⊥) ↔ ((first : ℕ) × (second : ℕ) × FailsAt a kind first second) }
{}

/// A property that fails has one pair of places.
pub fn places_are_unique()
    ensures { (a : Lists) (kind : PropKind) (first second other last : ℕ) → FailsAt a kind first second → FailsAt a kind other last
        → (other ≡ first) × (last ≡ second) }
{}

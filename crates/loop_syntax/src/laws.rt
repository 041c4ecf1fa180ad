// What holds of the definitions.
ghost use Rattle.std.specs.Prelude.{◌≡◌, ◌↔◌, ℕ, List, Result, Some};
ghost use Rattle.loop_core.specs.declared.nest.Nest.{Nest};
ghost use Rattle.loop_syntax.specs.declared.numbered.Numbered.{Numbered};
ghost use Rattle.loop_syntax.specs.declared.refusal.LoopRefusal.{LoopRefusal};
ghost use Rattle.loop_syntax.specs.TextNest.{IsNestOf, refusal, IsRead, Answers};
ghost use Rattle.loop_syntax.specs.Texts.{IsRefused, HasNest, IsAnswer};

/// Lines have at most one nest.
pub fn one_nest()
    ensures { (ls : List Numbered) (a b : Nest) → IsNestOf ls a → IsNestOf ls b → a ≡ b }
{}

/// Reading a text gives what it is by the grammar of its lines: its nest, or why it has none.
pub fn texts_are_of_the_grammar()
    ensures nests { (ls : List (List ℕ)) (nest : Nest) → IsRead ls nest ↔ HasNest ls nest }
    ensures refusals { (ls : List (List ℕ)) (why : LoopRefusal) → (refusal ls ≡ Some why) ↔ IsRefused ls why }
    ensures answers { (ls : List (List ℕ)) (answer : Result Nest LoopRefusal) → Answers ls answer ↔ IsAnswer ls answer }
{}

/// A text has at most one nest, or is refused for one reason, and not both.
pub fn texts_have_one_answer()
    ensures nest { (ls : List (List ℕ)) (a b : Nest) → HasNest ls a → HasNest ls b → a ≡ b }
    ensures reason { (ls : List (List ℕ)) (a b : LoopRefusal) → IsRefused ls a → IsRefused ls b → a ≡ b }
    ensures either { (ls : List (List ℕ)) (nest : Nest) (why : LoopRefusal) → HasNest ls nest → IsRefused ls why → ⊥ }
{}

// What holds of the definitions.
ghost use Rattle.std.specs.Prelude.{◌≡◌, ◌↔◌, ◌*◌, ℕ, length, List, Option, Some};
ghost use Rattle.loop_lines.specs.declared.token.Token.{Token};
ghost use Rattle.loop_lines.specs.declared.tree.NamedExpr.{NamedExpr};
ghost use Rattle.loop_lines.specs.declared.line.Line.{Line};
ghost use Rattle.loop_lines.specs.Fitting.{text_line};
ghost use Rattle.loop_lines.specs.ReadBack.{ReadsBack};
ghost use Rattle.loop_lines.specs.Showable.{IsShowable};
ghost use Rattle.loop_lines.specs.Exprs.{IsExpr};
ghost use Rattle.loop_lines.specs.ExprReading.{whole_at};
ghost use Rattle.loop_lines.specs.LineReading.{line_at};
ghost use Rattle.loop_lines.specs.Lines.{IsLine};
ghost use Rattle.loop_lines.specs.TextLines.{IsTextLine};

/// The canonical text of a line reads back as that line.
pub fn shown_lines_read_back()
    ensures { (l : Line) → IsShowable l → ReadsBack l }
{}

/// Each line of a text is one that a canonical text can show.
pub fn read_lines_are_showable()
    ensures { (text : List ℕ) (l : Line) → text_line text ≡ Some (Some l) → IsShowable l }
{}

/// Reading words and signs from the left gives the expressions of the grammar, and these alone.
pub fn expressions_are_of_the_grammar()
    ensures { (ts : List Token) (e : NamedExpr) → (whole_at (3 * length ts) ts ≡ Some e) ↔ IsExpr ts e }
{}

/// Reading words and signs from the left gives the lines of the grammar, and these alone.
pub fn lines_are_of_the_grammar()
    ensures { (ts : List Token) (l : Line) → (line_at ts ≡ Some l) ↔ IsLine ts l }
{}

/// The same words and signs are at most one line.
pub fn lines_have_one_meaning()
    ensures { (ts : List Token) (l m : Line) → IsLine ts l → IsLine ts m → l ≡ m }
{}

/// Reading the bytes of a line gives what it says by the grammar, and nothing else.
pub fn text_lines_are_of_the_grammar()
    ensures { (line : List ℕ) (said : Option Line) → (text_line line ≡ Some said) ↔ IsTextLine line said }
{}

//! Laws of the table of places: the turns that are ahead of each word of the code. The functions do nothing: their
//! contracts are the laws.

ghost use Rattle.std.specs.Prelude.{◌≡◌, ◌≤◌, ◌+◌, ◌++◌, ◌∷◌, [], ℕ, List, length, map, Option, Some, slice_get};
ghost use Rattle.cm_syntax.specs.declared.stmt.Slot.{Slot};
ghost use Rattle.cm_syntax.specs.declared.stmt.Stmt.{Stmt};
ghost use Rattle.cm_syntax.specs.declared.expr.Expr.{Expr};
ghost use Rattle.cm_syntax.specs.declared.stmt.Function.{Function};
ghost use Rattle.cm_syntax.specs.declared.stmt.Program.{Program};
ghost use Rattle.cm_gen.specs.declared.form.Form.{Form};
ghost use Rattle.cm_gen.specs.declared.form.Form.TheVariants.{Serial};
ghost use Rattle.cm_gen.specs.Statement.{statement_size};
ghost use Rattle.cm_gen.specs.Image.{function_code, image_of};
ghost use Rattle.cm_gen.specs.Row as row;
ghost use Rattle.cm_gen.specs.Ahead.{statement_turns, statement_credit, function_turns, function_credit, body_ahead, clearing_body, ahead, total, loop_turns, loop_credit, tick_words};

/// The table has a number for each word of the code.
pub fn each_word_has_turns()
    ensures statement { (form : Form) (slots : List Slot) (s : Stmt ℕ)
        → length (statement_turns form slots s) ≡ statement_size form slots s }
    ensures credit { (form : Form) (slots : List Slot) (s : Stmt ℕ)
        → length (statement_credit form slots s) ≡ statement_size form slots s }
    ensures function { (form : Form) (page : ℕ) (f : Function ℕ)
        → length (function_turns form page f) ≡ length (function_code form page f) }
    ensures function_credit { (form : Form) (page : ℕ) (f : Function ℕ)
        → length (function_credit form page f) ≡ length (function_code form page f) }
{}

/// The jump back of a loop, with any turns inside and behind it and any credit of outer loops, has its own turn ahead, those
/// behind the loop, those of one more turn of the loop, and the outer credit: one more than the loop's first word.
pub fn jumps_back_are_paid()
    ensures back { (slots : List Slot) (t : Option (Expr ℕ)) (turns inner behind credits : List ℕ) (outer : ℕ)
        → length turns ≡ length inner
        → slice_get (ahead (loop_turns slots t turns ++ behind) (map (λ c. c + outer) (loop_credit slots t turns inner) ++ credits)) (tick_words slots t + length turns)
        ≡ Some (1 + total behind + (total (loop_turns slots t turns) + outer)) }
    ensures first { (slots : List Slot) (t : Option (Expr ℕ)) (turns inner behind credits : List ℕ) (outer : ℕ)
        → slice_get (ahead (loop_turns slots t turns ++ behind) (map (λ c. c + outer) (loop_credit slots t turns inner) ++ credits)) 0
        ≡ Some (total (loop_turns slots t turns) + total behind + outer) }
{}

/// An image has the words of each of its functions, two for the end service, and one for each function in the table.
pub fn functions_are_shorter_than_images()
    ensures { (program : Program) (form : Form) (page j : ℕ) (f : Function ℕ)
        → slice_get program.functions j ≡ Some f
        → length (function_code form page f) + 2 + length program.functions ≤ length (image_of program form page) }
{}

/// A loop that clears an array of ten words in each turn, and a call behind it. The loop's turn has 40, which count again
/// behind its tick; the first word of the clearing loop has 28.
pub fn turns_ahead()
    ensures { body_ahead Serial row.near_slots clearing_body
        ≡ 41 ∷ 40 ∷ 39 ∷ 38 ∷ 37 ∷ 36 ∷ 35 ∷ 74 ∷ 73 ∷ 72 ∷ 44 ∷ 43 ∷ 42 ∷ 1 ∷ [] }
{}

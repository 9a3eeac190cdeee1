//! Laws of the definitions of the code. The functions do nothing: their contracts are the laws.

ghost use Rattle.std.specs.Prelude.{◌≡◌, ◌≤◌, ◌<◌, ◌^◌, ◌+◌, ◌*◌, ◌++◌, ℕ, List, length, false, true, Some, slice_get};
ghost use Rattle.cm_syntax.specs.declared.expr.Expr.{Expr};
ghost use Rattle.cm_syntax.specs.declared.stmt.Slot.{Slot};
ghost use Rattle.cm_syntax.specs.declared.stmt.Stmt.{Stmt};
ghost use Rattle.cm_syntax.specs.declared.stmt.Stmt.TheVariants as statement;
ghost use Rattle.cm_syntax.specs.declared.stmt.Function.{Function};
ghost use Rattle.cm_syntax.specs.declared.stmt.Program.{Program};
ghost use Rattle.cm_syntax.specs.Shape.{WhileLoop};
ghost use Rattle.cm_gen.specs.declared.form.Form.{Form};
ghost use Rattle.cm_gen.specs.declared.form.Form.TheVariants.{Serial};
ghost use Rattle.cm_syntax.specs.Frame.{temporaries};
ghost use Rattle.cm_syntax.specs.Limit.{max_frame_words, max_functions};
ghost use Rattle.cm_syntax.specs.declared.stmt.Tree.{Tree};
ghost use Rattle.cm_syntax.specs.Fault.{IsSoundProgram, program_of};
ghost use Rattle.cm_syntax.specs.Grammar.{IsSourceOf};
ghost use Rattle.cm_gen.specs.Build.{max_image_words};
ghost use Rattle.cm_gen.specs.Fits.{Fits, HasShortCalls, FunctionsFit};
ghost use Rattle.cm_gen.specs.Part.{laid};
ghost use Rattle.cm_gen.specs.Builder.{AreCallsWithin};
ghost use Rattle.cm_gen.specs.Statement.{statement_code, statement_size, body_code, body_size, loop_code, turn_code};
ghost use Rattle.cm_gen.specs.Image.{image_of, front_of, serial_part, serial_end, functions_start, functions_code, marked, entries, program_code, HaveRoom};

/// The code of a statement has as many words as its size says, wherever it stands.
pub fn code_sizes()
    ensures statement { (form : Form) (slots : List Slot) (behind : ℕ) (s : Stmt ℕ)
        → length (statement_code form slots behind s) ≡ statement_size form slots s }
    ensures body { (form : Form) (slots : List Slot) (behind : ℕ) (body : List (Stmt ℕ))
        → length (body_code form slots behind body) ≡ body_size form slots body }
{}

/// A `while` is a `for` that does nothing before it and at the end of a turn.
pub fn loops_are_alike()
    ensures { (form : Form) (slots : List Slot) (behind : ℕ) (test : Expr ℕ) (body : Stmt ℕ)
        → statement_code form slots behind (WhileLoop test body)
        ≡ loop_code slots (Some test) (turn_code form slots behind statement.Empty body) }
{}

/// In both builds the functions that aren't marked `cilk` have the same words at the same addresses: `serial_part`, which
/// names no build, from `functions_start` to `serial_end`.
pub fn serial_parts_are_alike()
    ensures front { (program : Program) (form : Form) (page : ℕ)
        → 4 * length (front_of program form page) ≡ functions_start program }
    ensures part { (program : Program) (form : Form) (page : ℕ)
        → image_of program form page ≡ front_of program form page
        ++ (serial_part program page
        ++ laid (serial_end program page) (functions_code form page (marked true program.functions))) }
    ensures addresses { (program : Program) (form : Form) (page j : ℕ) (f : Function ℕ)
        → slice_get program.functions j ≡ Some f → f.cilk ≡ false
        → slice_get (entries program form page) j ≡ slice_get (entries program Serial page) j }
{}

/// The code of an expression can be made where its temporaries are within a frame and each of its calls has at most eight
/// words of arguments.
pub fn frames_hold_temporaries()
    ensures { (e : Expr ℕ) (d : ℕ) → HasShortCalls e → temporaries e d ≤ max_frame_words → Fits e d }
{}

/// The code of a sound program can be made: its frames, its calls, its parameters and the indices of what it spawns fit,
/// its functions are few, and its calls are of small indices. Where its code isn't too long, the table reaches all of it.
pub fn sound_programs_fit()
    ensures fit { (program : Program) → IsSoundProgram program → FunctionsFit program.functions }
    ensures few { (program : Program) → IsSoundProgram program → length program.functions ≤ max_functions }
    ensures calls { (program : Program) (form : Form) (page : ℕ) → IsSoundProgram program
        → AreCallsWithin (2 ^ 16) (program_code program form page) }
    ensures room { (program : Program) (form : Form) (page : ℕ) → IsSoundProgram program
        → length (program_code program form page) ≤ max_image_words
        → HaveRoom form page (functions_start program) (serial_end program page) program.functions }
{}

/// The image of a source's program has at most 24 words for each byte of the text, and two. So the program of a text of at
/// most 8,192 bytes is never refused as long, and the number of an image's words fits 32 bits.
pub fn images_are_bounded()
    ensures words { (bytes : List ℕ) (tree : Tree) (form : Form) (page : ℕ) → IsSourceOf bytes tree
        → length (image_of (program_of tree) form page) ≤ 24 * length bytes + 2 }
    ensures short { (bytes : List ℕ) (tree : Tree) (form : Form) (page : ℕ) → IsSourceOf bytes tree
        → length bytes ≤ 8192 → length (image_of (program_of tree) form page) ≤ max_image_words }
    ensures sound { (program : Program) (form : Form) (page : ℕ) → IsSoundProgram program
        → length (image_of program form page) < 2 ^ 32 }
{}

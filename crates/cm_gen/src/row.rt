//! Single statements and programs worked out by hand, with which the definitions of the code have to agree. The
//! functions do nothing: their contracts are the rows.

ghost use Rattle.std.specs.Prelude.{◌≡◌, pos, None, [], ◌∷◌, ◌++◌, length};
ghost use Rattle.cm_isa.specs.Address.{AreWordsOf};
ghost use Rattle.cm_isa.specs.Bits.{minus};
ghost use Rattle.cm_isa.specs.Operation.{ecall};
ghost use Rattle.cm_syntax.specs.declared.expr.Op.TheVariants as op;
ghost use Rattle.cm_syntax.specs.declared.expr.Expr.TheVariants as expression;
ghost use Rattle.cm_syntax.specs.Shape.{Joined, Prefixed, InputAt};
ghost use Rattle.cm_gen.specs.declared.form.Form.TheVariants.{Serial, Cilk};
ghost use Rattle.cm_gen.specs.Assembler as code;
ghost use Rattle.cm_gen.specs.Code.{load_number};
ghost use Rattle.cm_syntax.specs.declared.stmt.Slot.TheVariants as slot;
ghost use Rattle.cm_gen.specs.Part.{call, straight, laid};
ghost use Rattle.cm_gen.specs.Expression.{operator_code, expression_code, slot_offset, temporary_offset};
ghost use Rattle.cm_gen.specs.Statement.{statement_code, statement_size};
ghost use Rattle.cm_gen.specs.Image.{image_of, parameters_code, table_from, function_code, entries, frames, serial_end};
ghost use Rattle.cm_gen.specs.Row as row;

/// Numbers near and far, and the places of slots and temporaries.
pub fn numbers_and_places()
    ensures near { load_number 5 (minus 2048) ≡ code.addi 5 0 (minus 2048) ∷ [] }
    ensures far { load_number 5 (pos 2048) ≡ code.lui 5 (pos 4096) ∷ code.addi 5 5 (minus 2048) ∷ [] }
    ensures greatest { load_number 5 (pos 2147483647)
        ≡ code.lui 5 (minus 2147483648) ∷ code.addi 5 5 (minus 1) ∷ [] }
    ensures array { slot_offset row.near_slots row.a ≡ minus 52 }
    ensures last { slot_offset row.near_slots row.y ≡ minus 80 }
    ensures temporary { temporary_offset row.near_slots 1 ≡ minus 88 }
{}

/// Operators with more than one instruction.
pub fn operators()
    ensures quotient { operator_code op.Div
        ≡ code.bne 5 0 (pos 12) ∷ code.addi 31 0 (pos 7) ∷ ecall ∷ code.div 5 6 5 ∷ [] }
    ensures remainder { operator_code op.Rem
        ≡ code.bne 5 0 (pos 12) ∷ code.addi 31 0 (pos 7) ∷ ecall ∷ code.rem 5 6 5 ∷ [] }
    ensures less_or_equal { operator_code op.Le ≡ code.slt 5 5 6 ∷ code.xori 5 5 (pos 1) ∷ [] }
    ensures greater_or_equal { operator_code op.Ge ≡ code.slt 5 6 5 ∷ code.xori 5 5 (pos 1) ∷ [] }
    ensures equal { operator_code op.Eq ≡ code.sub 5 6 5 ∷ code.sltiu 5 5 (pos 1) ∷ [] }
    ensures unequal { operator_code op.Ne ≡ code.sub 5 6 5 ∷ code.sltu 5 0 5 ∷ [] }
{}

/// Expressions: `x || -y`, lengths, the input, and what stands before an operand.
pub fn expressions()
    ensures either { expression_code row.near_slots (Joined op.Either (row.value row.x) (Prefixed op.Neg (row.value row.y))) 0
        ≡ straight (code.lw 5 8 (minus 12) ∷ code.beq 5 0 (pos 8) ∷ code.jal 0 (pos 12) ∷ code.lw 5 8 (minus 80)
        ∷ code.sub 5 0 5 ∷ code.sltu 5 0 5 ∷ []) }
    ensures flip { expression_code row.near_slots (Prefixed op.Flip (Prefixed op.Not (row.number 1))) 0
        ≡ straight (code.addi 5 0 (pos 1) ∷ code.sltiu 5 5 (pos 1) ∷ code.xori 5 5 (minus 1) ∷ []) }
    ensures array { expression_code row.near_slots (expression.Len (row.mark row.a)) 0
        ≡ straight (code.addi 5 0 (pos 10) ∷ []) }
    ensures slice { expression_code row.near_slots (expression.Len (row.mark row.s)) 0
        ≡ straight (code.lw 5 8 (minus 56) ∷ []) }
    ensures input { expression_code row.near_slots (InputAt (row.number 0)) 0
        ≡ straight (code.addi 5 0 (pos 0) ∷ code.addi 31 0 (pos 2) ∷ ecall ∷ []) }
    ensures inputs { expression_code row.near_slots expression.Inputs 0
        ≡ straight (code.addi 31 0 (pos 3) ∷ ecall ∷ []) }
{}

/// Loops and conditions: their jumps, and those of `return`.
pub fn jumps()
    ensures counting { statement_code Serial row.near_slots 5 row.counting ≡ straight row.counting_code }
    ensures counting_size { statement_size Serial row.near_slots row.counting ≡ 25 }
    ensures endless { statement_code Serial row.near_slots 5 row.endless
        ≡ straight (row.ticking ++ code.jal 0 (minus 16) ∷ []) }
    ensures leaving { statement_code Serial row.near_slots 5 row.leaving ≡ straight row.leaving_code }
    ensures leaving_size { statement_size Serial row.near_slots row.leaving ≡ 15 }
    ensures both { statement_code Serial row.near_slots 5 row.both_tested ≡ straight row.both_tested_code }
{}

/// Declarations, elements and splits.
pub fn arrays_and_slices()
    ensures declaring { statement_code Serial row.near_slots 5 row.declaring ≡ straight row.declaring_code }
    ensures writing { statement_code Serial row.near_slots 5 row.writing ≡ straight row.writing_code }
    ensures adding { statement_code Serial row.near_slots 5 row.adding ≡ row.adding_code }
    ensures parting { statement_code Serial row.near_slots 5 row.parting ≡ straight row.parting_code }
    ensures parting_cilk { statement_code Cilk row.near_slots 5 row.parting
        ≡ straight (row.parting_code ++ row.serve 5) }
    ensures far_declaring { statement_code Serial row.far_slots 5 row.far_declaring ≡ straight row.far_declaring_code }
    ensures far_adding { statement_code Serial row.far_slots 5 row.far_adding ≡ straight row.far_adding_code }
{}

/// A spawn is a call in the serial build and a service in the Cilk build.
pub fn spawns()
    ensures serial { statement_code Serial row.near_slots 5 row.spawning
        ≡ straight row.spawning_front
        ++ (call 1 ∷ straight (code.addi 5 10 (pos 0) ∷ code.sw 5 8 (minus 12) ∷ [])) }
    ensures cilk { statement_code Cilk row.near_slots 5 row.spawning
        ≡ straight (row.spawning_front ++ (code.addi 5 0 (pos 12) ∷ code.addi 6 8 (minus 12) ∷ row.serve 4)) }
    ensures serial_alone { statement_code Serial row.near_slots 5 row.spawning_alone ≡ call 1 ∷ [] }
    ensures cilk_alone { statement_code Cilk row.near_slots 5 row.spawning_alone
        ≡ straight (code.addi 5 0 (pos 12) ∷ code.addi 6 0 (pos 0) ∷ row.serve 4) }
{}

/// The 29 words of `int main() { return 14; }`, the same in both builds.
pub fn first_image()
    ensures serial { AreWordsOf row.fourteen_words (image_of row.fourteen Serial 4096) }
    ensures cilk { AreWordsOf row.fourteen_words (image_of row.fourteen Cilk 256) }
{}

/// A Cilk function in both builds, and where it stands: behind the functions that aren't marked.
pub fn cilk_functions()
    ensures serial { function_code Serial 4096 row.spawning_main ≡ row.spawning_serial }
    ensures cilk { function_code Cilk 4096 row.spawning_main ≡ straight row.spawning_cilk }
    ensures call { laid 188 (call 1 ∷ []) ≡ code.jal 1 (minus 176) ∷ [] }
    ensures table { table_from 8 (120 ∷ 16 ∷ []) ≡ code.jal 0 (pos 112) ∷ code.jal 0 (pos 4) ∷ [] }
    ensures parameters { parameters_code (slot.Scalar ∷ slot.Slice ∷ []) 0 10
        (row.item_of 0 slot.Scalar None ∷ row.item_of 1 slot.Slice None ∷ [])
        ≡ code.sw 10 8 (minus 12) ∷ code.sw 11 8 (minus 20) ∷ code.sw 12 8 (minus 16) ∷ [] }
    ensures entries { entries row.two_functions Cilk 4096 ≡ 120 ∷ 16 ∷ [] }
    ensures serial_end { serial_end row.two_functions 4096 ≡ 120 }
    ensures frames { frames row.two_functions ≡ 4 ∷ 4 ∷ [] }
    ensures words { length (image_of row.two_functions Cilk 4096) ≡ 64 }
    ensures serial_words { length (image_of row.two_functions Serial 4096) ≡ 59 }
{}

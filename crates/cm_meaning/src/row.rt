//! Single programs worked out by hand, with which the definitions have to agree. The functions do nothing: their
//! contracts are the rows.

ghost use Rattle.std.specs.Prelude.{true, ◌≡◌, ℕ, List, ℤ, pos, Some, None, [], ◌∷◌};
ghost use Rattle.cm_syntax.specs.declared.expr.Expr.TheVariants as expression;
ghost use Rattle.cm_syntax.specs.declared.expr.Op.TheVariants as op;
ghost use Rattle.cm_syntax.specs.Shape.{InputAt};
ghost use Rattle.cm_syntax.specs.Trap as kind;
ghost use Rattle.cm_syntax.specs.Operator.{binary_value, unary_value};
ghost use Rattle.cm_syntax.specs.Label.{stuck};
ghost use Rattle.cm_syntax.specs.Cell.{value_in, may_write};
ghost use Rattle.cm_syntax.specs.Stack.{Stack, StackSum, empty_stack};
ghost use Rattle.cm_syntax.specs.Step.{write_step};
ghost use Rattle.cm_meaning.specs.End.{End, Done, Trapped, Spent};
ghost use Rattle.cm_meaning.specs.Meaning.{Fork, Goes, SerialEnd, GetsStuck, ForkEnd, IsNeverStuck, begun, main_ask, first_control};
ghost use Rattle.cm_meaning.specs.Measure.{IsSerialPages, IsCilkDepth};
ghost use Rattle.cm_meaning.specs.Row as row;
ghost use Rattle.cm_meaning.specs.ShareRow as share;

/// Each operator at a corner of its range: where it wraps, and shifts by 31, 32 and -1.
pub fn operators_at_corners()
    ensures sum { binary_value op.Add (pos 2147483647) (pos 1) ≡ Some (row.minus 2147483648) }
    ensures difference { binary_value op.Sub (row.minus 2147483648) (pos 1) ≡ Some (pos 2147483647) }
    ensures product { binary_value op.Mul (pos 65536) (pos 65536) ≡ Some (pos 0) }
    ensures product_of_least { binary_value op.Mul (row.minus 2147483648) (row.minus 1) ≡ Some (row.minus 2147483648) }
    ensures quotient { binary_value op.Div (row.minus 7) (pos 2) ≡ Some (row.minus 3) }
    ensures quotient_of_least { binary_value op.Div (row.minus 2147483648) (row.minus 1) ≡ Some (row.minus 2147483648) }
    ensures no_quotient { binary_value op.Div (pos 7) (pos 0) ≡ None }
    ensures remainder { binary_value op.Rem (row.minus 7) (pos 2) ≡ Some (row.minus 1) }
    ensures remainder_of_least { binary_value op.Rem (row.minus 2147483648) (row.minus 1) ≡ Some (pos 0) }
    ensures no_remainder { binary_value op.Rem (pos 7) (pos 0) ≡ None }
    ensures left_by_31 { binary_value op.Shl (pos 3) (pos 31) ≡ Some (row.minus 2147483648) }
    ensures left_by_32 { binary_value op.Shl (pos 3) (pos 32) ≡ Some (pos 3) }
    ensures left_by_minus_1 { binary_value op.Shl (pos 3) (row.minus 1) ≡ Some (row.minus 2147483648) }
    ensures right_by_31 { binary_value op.Shr (row.minus 2147483648) (pos 31) ≡ Some (row.minus 1) }
    ensures right_by_32 { binary_value op.Shr (row.minus 8) (pos 32) ≡ Some (row.minus 8) }
    ensures right_by_minus_1 { binary_value op.Shr (row.minus 8) (row.minus 1) ≡ Some (row.minus 1) }
    ensures right_by_1 { binary_value op.Shr (row.minus 8) (pos 1) ≡ Some (row.minus 4) }
    ensures less { binary_value op.Lt (row.minus 2147483648) (pos 2147483647) ≡ Some (pos 1) }
    ensures less_or_equal { binary_value op.Le (pos 0) (row.minus 1) ≡ Some (pos 0) }
    ensures greater { binary_value op.Gt (pos 2147483647) (row.minus 2147483648) ≡ Some (pos 1) }
    ensures greater_or_equal { binary_value op.Ge (row.minus 1) (row.minus 1) ≡ Some (pos 1) }
    ensures equal { binary_value op.Eq (row.minus 1) (pos 1) ≡ Some (pos 0) }
    ensures unequal { binary_value op.Ne (row.minus 1) (pos 1) ≡ Some (pos 1) }
    ensures conjunction { binary_value op.And (row.minus 2) (pos 7) ≡ Some (pos 6) }
    ensures exclusive { binary_value op.Xor (row.minus 1) (pos 1) ≡ Some (row.minus 2) }
    ensures disjunction { binary_value op.Or (row.minus 2147483648) (pos 1) ≡ Some (row.minus 2147483647) }
    ensures negation_of_least { unary_value op.Neg (row.minus 2147483648) ≡ Some (row.minus 2147483648) }
    ensures not_zero { unary_value op.Not (pos 0) ≡ Some (pos 1) }
    ensures not_other { unary_value op.Not (row.minus 5) ≡ Some (pos 0) }
    ensures flip { unary_value op.Flip (pos 2147483647) ≡ Some (row.minus 2147483648) }
{}

/// `2 + 3 * 4` is 14, after main's tick; `2 - 3 * 4` is -10, and `1 - 2 - 3` is -4.
pub fn sums_and_products()
    ensures value { SerialEnd row.sum_and_product [] (row.with_ticks 1) (Done [] (Some (pos 14)) 1) }
    ensures spent { SerialEnd row.sum_and_product [] (row.with_ticks 0) Spent }
    ensures difference { SerialEnd (row.returns_value (row.joined op.Sub (row.number 2) (row.joined op.Mul (row.number 3) (row.number 4)))) [] (row.with_ticks 1) (Done [] (Some (row.minus 10)) 1) }
    ensures from_left { SerialEnd (row.returns_value (row.joined op.Sub (row.joined op.Sub (row.number 1) (row.number 2)) (row.number 3))) [] (row.with_ticks 1) (Done [] (Some (row.minus 4)) 1) }
{}

/// A `for` with three turns takes a tick for each, and none where its condition fails.
pub fn loop_ticks()
    ensures enough { SerialEnd row.three_turns [] (row.with_ticks 4) (Done [] (Some (pos 3)) 4) }
    ensures spent { SerialEnd row.three_turns [] (row.with_ticks 3) Spent }
{}

/// Each trap: a division by 0, an index at the end of an array, a number of the input that isn't there, and a call whose
/// frame doesn't fit. Main's tick is counted, and the callee's before its account is tested.
pub fn one_trap_of_each_kind()
    ensures divide { SerialEnd (row.returns_value row.division_by_zero) [] (row.with_ticks 1) (Trapped [] kind.Divide 1) }
    ensures index { SerialEnd (row.reads_element 2) [] (row.with_ticks 1) (Trapped [] kind.Index 1) }
    ensures input { SerialEnd (row.returns_value (InputAt (row.number 1))) (pos 5 ∷ []) (row.with_ticks 1) (Trapped [] kind.Input 1) }
    ensures stack { SerialEnd (row.deep_calls 0) [] (row.with_bytes 31) (Trapped [] kind.Stack 2) }
    ensures no_index { SerialEnd (row.reads_element 1) [] (row.with_ticks 1) (Done [] (Some (pos 0)) 1) }
    ensures no_input { SerialEnd (row.returns_value (InputAt (row.number 0))) (pos 5 ∷ []) (row.with_ticks 1) (Done [] (Some (pos 5)) 1) }
{}

/// The left operand comes first: it decides the trap where both operands trap.
pub fn left_operand_first()
    ensures divide { SerialEnd (row.returns_value (row.joined op.Add row.division_by_zero (InputAt (row.number 0)))) [] (row.with_ticks 1) (Trapped [] kind.Divide 1) }
    ensures input { SerialEnd (row.returns_value (row.joined op.Add (InputAt (row.number 0)) row.division_by_zero)) [] (row.with_ticks 1) (Trapped [] kind.Input 1) }
{}

/// A split at both ends of an array of two words, and one past each end; its parts are the array's own words.
pub fn splits_at_ends()
    ensures at_start { SerialEnd (row.splits_at (row.number 0)) [] (row.with_ticks 1) (Done [] (Some (pos 2)) 1) }
    ensures at_end { SerialEnd (row.splits_at (row.number 2)) [] (row.with_ticks 1) (Done [] (Some (pos 20)) 1) }
    ensures past_end { SerialEnd (row.splits_at (row.number 3)) [] (row.with_ticks 1) (Trapped [] kind.Index 1) }
    ensures before_start { SerialEnd (row.splits_at (expression.Number (row.minus 1))) [] (row.with_ticks 1) (Trapped [] kind.Index 1) }
    ensures parts { SerialEnd row.writes_parts [] (row.with_ticks 1) (Done [] (Some (pos 72)) 1) }
{}

/// An index is tested before the value is evaluated: the trap is `index` where the value would trap `divide`, and the
/// call that gives the value doesn't begin.
pub fn index_before_value()
    ensures trap { SerialEnd row.writes_outside [] (row.with_ticks 1) (Trapped [] kind.Index 1) }
    ensures no_call { SerialEnd row.writes_at_length [] (row.with_ticks 2) (Trapped [] kind.Index 1) }
{}

/// An update reads the old word behind the value: `a[0] += f(a)` adds to what f left in `a[0]`.
pub fn updates_read_last()
    ensures { SerialEnd row.updates_element [] (row.with_ticks 2) (Done [] (Some (pos 11)) 2) }
{}

/// `&&` and `||` stop early, before a right operand that would trap, and give 0 or 1.
pub fn early_stops()
    ensures both { SerialEnd (row.returns_value (row.joined op.Both (row.number 0) row.division_by_zero)) [] (row.with_ticks 1) (Done [] (Some (pos 0)) 1) }
    ensures either { SerialEnd (row.returns_value (row.joined op.Either (row.number 7) row.division_by_zero)) [] (row.with_ticks 1) (Done [] (Some (pos 1)) 1) }
    ensures both_go_on { SerialEnd (row.returns_value (row.joined op.Both (row.number 7) (row.number 9))) [] (row.with_ticks 1) (Done [] (Some (pos 1)) 1) }
    ensures both_trap { SerialEnd (row.returns_value (row.joined op.Both (row.number 7) row.division_by_zero)) [] (row.with_ticks 1) (Trapped [] kind.Divide 1) }
{}

/// Five frames of 16 bytes fit 80 bytes exactly, and a sixth doesn't: its tick is taken before the account is tested.
pub fn calls_to_the_account()
    ensures exact { SerialEnd (row.deep_calls 3) [] (row.with_bytes 80) (Done [] (Some (pos 0)) 5) }
    ensures one_more { SerialEnd (row.deep_calls 4) [] (row.with_bytes 80) (Trapped [] kind.Stack 6) }
    ensures tick_first { SerialEnd (row.deep_calls 4) [] (row.ticks_and_bytes 5 80) Spent }
{}

/// In the elision a spawn is a call, whose value goes into the destination.
pub fn spawns_as_calls()
    ensures { SerialEnd row.spawns_once [] (row.with_ticks 2) (Done [] (Some (pos 43)) 2) }
{}

/// A print takes a tick before its number is out; a spent run has no output.
pub fn prints_take_ticks()
    ensures printed { SerialEnd (row.prints_number 6) [] (row.with_ticks 2) (Done (pos 6 ∷ []) (Some (pos 0)) 2) }
    ensures spent { SerialEnd (row.prints_number 6) [] (row.with_ticks 1) Spent }
    ensures endless { SerialEnd row.endless [] (row.with_ticks 20) Spent }
{}

/// A variable that was never declared is unset, and can't be read: the run gets stuck.
pub fn unset_words_unread()
    ensures { GetsStuck row.reads_unset 256 [] (first_control row.reads_unset (row.with_ticks 1)) empty_stack 1 }
{}

/// A child with ten turns beside a division by 0. With 12 ticks the end may be the trap, which counts the child's 11
/// ticks, and with 11 ticks it is spent in every order. The elision says the same.
pub fn traps_beside_loops()
    ensures enough { ForkEnd row.loop_beside_trap [] (row.with_ticks 12) (Trapped [] kind.Divide 12) }
    ensures spent { ForkEnd row.loop_beside_trap [] (row.with_ticks 11) Spent }
    ensures alone { (e : End) → ForkEnd row.loop_beside_trap [] (row.with_ticks 11) e → e ≡ Spent }
    ensures not_spent { ForkEnd row.loop_beside_trap [] (row.with_ticks 12) Spent → ⊥ }
    ensures serial { SerialEnd row.loop_beside_trap [] (row.with_ticks 12) (Trapped [] kind.Divide 12) }
    ensures serial_spent { SerialEnd row.loop_beside_trap [] (row.with_ticks 11) Spent }
{}

/// Of two children the second one traps first; the first one's trap is the end, in every order and in the elision.
pub fn first_child_decides()
    ensures end { ForkEnd row.two_traps [] (row.with_ticks 20) (Trapped [] kind.Divide 5) }
    ensures alone { (e : End) → ForkEnd row.two_traps [] (row.with_ticks 20) e → e ≡ Trapped [] kind.Divide 5 }
    ensures serial { SerialEnd row.two_traps [] (row.with_ticks 20) (Trapped [] kind.Divide 5) }
{}

/// A child that is joined gives back its words with its value in the destination, and its ticks count once: two ticks
/// are enough, and with one tick the end is spent in every order.
pub fn joins_count_once()
    ensures enough { ForkEnd row.spawns_and_syncs [] (row.with_ticks 2) (Done [] (Some (pos 4)) 2) }
    ensures spent { (e : End) → ForkEnd row.spawns_and_syncs [] (row.with_ticks 1) e → e ≡ Spent }
    ensures serial { SerialEnd row.spawns_and_syncs [] (row.with_ticks 2) (Done [] (Some (pos 4)) 2) }
{}

/// `return x;` evaluates x before it waits for the children: where x is lent to one of them the piece is stuck, which the
/// lending check excludes. The elision, in which a spawn is a call, has a value.
pub fn returned_before_waiting()
    ensures stuck { IsNeverStuck row.returns_awaited 256 [] (begun (main_ask row.returns_awaited (row.with_ticks 2))) → ⊥ }
    ensures serial { SerialEnd row.returns_awaited [] (row.with_ticks 2) (Done [] (Some (pos 4)) 2) }
{}

/// What a child prints stands where it was spawned, before what its parent prints behind the spawn, and never in the
/// order of finishing; six ticks are enough. The elision says the same.
pub fn prints_in_the_order_of_spawns()
    ensures end { ForkEnd row.prints_in_order [] (row.with_ticks 6) (Done (pos 1 ∷ pos 2 ∷ pos 3 ∷ pos 4 ∷ []) (Some (pos 0)) 6) }
    ensures alone { (e : End) → ForkEnd row.prints_in_order [] (row.with_ticks 6) e
        → e ≡ Done (pos 1 ∷ pos 2 ∷ pos 3 ∷ pos 4 ∷ []) (Some (pos 0)) 6 }
    ensures no_other { ForkEnd row.prints_in_order [] (row.with_ticks 6)
        (Done (pos 1 ∷ pos 3 ∷ pos 2 ∷ pos 4 ∷ []) (Some (pos 0)) 6) → ⊥ }
    ensures spent { (e : End) → ForkEnd row.prints_in_order [] (row.with_ticks 5) e → e ≡ Spent }
    ensures serial { SerialEnd row.prints_in_order [] (row.with_ticks 6) (Done (pos 1 ∷ pos 2 ∷ pos 3 ∷ pos 4 ∷ []) (Some (pos 0)) 6) }
{}

/// A child prints and traps: what its parent prints behind the spawn isn't shown, and the parent's ticks there don't
/// count.
pub fn traps_hide_later_prints()
    ensures end { ForkEnd row.traps_behind_print [] (row.with_ticks 9) (Trapped (pos 7 ∷ []) kind.Index 3) }
    ensures alone { (e : End) → ForkEnd row.traps_behind_print [] (row.with_ticks 9) e → e ≡ Trapped (pos 7 ∷ []) kind.Index 3 }
    ensures no_other { ForkEnd row.traps_behind_print [] (row.with_ticks 9) (Trapped (pos 7 ∷ pos 8 ∷ []) kind.Index 4) → ⊥ }
    ensures serial { SerialEnd row.traps_behind_print [] (row.with_ticks 9) (Trapped (pos 7 ∷ []) kind.Index 3) }
{}

/// Five frames of 16 bytes take two pages of 64 bytes. Of functions marked `cilk` none is live there; main alone where a
/// call that it spawns isn't marked; and three where each calls the next.
pub fn measures_of_runs()
    ensures pages { IsSerialPages (row.deep_calls 3) [] row.two_pages 2 }
    ensures no_cilk { IsCilkDepth (row.deep_calls 3) [] row.two_pages 0 }
    ensures cilk { IsCilkDepth row.spawns_and_syncs [] (row.with_ticks 2) 1 }
    ensures nested { IsCilkDepth row.three_cilk_calls [] (row.with_ticks 3) 3 }
{}

/// A call of a function marked `cilk` takes a page more than its frame: 80 bytes of two pages of 64, and one page of
/// 256 bytes isn't enough.
pub fn cilk_calls_take_pages()
    ensures fits { SerialEnd row.cilk_main [] row.two_pages (Done [] (Some (pos 0)) 1) }
    ensures stack { SerialEnd row.cilk_main [] (row.with_bytes 256) (Trapped [] kind.Stack 1) }
{}

/// Two pieces hold halves of one word. Both read it, and neither may write; at the sync the halves are the whole again,
/// and the word is written. Or the child's half comes back early: then the piece has the whole before its sync, the
/// answer has nothing of it any more, and the end is the same.
pub fn readers_share_a_word()
    ensures parts { StackSum share.lent share.kept share.before }
    ensures both_read { (value_in (share.lent.words 0 0 0) ≡ Some (pos 7)) × (value_in (share.kept.words 0 0 0) ≡ Some (pos 7)) }
    ensures neither_writes { (v : ℤ) → (write_step share.called share.lent 0 0 0 None v [] ≡ stuck)
        × (write_step share.going_on share.kept 0 0 0 None v [] ≡ stuck) }
    ensures hears { Goes share.readers 256 [] share.reader share.heard }
    ensures end { (w : Stack) × Fork share.readers 256 [] share.reader (Done (pos 7 ∷ pos 7 ∷ []) (Some (pos 8)) 3) w }
    ensures returns { Goes share.readers 256 [] share.heard share.returned }
    ensures whole_again { (value_in (share.returned.held.words 0 0 0) ≡ Some (pos 7)) × (may_write (share.returned.held.words 0 0 0) ≡ true) }
    ensures early_end { (w : Stack) × Fork share.readers 256 [] share.returned (Done (pos 7 ∷ pos 7 ∷ []) (Some (pos 8)) 3) w }
{}

//! The laws of the definitions. The functions do nothing: their contracts are the laws.

ghost use Rattle.std.specs.Prelude.{◌≡◌, ◌≢◌, ◌≤◌, ◌⊎◌, [], ℕ, List, ℤ, Option, Bool, true};
ghost use Rattle.cm_syntax.specs.declared.stmt.Program.{Program};
ghost use Rattle.cm_syntax.specs.Fault.{IsSoundProgram};
ghost use Rattle.cm_syntax.specs.Label.{ends, stuck};
ghost use Rattle.cm_syntax.specs.Trap.{Trap};
ghost use Rattle.cm_syntax.specs.Stack.{Stack, Destination, Argument, StackSum, IsUnder, empty_stack, settle};
ghost use Rattle.cm_syntax.specs.Rest.{Control, control, idle, entering};
ghost use Rattle.cm_syntax.specs.Step.{step, frame_count, inside, start_of};
ghost use Rattle.cm_meaning.specs.End.{End, Done, Trapped, Spent};
ghost use Rattle.cm_meaning.specs.Activation.{base, IsSettled};
ghost use Rattle.cm_meaning.specs.Meaning.{Ask, Fork, ForkEnd, SerialEnd, begun, Limits, serial_step, Comes, EndsAs, GetsStuck, first_control};
ghost use Rattle.cm_meaning.specs.Measure.{account_of};
ghost use Rattle.cm_meaning.specs.Typing.{TypedProgram};
ghost use Rattle.cm_meaning.specs.TypedState.{TypedState, KeepsTyped};
ghost use Rattle.cm_meaning.specs.Law.{HoldsDestination, PartsBeside, IsBeside, writes_next, HasNeeded, IsInside, arrival, LowersWeight, PartsStack, KeepsSettled};

/// A step that takes no tick leads to less weight.
pub fn steps_lower_weight()
    ensures { (program : Program) (page : ℕ) (input : List ℤ) (c : Control) (h : Stack)
        → LowersWeight program c (step program page input c h) }
{}

/// Beside: a step on a stack that is joined to words which it doesn't hold, of frames below, is the same step with
/// those words left as they are. The other way, a step that isn't stuck on the whole isn't stuck on a part that has
/// what the step needs. What a spawn lends and keeps beside the words is together the whole.
pub fn steps_beside_words()
    ensures same { (program : Program) (page : ℕ) (input : List ℤ) (c : Control) (h words whole : Stack)
        → StackSum h words whole → IsUnder (frame_count c) words
        → IsBeside words (step program page input c h) (step program page input c whole) }
    ensures needed { (program : Program) (page : ℕ) (input : List ℤ) (c : Control) (h words whole : Stack)
        → StackSum h words whole → HasNeeded (writes_next c.rest) (step program page input c) h whole
        → step program page input c whole ≢ stuck → step program page input c h ≢ stuck }
    ensures parts { (words lent kept more_lent more_kept h whole : Stack) → PartsBeside words lent kept more_lent more_kept
        → StackSum lent kept h → StackSum h words whole → StackSum more_lent more_kept whole }
{}

/// Inside: a step of the elision is the same step within a caller's rest, and where the call is at its end its value is
/// delivered there.
pub fn steps_inside_callers()
    ensures { (program : Program) (page : ℕ) (input : List ℤ) (x : Destination) (continuation c : Control) (h : Stack)
        → IsInside x continuation (arrival x continuation c h) (serial_step program page input c h)
        (serial_step program page input (inside c x continuation) h) }
{}

/// The rest and the frames of the first state fit, and so they do in each state that the elision leads to.
pub fn states_stay_settled()
    ensures first { (main account : ℕ) → IsSettled (start_of main account) empty_stack }
    ensures step { (program : Program) (page : ℕ) (input : List ℤ) (c : Control) (h : Stack)
        → IsSettled c h → KeepsSettled (serial_step program page input c h) }
{}

/// A spawn parts what is held: nothing is in both parts, and together they are all of it.
pub fn spawns_part_stacks()
    ensures { (program : Program) (page : ℕ) (input : List ℤ) (c : Control) (h : Stack)
        → IsSettled c h → PartsStack h (step program page input c h) }
{}

/// Beside, for runs: the elision beside words of frames that the rest doesn't end has the same output and ticks, and
/// leaves the words as they are.
pub fn runs_beside_words()
    ensures { (program : Program) (page : ℕ) (input : List ℤ) (c t : Control) (h g words whole : Stack)
        (out : List ℤ) (n : ℕ) → IsSettled c h → StackSum h words whole → IsUnder (base c) words
        → Comes program page input c h out n t g
        → (later : Stack) × Comes program page input c whole out n t later × StackSum g words later }
{}

/// Inside, for runs: what a call does alone it does within a caller's rest, with the same output and ticks.
pub fn runs_inside_callers()
    ensures { (program : Program) (page : ℕ) (input : List ℤ) (x : Destination) (continuation c t : Control)
        (h g : Stack) (out : List ℤ) (n : ℕ) → Comes program page input c h out n t g
        → Comes program page input (inside c x continuation) h out n (inside t x continuation) g }
{}

/// Each run comes to an end, by a value, a trap or spent ticks, or to a state that no rule has; and it has one end.
pub fn one_serial_end()
    ensures some { (program : Program) (page : ℕ) (input : List ℤ) (c : Control) (h : Stack) (limit : ℕ)
        → ((e : End) × (w : Stack) × EndsAs program page input c h limit e w)
        ⊎ GetsStuck program page input c h limit }
    ensures one { (program : Program) (page : ℕ) (input : List ℤ) (c : Control) (h v w : Stack) (limit : ℕ)
        (d e : End) → EndsAs program page input c h limit d v → EndsAs program page input c h limit e w → d ≡ e }
    ensures words { (program : Program) (page : ℕ) (input : List ℤ) (c : Control) (h v w : Stack) (limit : ℕ)
        (out : List ℤ) (u : Option ℤ) (n : ℕ) → EndsAs program page input c h limit (Done out u n) v
        → EndsAs program page input c h limit (Done out u n) w → v ≡ w }
{}

/// With more ticks the elision does the same, and what is spent with more ticks is spent with fewer.
pub fn more_ticks_same_end()
    ensures done { (program : Program) (page : ℕ) (input : List ℤ) (c : Control) (h w : Stack) (less more : ℕ)
        (out : List ℤ) (v : Option ℤ) (n : ℕ) → less ≤ more
        → EndsAs program page input c h less (Done out v n) w → EndsAs program page input c h more (Done out v n) w }
    ensures trapped { (program : Program) (page : ℕ) (input : List ℤ) (c : Control) (h w : Stack) (less more : ℕ)
        (out : List ℤ) (k : Trap) (n : ℕ) → less ≤ more
        → EndsAs program page input c h less (Trapped out k n) w
        → EndsAs program page input c h more (Trapped out k n) w }
    ensures spent { (program : Program) (page : ℕ) (input : List ℤ) (c : Control) (h w : Stack) (less more : ℕ)
        → less ≤ more → EndsAs program page input c h more Spent w → EndsAs program page input c h less Spent w }
    ensures within { (program : Program) (page : ℕ) (input : List ℤ) (c : Control) (h w : Stack) (less more : ℕ)
        (out : List ℤ) (v : Option ℤ) (n : ℕ) → n ≤ less
        → EndsAs program page input c h more (Done out v n) w → EndsAs program page input c h less (Done out v n) w }
{}

/// The account of each state of the elision is that of its live calls.
pub fn accounts_of_calls()
    ensures { (program : Program) (input : List ℤ) (limits : Limits) (out : List ℤ) (n : ℕ) (t : Control)
        (g : Stack) → Comes program limits.page input (first_control program limits) empty_stack out n t g
        → t.account ≡ account_of program limits t.calls }
{}

/// A spawn is a call of the elision: what the call does alone, it does within the rest of its continuation, and where
/// it ends the continuation goes on, with the same frames and account, and with the value in the destination.
pub fn spawns_are_calls()
    ensures { (program : Program) (page : ℕ) (input : List ℤ) (x : Destination) (continuation t : Control) (f : ℕ)
        (arguments : List Argument) (h g : Stack) (out : List ℤ) (n : ℕ) (v : Option ℤ)
        → continuation.hand ≡ idle → HoldsDestination x (frame_count continuation) h
        → Comes program page input (control continuation.calls continuation.account (entering f arguments) []) h out n
        t g → serial_step program page input t g ≡ ends v
        → Comes program page input
        (inside (control continuation.calls continuation.account (entering f arguments) []) x continuation) h out n
        continuation (settle x v g) }
{}

/// A sound program is well typed.
pub fn sound_programs_are_typed()
    ensures { (program : Program) → IsSoundProgram program → TypedProgram program }
{}

/// The elision of a typed program stays typed, and so it is never stuck.
pub fn typed_programs_go_on()
    ensures first { (program : Program) (account : ℕ) → TypedProgram program
        → TypedState program true (start_of program.main account) empty_stack }
    ensures step { (program : Program) (page : ℕ) (input : List ℤ) (gives : Bool) (c : Control) (h : Stack)
        → TypedProgram program → TypedState program gives c h
        → KeepsTyped program gives (serial_step program page input c h) }
{}

/// The elision of a sound program is never stuck: it has an end, whatever its input and limits.
pub fn sound_programs_end()
    ensures end { (program : Program) (input : List ℤ) (limits : Limits) → IsSoundProgram program
        → (e : End) × SerialEnd program input limits e }
    ensures never_stuck { (program : Program) (input : List ℤ) (limits : Limits) (limit : ℕ) → IsSoundProgram program
        → GetsStuck program limits.page input (first_control program limits) empty_stack limit → ⊥ }
{}

/// Fork and join mean the elision: each end that the rules allow to a piece that begins with a call is the end of the
/// call's elision within as many ticks, with the words that are held there; so each end of a program is its elision's.
pub fn forks_mean_elisions()
    ensures piece { (program : Program) (page : ℕ) (input : List ℤ) (ask : Ask) (e : End) (w : Stack)
        → IsSettled ask.call ask.lent → Fork program page input (begun ask) e w
        → EndsAs program page input ask.call ask.lent ask.start e w }
    ensures program { (program : Program) (input : List ℤ) (limits : Limits) (e : End)
        → ForkEnd program input limits e → SerialEnd program input limits e }
    ensures one_end { (program : Program) (input : List ℤ) (limits : Limits) (d e : End)
        → ForkEnd program input limits d → ForkEnd program input limits e → d ≡ e }
{}

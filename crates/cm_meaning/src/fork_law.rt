//! The laws of fork and join: an end is found, no piece of a checked program is stuck, and what reached pieces look
//! like. The functions do nothing: their contracts are the laws.

ghost use Rattle.std.specs.Prelude.{◌≡◌, ◌≤◌, ◌*◌, [], ℕ, List, ℤ, Option, Bool, true, false};
ghost use Rattle.cm_syntax.specs.declared.stmt.Program.{Program};
ghost use Rattle.cm_syntax.specs.Fault.{IsSoundProgram};
ghost use Rattle.cm_syntax.specs.Lending.{IsAccepted};
ghost use Rattle.cm_syntax.specs.Cell.{absent, is_held, may_write};
ghost use Rattle.cm_syntax.specs.Stack.{Stack, Destination, StackSum, SharesBack};
ghost use Rattle.cm_syntax.specs.Rest.{Control};
ghost use Rattle.cm_meaning.specs.End.{End, Done};
ghost use Rattle.cm_meaning.specs.Piece.{Own, Answer, child, HasNote};
ghost use Rattle.cm_meaning.specs.Activation.{IsSettled};
ghost use Rattle.cm_meaning.specs.Meaning.{Ask, Note, Piece, Fork, GivesBack, ForkEnd, Reached, Stops, AllDone, IsNeverStuck, HoldSameCells, begun, main_ask, Limits, EndsAs, SerialEnd};
ghost use Rattle.cm_meaning.specs.Law.{ComesFromOne};
ghost use Rattle.cm_meaning.specs.Measure.{IsGreatest, IsSerialPages, IsCilkDepth, FitPages, FitDepth, frame_bytes};
ghost use Rattle.cm_meaning.specs.Visible.{SeesProgram};

/// Where no piece is stuck that the rules lead to from a call's, they lead to an end.
pub fn forks_end()
    ensures { (program : Program) (page : ℕ) (input : List ℤ) (ask : Ask) → IsSettled ask.call ask.lent
        → IsNeverStuck program page input (begun ask)
        → (e : End) × (w : Stack) × Fork program page input (begun ask) e w }
{}

/// Where no piece of a program is stuck and its elision ends by a value, a piece that the rules lead to and that comes
/// to its own end has nothing left to do, and its children are Done; and the live calls of each piece are those of some
/// state of the elision, so the elision's measures bound them.
pub fn reached_pieces_return()
    ensures ends { (program : Program) (input : List ℤ) (limits : Limits) (out : List ℤ) (v : Option ℤ) (n : ℕ)
        (p : Piece) (o : Own) → IsNeverStuck program limits.page input (begun (main_ask program limits))
        → SerialEnd program input limits (Done out v n)
        → Reached program limits.page input (begun (main_ask program limits)) p
        → Stops program limits.page input p.start p.own p.control p.held p.log o
        → (p.control.rest ≡ []) × AllDone p.log }
    ensures bound { (program : Program) (input : List ℤ) (limits : Limits) (out : List ℤ) (v : Option ℤ) (n : ℕ)
        (p : Piece) (measure : List ℕ → ℕ) (most : ℕ)
        → IsNeverStuck program limits.page input (begun (main_ask program limits))
        → SerialEnd program input limits (Done out v n)
        → Reached program limits.page input (begun (main_ask program limits)) p
        → IsGreatest program input limits measure most → measure p.control.calls ≤ most }
    ensures pages { (program : Program) (input : List ℤ) (limits : Limits) (out : List ℤ) (v : Option ℤ) (n : ℕ)
        (p : Piece) (pages : ℕ) → 1 ≤ limits.page
        → IsNeverStuck program limits.page input (begun (main_ask program limits))
        → SerialEnd program input limits (Done out v n)
        → Reached program limits.page input (begun (main_ask program limits)) p
        → IsSerialPages program input limits pages → frame_bytes program p.control.calls ≤ pages * limits.page }
{}

/// In a sound program each mention is of a visible variable: no whole of a split round it, and no slice but a parameter
/// or a part of such a split.
pub fn sound_programs_see()
    ensures { (program : Program) → IsSoundProgram program → SeesProgram program }
{}

/// No piece of a program that is sound and obeys the lending rule is stuck, whatever the rules lead to.
pub fn checked_programs_go_on()
    ensures { (program : Program) (input : List ℤ) (limits : Limits) → IsSoundProgram program → IsAccepted program
        → IsNeverStuck program limits.page input (begun (main_ask program limits)) }
{}

/// Fork and join mean the elision: the rules allow to a program that is sound and obeys the lending rule the end of its
/// elision, by a value, a trap or spent ticks, and no other end; and to each call that they lead to the end of its own
/// elision within the ticks that it was given, and no other.
pub fn checked_programs_fork()
    ensures end { (program : Program) (input : List ℤ) (limits : Limits) (e : End) → IsSoundProgram program
        → IsAccepted program → SerialEnd program input limits e → ForkEnd program input limits e }
    ensures only { (program : Program) (input : List ℤ) (limits : Limits) (e : End) → IsSoundProgram program
        → IsAccepted program → ForkEnd program input limits e → SerialEnd program input limits e }
    ensures calls { (program : Program) (input : List ℤ) (limits : Limits) (ask : Ask) → IsSoundProgram program
        → IsAccepted program → Reached program limits.page input (begun (main_ask program limits)) (begun ask)
        → (e : End) × (w : Stack) × Fork program limits.page input (begun ask) e w
        × EndsAs program limits.page input ask.call ask.lent ask.start e w
        × ((d : End) (v : Stack) → Fork program limits.page input (begun ask) d v → d ≡ e) }
{}

/// Where the elision of a program that is sound and obeys the lending rule ends by a value, a reached piece that is at
/// its end has an empty rest, and all its children are Done. The frame bytes of a reached piece's live calls are at
/// most the serial run's pages, and its live frames of functions marked `cilk` at most the serial run's.
pub fn checked_pieces_return()
    ensures ends { (program : Program) (input : List ℤ) (limits : Limits) (out : List ℤ) (v : Option ℤ) (n : ℕ)
        (p : Piece) (o : Own) → IsSoundProgram program → IsAccepted program
        → SerialEnd program input limits (Done out v n)
        → Reached program limits.page input (begun (main_ask program limits)) p
        → Stops program limits.page input p.start p.own p.control p.held p.log o
        → (p.control.rest ≡ []) × AllDone p.log }
    ensures pages { (program : Program) (input : List ℤ) (limits : Limits) (out : List ℤ) (v : Option ℤ) (n : ℕ)
        (pages : ℕ) → IsSoundProgram program → IsAccepted program → 1 ≤ limits.page
        → SerialEnd program input limits (Done out v n) → IsSerialPages program input limits pages
        → FitPages program input limits pages }
    ensures depth { (program : Program) (input : List ℤ) (limits : Limits) (out : List ℤ) (v : Option ℤ) (n : ℕ)
        (most : ℕ) → IsSoundProgram program → IsAccepted program
        → SerialEnd program input limits (Done out v n) → IsCilkDepth program input limits most
        → FitDepth program input limits most }
{}

/// A child gives back what it was lent: the words that come with an end by a value, which the rules allow to a child of
/// a reached piece, are those that it was lent, whatever is in them.
pub fn children_give_back()
    ensures { (program : Program) (input : List ℤ) (limits : Limits) (p : Piece) (d own : ℕ) (x : Destination)
        (joined : Bool) (ask : Ask) (r : Answer Control Stack Destination) (out : List ℤ) (v : Option ℤ) (n : ℕ)
        (w : Stack) → IsSoundProgram program → IsAccepted program
        → Reached program limits.page input (begun (main_ask program limits)) p
        → HasNote Control Stack Destination p.log (child d own x joined ask r)
        → Fork program limits.page input (begun ask) (Done out v n) w → HoldSameCells ask.lent w }
{}

/// Shares that a child got for reading may come back before its sync. They come out of the answer of one child that is
/// Done; what piece and answer hold comes to the same together as before; no word comes back whole, and what came back is
/// in the answer no more, so that nothing comes back a second time.
pub fn shares_come_back_once()
    ensures from_one { (program : Program) (page : ℕ) (input : List ℤ) (log later : List Note) (h g : Stack)
        → GivesBack program page input log h later g → ComesFromOne log later h g }
    ensures together { (back rest given h g whole : Stack) → SharesBack back rest given → StackSum h back g
        → StackSum h given whole → StackSum g rest whole }
    ensures no_whole { (back rest given : Stack) → SharesBack back rest given → (d s i : ℕ) → may_write (back.words d s i) ≡ false }
    ensures once { (back rest given : Stack) → SharesBack back rest given → (d s i : ℕ)
        → is_held (back.words d s i) ≡ true → rest.words d s i ≡ absent }
{}

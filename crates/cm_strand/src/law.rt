//! The laws of strands. The functions do nothing: their contracts are the laws.
//!
//! Each says of one event that the strand which it touches stands afterwards for a piece to which the rules of fork and join
//! lead. They speak of a world, a sound program that obeys the lending rule, in its build, with an input and limits; and of
//! requests of reached pieces. Nothing is said of workers, pages or other strands.

ghost use Rattle.cm_strand.specs.Strand.{Request};
ghost use Rattle.cm_strand.specs.Law.{World, IsReached, Starts, KeepsByInstruction, KeepsByPrint, KeepsByReply, KeepsByPass, KeepsByPage, KeepsBySpawn, KeepsByCollect, KeepsByPop, KeepsByLower, KeepsByJoin, KeepsEndingByJoin, EndsByJoin, BreaksOff, Closes, EndsByTrap, EndsByTicks, KeepsByClose, AnswersByValue, AnswersOtherwise, FramesStay, OwnsMore, OwnsLess, OwnsAnswer, OwnsJoined, RunsOnFree, GoesOnBehind, GoesOnForAll, LeadsToReached, KeepsEnds, CoversMore, CoversLess, SparesBySpawn, SparesByAnswer, SparesByJoin, FramesFitPages, FramesFitStack, RootStarts, RootEnds, ChildrenAnswer, HoldsNoPart, GivesNoPart, FreeWordsServe, FramesLieAbove, AsksKnown, HearsInput};

/// The strand of a request stands for its piece, before its first instruction; and so does main's with the machine of the
/// start of a run.
pub fn strands_start()
    ensures child { (w : World) (request : Request) → IsReached w request → Starts w request }
    ensures root { (w : World) → RootStarts w }
{}

/// After each instruction, print, reply, sync of a frame without children, and page, a strand stands for a piece to which
/// the rules lead. An instruction leaves the returns, but a call adds the address behind it and a return takes the last one.
pub fn strands_go_on()
    ensures instruction { (w : World) (request : Request) → IsReached w request → KeepsByInstruction w request }
    ensures print { (w : World) (request : Request) → IsReached w request → KeepsByPrint w request }
    ensures reply { (w : World) (request : Request) → IsReached w request → KeepsByReply w request }
    ensures pass { (w : World) (request : Request) → IsReached w request → KeepsByPass w request }
    ensures page { (w : World) (request : Request) → IsReached w request → KeepsByPage w request }
{}

/// A strand asks for services 0 to 9 alone; where it asks for a number of the input, it is there and is replied, or it isn't
/// and the strand traps.
pub fn strands_ask()
    ensures known { (w : World) (request : Request) → IsReached w request → AsksKnown w request }
    ensures input { (w : World) (request : Request) → IsReached w request → HearsInput w request }
{}

/// A spawn: the continuation stands for the piece with the child in its log, and the child for the piece that it is asked
/// for; what was owned is parted in two.
pub fn strands_spawn()
    ensures { (w : World) (request : Request) → IsReached w request → KeepsBySpawn w request }
{}

/// An answer that is collected or popped fills its hole: its words are kept aside or run on, the destination is written, and
/// of a popped child the ticks are taken. For a thief the next frame is to stand at a page.
pub fn strands_hear()
    ensures collect { (w : World) (request : Request) → IsReached w request → KeepsByCollect w request }
    ensures pop { (w : World) (request : Request) → IsReached w request → KeepsByPop w request }
    ensures lower { (w : World) (request : Request) → IsReached w request → KeepsByLower w request }
{}

/// A join takes in the words and the ticks of its children, or the strand is ending.
pub fn strands_join()
    ensures fits { (w : World) (request : Request) → IsReached w request → KeepsByJoin w request }
    ensures ending_ { (w : World) (request : Request) → IsReached w request → KeepsEndingByJoin w request }
    ensures breaks { (w : World) (request : Request) → IsReached w request → EndsByJoin w request }
    ensures breaks_off { BreaksOff }
    ensures closes { Closes }
{}

/// A trap and spent ticks are the end of the piece; a strand that is ending goes on past its scopes.
pub fn strands_fail()
    ensures trap { (w : World) (request : Request) → IsReached w request → EndsByTrap w request }
    ensures spent { (w : World) (request : Request) → IsReached w request → EndsByTicks w request }
    ensures close { (w : World) (request : Request) → IsReached w request → KeepsByClose w request }
{}

/// What a strand decides is an end that the rules allow to what it was asked, and it gives all words back.
pub fn strands_answer()
    ensures value { (w : World) (request : Request) → IsReached w request → AnswersByValue w request }
    ensures otherwise { (w : World) (request : Request) → IsReached w request → AnswersOtherwise w request }
{}

/// What a strand answers to a child's call is, by a value, an answer of it as the meaning has them: an end that the rules
/// allow, with the words that were lent.
pub fn strands_give_answers()
    ensures { (w : World) → ChildrenAnswer w }
{}

/// What answers the call of main is the end of the serial elision, by a value, a trap or spent ticks.
pub fn the_root_ends_as_the_elision()
    ensures { (w : World) → RootEnds w }
{}

/// Behind an event the piece is reached where the one before was, and each end that the rules allow to it they allow to the
/// one before. What one event leaves, the next one takes up: behind both the strand stands for a piece to which the rules
/// lead from the first one, and the frames of both ways are one walk; and so it is behind any list of events.
pub fn events_go_on()
    ensures reached { (w : World) (request : Request) → LeadsToReached w request }
    ensures ends { (w : World) (request : Request) → KeepsEnds w request }
    ensures both { (w : World) (request : Request) → GoesOnBehind w request }
    ensures all { (w : World) (request : Request) → GoesOnForAll w request }
{}

/// No frame moves while it lives, over any list of events.
pub fn frames_of_strands_stay()
    ensures { FramesStay }
{}

/// The frames of each reached piece with the next one take at most the pages of the serial stack and one for each live frame
/// of a function marked `cilk`, where the elision ends by a value; and never more than the pages of the stack account. Their
/// words stand from where the next frame may stand up to the top of the stack.
pub fn frames_of_strands_fit()
    ensures lie { (w : World) → FramesLieAbove w }
    ensures pages { (w : World) → FramesFitPages w }
    ensures stack { (w : World) → FramesFitStack w }
{}

/// The free words below the frames, of which a strand owns all: they stay so where pages or an answer come and where pages
/// go along with a child; and no hole claims any of them, but for a child's until it is answered, and those of a scope until
/// its join. The first store into a new frame finds them mapped.
pub fn free_words_stay()
    ensures serve { (w : World) → FreeWordsServe w }
    ensures more { CoversMore }
    ensures less { CoversLess }
    ensures spawn { SparesBySpawn }
    ensures answer { SparesByAnswer }
    ensures join_ { SparesByJoin }
{}

/// What a strand owns altogether: further words are added, a child's are taken from it, an answer's are added with the value
/// in its destination, and a join leaves it as it was. So the sums of which the events speak are there. Where all words
/// between two addresses are given to a strand and none of its holes claims any of them, it runs on them and may write them.
pub fn strands_own()
    ensures more { OwnsMore }
    ensures less { OwnsLess }
    ensures answer { OwnsAnswer }
    ensures joined { OwnsJoined }
    ensures free { RunsOnFree }
{}

/// No word is shared so far, since nothing is lent for reading alone: what a reached piece holds it holds as a whole, and so
/// does what a child gives back.
pub fn no_word_is_shared_yet()
    ensures held { (w : World) → HoldsNoPart w }
    ensures back { (w : World) → GivesNoPart w }
{}

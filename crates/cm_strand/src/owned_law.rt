//! The algebra of owned words: shares of words by their addresses, which come together and are parted. The functions do
//! nothing: their contracts are the laws.

ghost use Rattle.std.specs.Prelude.{◌≡◌, ℕ, None, IsSome};
ghost use Rattle.cm_isa.specs.Machine.{IsWritable, reads, with_word};
ghost use Rattle.cm_isa.specs.Run.{Extends};
ghost use Rattle.cm_strand.specs.Owned.{Owned, Claim, OwnedSum, ClaimSum, MayWrite, Lacks, seen, claim, no_words, no_claim, put};

/// Owned words come together in any order, and three parts can be grouped either way; no words are no part. What is
/// claimed of the sum is the sum of the claims.
pub fn owned_words_come_together()
    ensures commutes { (a b c : Owned) → OwnedSum a b c → OwnedSum b a c }
    ensures associates { (a b c x y : Owned) → OwnedSum a b x → OwnedSum x c y
        → (z : Owned) × OwnedSum b c z × OwnedSum a z y }
    ensures none { (a : Owned) → OwnedSum no_words a a }
    ensures none_alone { (a b : Owned) → OwnedSum no_words a b → b ≡ a }
    ensures claims { (a b c : Owned) → OwnedSum a b c → ClaimSum (claim a) (claim b) (claim c) }
{}

/// The same of claims: and two claims have one sum. Who may write a word has it alone, and the sum has
/// it whole; where all of a word is claimed
/// and one part claims nothing of it, the other part has the whole.
pub fn claims_come_together()
    ensures commutes { (a b c : Claim) → ClaimSum a b c → ClaimSum b a c }
    ensures associates { (a b c x y : Claim) → ClaimSum a b x → ClaimSum x c y
        → (z : Claim) × ClaimSum b c z × ClaimSum a z y }
    ensures none { (a : Claim) → ClaimSum no_claim a a }
    ensures one_sum { (a b c d : Claim) → ClaimSum a b c → ClaimSum a b d → c ≡ d }
    ensures alone { (a b c : Claim) (x : ℕ) → ClaimSum a b c → MayWrite a x → Lacks b x }
    ensures whole { (a b c : Claim) (x : ℕ) → ClaimSum a b c → MayWrite a x → MayWrite c x }
    ensures rest { (a b c : Claim) (x : ℕ) → ClaimSum a b c → MayWrite c x → Lacks b x → MayWrite a x }
{}

/// What a machine sees of owned words: it may write those of which the whole is claimed and no others, and read those of
/// which something is claimed and no others; of a part it sees nothing else than of the sum. Where a word is written it
/// sees the new word there and the others as before, and the claim stays.
pub fn owned_words_are_seen()
    ensures more { (a b c : Owned) → OwnedSum a b c → Extends (seen a) (seen c) }
    ensures whole { (w : Owned) (x : ℕ) → MayWrite (claim w) x → IsWritable (seen w x) }
    ensures no_part { (w : Owned) (x : ℕ) → IsWritable (seen w x) → MayWrite (claim w) x }
    ensures some { (w : Owned) (x : ℕ) → (Lacks (claim w) x → ⊥) → IsSome (reads (seen w x)) }
    ensures no_more { (w : Owned) (x : ℕ) → Lacks (claim w) x → reads (seen w x) ≡ None }
    ensures written { (w : Owned) (a v : ℕ) → MayWrite (claim w) a → seen (put w a v) ≡ with_word (seen w) a v }
    ensures same_claim { (w : Owned) (a v : ℕ) → claim (put w a v) ≡ claim w }
{}

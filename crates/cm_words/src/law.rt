//! The laws of grants. The functions do nothing: their contracts are the laws.
ghost use Rattle.std.specs.Prelude.{◌≡◌, ℕ, List, Bool, true};
ghost use Rattle.cm_share.specs.Share.{Share, whole, Point, has_point};
ghost use Rattle.cm_words.specs.Held.{Held, nothing, held, cell, HeldSum, each, kept_of, parted_of, kept_part_of, lent_part_of, kept_half_of, lent_half_of};

/// What two grants of a place come to: one sum, in whatever order; of one word, and of shares that are apart; and a share that was halved comes back.
pub fn grants_come_together()
    ensures commutes { (a b c : Held) → HeldSum a b c → HeldSum b a c }
    ensures one_sum { (a b c d : Held) → HeldSum a b c → HeldSum a b d → c ≡ d }
    ensures apart { (q p : Share) (v w : ℕ) (c : Held) → HeldSum (held q v) (held p w) c → (v ≡ w) × ((x : Point) → has_point q x ≡ true → has_point p x ≡ true → ⊥) }
    ensures halves { (c d : Held) → HeldSum (kept_part_of c) (lent_part_of c) d → d ≡ c }
{}

/// What a span's places keep and give, place by place; and the two parts of a place are what there was.
pub fn spans_part_grants()
    ensures parted { (inside : ℕ → Bool) (cs : List Held) (i : ℕ) → (cell (each (kept_of inside) 0 cs) i ≡ kept_of inside i (cell cs i)) × (cell (each (parted_of inside) 0 cs) i ≡ parted_of inside i (cell cs i)) }
    ensures halved { (inside : ℕ → Bool) (cs : List Held) (i : ℕ) → (cell (each (kept_half_of inside) 0 cs) i ≡ kept_half_of inside i (cell cs i)) × (cell (each (lent_half_of inside) 0 cs) i ≡ lent_half_of inside i (cell cs i)) }
    ensures parts { (inside : ℕ → Bool) (cs : List Held) (i : ℕ) → HeldSum (cell (each (kept_of inside) 0 cs) i) (cell (each (parted_of inside) 0 cs) i) (cell cs i) }
    ensures halves { (inside : ℕ → Bool) (cs : List Held) (i : ℕ) → HeldSum (cell (each (kept_half_of inside) 0 cs) i) (cell (each (lent_half_of inside) 0 cs) i) (cell cs i) }
{}

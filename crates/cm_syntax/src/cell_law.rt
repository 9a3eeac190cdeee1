//! Laws of cells: what a spawn and a join make of what a stack holds of one word. The functions do nothing: their
//! contracts are the laws.

ghost use Rattle.std.specs.Prelude.{◌≡◌, true, false, ℤ, Some};
ghost use Rattle.cm_share.specs.Share.{Part};
ghost use Rattle.cm_syntax.specs.Cell.{Cell, absent, present, shared, share_in, value_in, may_write, Loan, to_read, lent_cell, kept_cell, CellSum, settle_cell, ComesBack};

/// Cells have one sum, in whatever order they come together; what may be written is held by nobody else; what may be read
/// reads the same in the sum, and by everybody; and no join makes more than the whole, joins different words, or forgets
/// a share.
pub fn cells_come_together()
    ensures commutes { (a b c : Cell ℤ) → CellSum a b c → CellSum b a c }
    ensures associates { (a b c x y : Cell ℤ) → CellSum a b x → CellSum x c y
        → (z : Cell ℤ) × CellSum b c z × CellSum a z y }
    ensures one_sum { (a b x y : Cell ℤ) → CellSum a b x → CellSum a b y → x ≡ y }
    ensures one_rest { (a b c x : Cell ℤ) → CellSum a b x → CellSum a c x → b ≡ c }
    ensures written_by_one { (a b c : Cell ℤ) → CellSum a b c → may_write a ≡ true → b ≡ absent }
    ensures reads_alike { (a b c : Cell ℤ) (v : ℤ) → CellSum a b c → value_in a ≡ Some v → value_in c ≡ Some v }
    ensures no_more_than_whole { (q : Part) (v w : ℤ) (c : Cell ℤ) → CellSum (present v) (shared q w) c → ⊥ }
    ensures no_share_twice { (p : Part) (v : ℤ) (c : Cell ℤ) → CellSum (shared p v) (shared p v) c → ⊥ }
    ensures no_share_forgotten { (a b : Cell ℤ) → CellSum a b a → b ≡ absent }
    ensures one_word { (p q : Part) (v w : ℤ) (c : Cell ℤ) → CellSum (shared p v) (shared q w) c → v ≡ w }
    ensures settles { (a b c : Cell ℤ) (v : ℤ) → CellSum a b c → may_write a ≡ true → CellSum (settle_cell a v) b (settle_cell c v) }
{}

/// A spawn parts a cell, however it is lent. Where a word is lent for reading both sides read it and neither writes,
/// and the parts together are the word that it was, and nothing else.
pub fn loans_part_cells()
    ensures sum { (l : Loan) (c : Cell ℤ) → CellSum (lent_cell l c) (kept_cell l c) c }
    ensures both_read { (c : Cell ℤ) (v : ℤ) → value_in c ≡ Some v
        → (value_in (lent_cell to_read c) ≡ Some v) × (value_in (kept_cell to_read c) ≡ Some v) }
    ensures neither_writes { (c : Cell ℤ) (v : ℤ) → value_in c ≡ Some v
        → (may_write (lent_cell to_read c) ≡ false) × (may_write (kept_cell to_read c) ≡ false) }
    ensures whole_again { (v : ℤ) (c : Cell ℤ)
        → CellSum (lent_cell to_read (present v)) (kept_cell to_read (present v)) c → c ≡ present v }
    ensures share_comes_back { (a b : Cell ℤ) → ComesBack a b → share_in b ≡ share_in a }
{}

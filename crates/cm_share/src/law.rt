//! The laws of shares. The functions do nothing: their contracts are the laws.

ghost use Rattle.std.specs.Prelude.{◌≡◌, ◌∷◌, [], true, false, Some};
ghost use Rattle.cm_share.specs.Share.{Share, whole, part, left, right, both, most, Point, has_point, ShareSum, kept_half, lent_half};
ghost use Rattle.cm_share.specs.Together.{together};
ghost use Rattle.cm_share.specs.Strings.{strings, part_strings, some_leads_to, HalvesFirst};

/// Shares that are apart have one sum, in whatever order they come together; a share is less than a sum that it is in;
/// nobody holds anything beside the whole, and nobody the same share twice.
pub fn shares_come_together()
    ensures commutes { (a b c : Share) → ShareSum a b c → ShareSum b a c }
    ensures associates { (a b c x y : Share) → ShareSum a b x → ShareSum x c y
        → (z : Share) × ShareSum b c z × ShareSum a z y }
    ensures one_sum { (a b x y : Share) → ShareSum a b x → ShareSum a b y → x ≡ y }
    ensures one_rest { (a b c x : Share) → ShareSum a b x → ShareSum a c x → b ≡ c }
    ensures computed { (a b c : Share) → ShareSum a b c → together a (Some b) ≡ c }
    ensures less { (a b : Share) → ShareSum a b a → ⊥ }
    ensures alone { (b c : Share) → ShareSum whole b c → ⊥ }
    ensures apart { (a c : Share) → ShareSum a a c → ⊥ }
{}

/// A share is the sum of its halves. Halving goes by the first string of a share: what is kept has 0 behind it and the
/// other strings, what is lent has 1 behind it.
pub fn shares_are_halved()
    ensures sum { (s : Share) → ShareSum (part (kept_half s)) (part (lent_half s)) s }
    ensures first { (s : Share) → HalvesFirst (strings s) (part_strings (kept_half s)) (part_strings (lent_half s)) }
    ensures of_whole { (kept_half whole ≡ left whole) × (lent_half whole ≡ right whole) }
    ensures of_0 { (kept_half (part (left whole)) ≡ left (part (left whole))) × (lent_half (part (left whole)) ≡ left (part (right whole))) }
    ensures of_1 { (kept_half (part (right whole)) ≡ right (part (left whole))) × (lent_half (part (right whole)) ≡ right (part (right whole))) }
    ensures of_00_1 { (kept_half (part (both (left whole) whole)) ≡ both (left (part (left whole))) whole)
        × (lent_half (part (both (left whole) whole)) ≡ left (part (left (part (right whole))))) }
    ensures of_0_10 { (kept_half (part (most (left whole))) ≡ both (left whole) (part (left whole)))
        × (lent_half (part (most (left whole))) ≡ left (part (right whole))) }
{}

/// A share is the pieces of the whole to which its strings lead.
pub fn shares_are_strings()
    ensures points { (s : Share) (x : Point) → has_point s x ≡ some_leads_to (strings s) x }
    ensures whole_string { strings whole ≡ [] ∷ [] }
    ensures strings_00_1 { strings (part (both (left whole) whole)) ≡ (false ∷ false ∷ []) ∷ (true ∷ []) ∷ [] }
    ensures strings_0_10 { strings (part (most (left whole))) ≡ (false ∷ []) ∷ (true ∷ false ∷ []) ∷ [] }
{}

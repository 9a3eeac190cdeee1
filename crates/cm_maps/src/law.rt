//! The laws of page maps. The functions do nothing: their contracts are the laws.
ghost use Rattle.std.specs.Prelude.{◌≡◌, ℕ, ◌+◌, ◌*◌, ◌/◌, ◌<◌, ◌++◌, ◌∷◌, [], List, take, slice_get, Some};
ghost use Rattle.std.specs.List.{Contains};
ghost use Rattle.cm_maps.specs.Pages.{IsPage, MapState, AreDistinct};
ghost use Rattle.cm_maps.specs.Shown.{Shows};
ghost use Rattle.cm_maps.specs.declared.map.TheConstants.{STACK_TOP};

/// The i-th page of a map shows the addresses from `STACK_TOP - (i + 1) * page` up to `STACK_TOP - i * page`, each as
/// its word in that page, and an address is shown as one place at most.
pub fn pages_show_their_bytes()
    ensures shown { (map : MapState) (index number offset address : ℕ) → IsPage map.page
        → slice_get map.pages index ≡ Some number → offset < map.page
        → address + (index + 1) * map.page ≡ STACK_TOP + offset
        → Shows map address (number * (map.page / 4) + offset / 4) }
    ensures one_place { (map : MapState) (address first second : ℕ) → Shows map address first → Shows map address second
        → first ≡ second }
{}

/// A map whose pages are distinct stays so where a page is added that it doesn't have, and where it is cut.
pub fn distinct_pages_stay_distinct()
    ensures added { (pages : List ℕ) (number : ℕ) → AreDistinct pages → (Contains pages number → ⊥)
        → AreDistinct (pages ++ number ∷ []) }
    ensures kept { (pages : List ℕ) (keep : ℕ) → AreDistinct pages → AreDistinct (take keep pages) }
{}

//! The law of the words of a grant. The function does nothing: its contract is the law.
ghost use Rattle.std.specs.Prelude.{◌≡◌, ℕ, ◌%◌, List};
ghost use Rattle.cm_isa.specs.Machine.{IsMap};
ghost use Rattle.cm_maps.specs.Pages.{IsPage, MapState, AreDistinct};
ghost use Rattle.cm_words.specs.Held.{Held};
ghost use Rattle.cm_worker.specs.GrantView.{grant_view};

/// Where no page stands twice in the map, each place is shown at the four bytes of one word: so a step is one of the
/// machine.
pub fn grants_are_maps()
    ensures { (low : ℕ) (map : MapState) (cells : List Held) → low % 4 ≡ 0 → IsPage map.page → AreDistinct map.pages →
        IsMap (grant_view low map cells) }
{}

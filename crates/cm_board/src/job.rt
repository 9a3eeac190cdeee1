//! What a board is used for.
ghost use Rattle.std.specs.Prelude.{ℕ, List, Option};

/// What lies on a board, with the facts that tie it to the scope.
pub trait Job {
    /// Plain data: where the scope's pages and tasks lie.
    type Home: Drop;

    /// Plain data: what a child is to do.
    type Ask: Drop;

    /// What a child leaves at its place.
    type Answer: Drop;

    /// What the owner leaves when it parks.
    type Task: Drop;

    /// Surplus pages.
    type Surplus: Drop;

    // An answer answers an ask.
    ghost answers: { Self.Ask → Self.Answer → Type 0 };

    // A task belongs to an owner: by its home, number of pages and the asks of its places.
    ghost belongs: { Self.Home → ℕ → List (Option Self.Ask) → Self.Task → Type 0 };

    // Surplus lies in the home, and has the scope's number of pages.
    ghost lies_in: { Self.Home → ℕ → Self.Surplus → Type 0 };
}

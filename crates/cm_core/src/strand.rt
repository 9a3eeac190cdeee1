//! What strands are inside.
ghost use Rattle.std.specs.Prelude.{ℕ, List};
ghost use Rattle.cm_core.specs.Event.{Strands};

/// What strands are inside, as the machine sees them: bodies, how strands end, how they go on.
pub trait Strand {
    // What a strand is inside: its registers, its log, and whether it is ending.
    ghost Body: { Type 0 };

    // How a strand ends.
    ghost Ended: { Type 0 };

    // How strands go on.
    ghost strands: { Strands Body Ended };

    // What a strand is inside fits the numbers of pages of its scopes and its home.
    ghost fits: { List ℕ → Body → Type 0 };
}

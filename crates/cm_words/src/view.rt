//! What the seat of a grant knows of the region: its own list of places. It has no bytes.
ghost use Rattle.std.specs.Prelude.{List};
ghost use base.Fml.{ftrue};
ghost use Rattle.cm_words.specs.Held.{Held, cells_coded};

use std::marker::Model;

/// By places: the share that the grant has of each, and the word there. `more` is a second such list, which is empty but
/// between the two steps that unite two grants.
#[derive(Drop)]
pub struct View {
    pub ghost cells: { List Held } by { cells_coded },
    pub ghost more: { List Held } by { cells_coded },
}

impl Model for View {
    ghost also_owns = { λ _. ftrue };
}

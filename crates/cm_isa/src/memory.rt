//! The words of memory, as an instruction sees them.
ghost use Rattle.std.specs.Prelude.{◌≡◌, IsTrue};
ghost use Rattle.cm_isa.specs.View.{Puts, SameMap, may_load, may_store};

/// What the map shows at an address.
#[derive(Clone, Copy, Debug, PartialEq, Eq)]
pub enum Shown {
    /// The place of the word that holds this address.
    Place(u32),
    /// An address of the stack that is not mapped.
    Page,
    /// An address that is none of the stack's.
    Outside,
}

/// Words of 32 bits in places, which addresses show. Two addresses may show the same place.
///
/// An instruction sees no more of it than its `view`. The `rest` is what its owner knows beside that,
/// as the pages of its map, and neither a load nor a store changes it. Where the words are borrowed, the
/// name of the reference belongs to it, since a step could else leave another one there.
pub trait Words {
    ghost use Rattle.cm_isa.specs.View.{View};

    /// What an instruction sees: what is shown at each address, what the caller may do with each place, and the
    /// word in it.
    ghost view: { Self → View };

    /// The type of what the owner knows beside the view.
    ghost Rest: { Type 0 };

    /// What the owner knows beside the view.
    ghost rest: { Self → Rest };

    /// What the map shows at an address.
    fn show(&self, address: u32) -> Shown
        ensures { result ≡ (view self.now).shown address };

    /// The word in a place that may be read.
    fn load(&mut self, place: u32) -> u32
        requires { IsTrue (may_load ((view self.old).access place)) }
        ensures word { result ≡ (view self.old).word_at place }
        ensures same_view { view self.new ≡ view self.old }
        ensures same_rest { rest self.new ≡ rest self.old };

    /// Puts a word in a place that may be written.
    fn store(&mut self, place: u32, word: u32)
        requires { IsTrue (may_store ((view self.old).access place)) }
        ensures words { Puts (view self.old) (view self.new) place word }
        ensures same_map { SameMap (view self.old) (view self.new) }
        ensures same_rest { rest self.new ≡ rest self.old };
}

//! The words of a hart: those that a grant has a share of, at the addresses that a page map shows.
ghost use Rattle.std.specs.Prelude.{◌≡◌};
ghost use base.Stored.{Coded-set};
ghost use Rattle.atomic_table.specs.Seated.{table_id_coded};
ghost use Rattle.cm_words.specs.RegionOf.{region_of};
ghost use Rattle.cm_worker.specs.GrantView.{unmapped_shown};

use cm_isa::{Shown, Words};
use cm_maps::{Map, STACK_TOP};
use cm_words::{Grant, Region};

/// The words of a region at the places of a grant of it, which a page map shows in a stack that has the addresses from
/// `low` up to `STACK_TOP`. A word of which the grant has the whole may be read and written, and one of which it has a
/// part may be read.
#[derive(Drop)]
pub struct GrantWords<'a> {
    /// The region.
    pub region: &'a Region,
    /// A grant of its places.
    pub grant: &'a mut Grant,
    /// The pages that are mapped.
    pub map: &'a Map,
    /// The lowest address of the stack.
    pub low: u32,
    ghost here: { grant.now.region ≡ region_of region.now } by { Coded-set table_id_coded _ _ },
}

impl Words for GrantWords<'_> {
    ghost use Rattle.cm_worker.specs.GrantView.{Known, grant_view, shares};

    ghost view = { λ w. grant_view w.low w.map.now w.grant.now.cells };

    ghost Rest = { Known };

    ghost rest = { λ w. record { name = w.grant.ghost_name; region = w.grant.now.region; shares_of = shares w.grant.now.cells; low = w.low; map = w.map.now } };

    fn show(&self, address: u32) -> Shown {
        if address >= STACK_TOP {
            return Shown::Outside;
        }
        match self.map.translate(address) {
            Some(place) => Shown::Place(place),
            None => unmapped(address, self.low),
        }
    }

    fn load(&mut self, place: u32) -> u32 {
        self.region.load(self.grant, place)
    }

    fn store(&mut self, place: u32, word: u32) {
        self.region.store(self.grant, place, word);
    }
}

/// What stands at an address below `STACK_TOP` that no page shows.
fn unmapped(address: u32, low: u32) -> Shown
    ensures { result ≡ unmapped_shown low address }
{
    if address < low {
        Shown::Outside
    } else {
        Shown::Page
    }
}

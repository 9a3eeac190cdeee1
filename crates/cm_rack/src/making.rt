//! Making a rack, with its hands.
ghost use Rattle.std.specs.Prelude.{◌≡◌, ◌+◌, ◌<◌, [], ◌∷◌, replicate, vec_len, All, IfOk};
ghost use Rattle.cm_rack.specs.Seen.{rack_of, places_of, hand_rack, found_by};
ghost use Rattle.cm_rack.specs.declared.view.View.TheVariants.{Idle};

use crate::play::Another;
use crate::racked::Racked;
use crate::ticket::{Hand, Rack};
use crate::view::View;
use atomic_table::{Seat, Table};
use cm_text::Memory;
use std::alloc::Global;

// So many zeros.
fn zeros(alloc: Global, count: usize) -> Result<Vec<u64>, Memory>
    ensures { IfOk result (λ v. v.items ≡ replicate count 0) }
{
    let Ok(mut words) = Vec::with_capacity(alloc, count) else {
        return Err(Memory);
    };
    let mut i = 0;
    while i < count {
        let Ok(()) = words.push(0) else {
            return Err(Memory);
        };
        i += 1;
    }
    Ok(words)
}

// A rack of empty places, and the first seat.
fn open<T: Drop + Racked>(
    alloc: Global,
    places: u32,
) -> Result<(Rack<T>, Seat<Option<T>, View<T::Tag>>), Memory>
    ensures { IfOk result (λ r. (r.0.table.shared.table_id.slots ≡ places) × (r.1.table_id ≡ r.0.table.shared.table_id) × (r.1.me ≡ (Idle [], []))) }
{
    let count = places as usize;
    let words = zeros(alloc, count + 1)?;
    let Ok((table, seat)) = Table::vacant(alloc, words.as_slice(), count, &()) else {
        return Err(Memory);
    };
    Ok((Rack { table }, seat))
}

impl<T: Drop + Racked> Rack<T> {
    // A hand beside this seat, which names nothing.
    fn hand(&self, seat: &mut Seat<Option<T>, View<T::Tag>>) -> Hand<T>
        requires table { seat.old.table_id ≡ self.now.table.shared.table_id }
        requires idle { seat.old.me ≡ (Idle [], []) }
        ensures table { seat.new.table_id ≡ seat.old.table_id }
        ensures idle { seat.new.me ≡ (Idle [], []) }
        ensures hand { (result.seat.table_id ≡ self.now.table.shared.table_id) × (found_by result ≡ []) }
    {
        Hand {
            seat: self.table.shared.split_seat::<Another>(seat),
        }
    }
}

/// A rack of empty places, and as many hands as were asked for, none of which has put anything.
pub fn rack<T: Drop + Racked>(
    alloc: Global,
    places: u32,
    hands: u32,
) -> Result<(Rack<T>, Vec<Hand<T>>), Memory>
    ensures places { IfOk result (λ r. places_of r.0 ≡ places) }
    ensures hands { IfOk result (λ r. vec_len r.1 ≡ hands) }
    ensures table { IfOk result (λ r. All (λ h. hand_rack h ≡ rack_of r.0) r.1.items) }
    ensures fresh { IfOk result (λ r. All (λ h. found_by h ≡ []) r.1.items) }
{
    let (rack, mut seat) = open::<T>(alloc, places)?;
    let count = hands as usize;
    let Ok(mut all) = Vec::with_capacity(alloc, count) else {
        return Err(Memory);
    };
    while all.len() < count {
        let hand = rack.hand(&mut seat);
        let Ok(()) = all.push(hand) else {
            return Err(Memory);
        };
    }
    Ok((rack, all))
}

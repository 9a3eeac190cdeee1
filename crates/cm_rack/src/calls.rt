//! Putting a task into a rack, and taking it.
ghost use Rattle.std.specs.Prelude.{◌≡◌, ◌≢◌, ℕ, ◌<◌, [], ◌∷◌, Some, IfOk, MatchResult};
ghost use Rattle.cm_rack.specs.declared.view.View.TheVariants.{Spent, Placed};
ghost use Rattle.cm_rack.specs.Views.{IsIdle, noted};
ghost use Rattle.cm_rack.specs.Seen.{tag_of, rack_of, places_of, hand_rack, ticket_rack, found_by};

use crate::play::{Claim, Empty, Fill, Part, TryPut};
use crate::racked::Racked;
use crate::ticket::{Busy, Hand, Rack, Ticket};
use crate::view::View;
use atomic_table::Seat;

impl<T: Drop + Racked> Rack<T> {
    /// Puts a task into a place, where it is empty. The ticket has the task's tag.
    pub fn put(&self, hand: &mut Hand<T>, place: u32, task: T) -> Result<Ticket<T::Tag>, Busy<T>>
        requires hand { hand_rack hand.old ≡ rack_of self.now }
        requires place { place < places_of self.now }
        ensures hand { hand_rack hand.new ≡ hand_rack hand.old }
        ensures ticket { IfOk result (λ t. (ticket_rack t ≡ rack_of self.now) × (tag_of t ≡ Some (T.tag task))) }
        ensures told { MatchResult result (λ _. found_by hand.new ≡ (place, 0) ∷ found_by hand.old) (λ b. (b.task ≡ task) × ((n : ℕ) × (n ≢ 0) × (found_by hand.new ≡ (place, n) ∷ found_by hand.old))) }
    {
        let seat = self.fill(&mut hand.seat, place, task)?;
        Ok(Ticket {
            badge: seat.into_badge(),
            place,
        })
    }

    // The hand's seat fills a place, and gives a seat for the ticket.
    fn fill(
        &self,
        seat: &mut Seat<Option<T>, View<T::Tag>>,
        place: u32,
        task: T,
    ) -> Result<Seat<Option<T>, View<T::Tag>>, Busy<T>>
        requires table { seat.old.table_id ≡ self.now.table.shared.table_id }
        requires idle { IsIdle seat.old.me }
        requires place { place < self.now.table.shared.table_id.slots }
        ensures table { seat.new.table_id ≡ seat.old.table_id }
        ensures told { MatchResult result (λ s. (seat.new.me ≡ (noted seat.old.me place 0, [])) × (s.me ≡ (Placed place (T.tag task), [])) × (s.table_id ≡ seat.old.table_id)) (λ b. (b.task ≡ task) × ((n : ℕ) × (n ≢ 0) × (seat.new.me ≡ (noted seat.old.me place n, [])))) }
    {
        let shared = &self.table.shared;
        let slot = place as usize;
        let found = shared.compare_exchange::<TryPut>(seat, slot, 0, 1);
        if found != 0 {
            return Err(Busy { task });
        }
        drop(shared.exchange(seat, slot, Some(task)));
        shared.swap::<Fill<T>>(seat, slot, 2);
        Ok(shared.split_seat::<Part>(seat))
    }

    /// Takes the task that lies under the ticket, and leaves the place empty.
    pub fn take(&self, ticket: Ticket<T::Tag>) -> T
        requires { ticket_rack ticket ≡ rack_of self.now }
        ensures { tag_of ticket ≡ Some (T.tag result) }
    {
        let Ticket { badge, place } = ticket;
        let mut seat = badge.into_seat::<Option<T>>();
        self.lift(&mut seat, place)
    }

    // The ticket's seat empties its place. No clause of `take` can say that the slot was given back, since no token is left.
    fn lift(&self, seat: &mut Seat<Option<T>, View<T::Tag>>, place: u32) -> T
        requires table { seat.old.table_id ≡ self.now.table.shared.table_id }
        requires ticket { (place < self.now.table.shared.table_id.slots) × ((g : T.Tag) × (seat.old.me ≡ (Placed place g, []))) }
        ensures seat { seat.new.me ≡ (Spent, []) }
        ensures tag { seat.old.me ≡ (Placed place (T.tag result), []) }
    {
        let shared = &self.table.shared;
        let slot = place as usize;
        shared.compare_exchange::<Claim<T>>(seat, slot, 2, 1);
        let load = shared.exchange(seat, slot, None);
        shared.swap::<Empty>(seat, slot, 0);
        let Some(task) = load else { unreachable!() };
        task
    }
}

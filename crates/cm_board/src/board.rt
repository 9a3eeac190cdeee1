//! The table of a board, and its single moves.
ghost use Rattle.std.specs.Prelude.{◌≡◌, ◌≢◌, ℕ, ◌+◌, ◌^◌, ◌<◌, ◌≤◌, ◌==◌, Bool, true, false, List, [], ◌∷◌, Option, Some, None, IfOk, MatchBool, MatchOption, MatchResult};
ghost use mathlib.Core.Option.{some};
ghost use lib.ListN.{get_elem?};
ghost use Rattle.cm_board.specs.declared.view.Role.TheVariants.{Child, Deposited, Owner, Left};
ghost use Rattle.cm_board.specs.Rule.{view, opening_view, with_entry};
ghost use Rattle.cm_board.specs.Play.{noted};
ghost use Rattle.cm_board.specs.Slots.{fits, IsOwner, IsLast, IsLeaver, lead_at, log_at, spawned_into, leaver};

use crate::job::Job;
use crate::play::{
    Arrive, Back, Begin, Count, Empty, Fetch, Fill, LayDown, Lift, Naming, Part, Post, PutDown,
    Take, Try, TryFetch, TryPost, Uncount,
};
use crate::rule::BoardRule;
use crate::view::{Cargo, Content, Parked, Scope, View};
use atomic_table::{Seat, Table};
use std::alloc::{AllocError, Global};

/// A seat at a board.
pub type Place<B, T, S, H, A> = Seat<Option<Content<B, Cargo<T, S>>>, View<H, A>>;

/// The table of one scope: word 0 is the count, and slot 16 is the task's.
#[derive(Drop)]
pub struct Board<J: Job> {
    pub(crate) table: Table<
        Option<Content<J::Answer, Cargo<J::Task, J::Surplus>>>,
        View<J::Home, J::Ask>,
        Scope<J::Home>,
        BoardRule<J>,
        Global,
    >,
    ghost sized: { (table.shared.table_id.words ≡ 34) × (table.shared.table_id.slots ≡ 33) },
}

impl<J: Job> Board<J> {
    // An open owner's seat, with no place in use.
    pub(crate) fn open(
        alloc: Global,
        scope: &Scope<J::Home>,
    ) -> Result<
        (
            Board<J>,
            Place<J::Answer, J::Task, J::Surplus, J::Home, J::Ask>,
        ),
        AllocError,
    >
        ensures { IfOk result (λ b. (b.0.table.shared.key ≡ scope.now) × (b.1.table_id ≡ b.0.table.shared.table_id) × (b.1.me ≡ (opening_view scope.now, []))) }
    {
        let words = [
            1, 0, 0, 0, 0, 0, 0, 0, 0, 0, 0, 0, 0, 0, 0, 0, 0, 0, 0, 0, 0, 0, 0, 0, 0, 0, 0, 0, 0,
            0, 0, 0, 0, 0,
        ];
        let (table, seat) = Table::vacant(alloc, &words, 33, scope)?;
        Ok((Board { table }, seat))
    }

    // A child puts its answer down.
    pub(crate) fn deposit(
        &self,
        seat: &mut Place<J::Answer, J::Task, J::Surplus, J::Home, J::Ask>,
        place: u32,
        ask: &J::Ask,
        answer: J::Answer,
    )
        requires table { seat.old.table_id ≡ self.now.table.shared.table_id }
        requires child { (seat.old.me ≡ (view self.now.table.shared.key (Child place ask.now), [])) × (place < 16) }
        requires answer { J.answers ask.now answer }
        ensures table { seat.new.table_id ≡ seat.old.table_id }
        ensures seat { seat.new.me ≡ (view self.now.table.shared.key Deposited, []) }
    {
        let _ask = ask;
        let shared = &self.table.shared;
        let slot = place as usize;
        shared.compare_exchange::<Begin>(seat, slot + 1, 0, 1);
        drop(shared.exchange(seat, slot, Some(Content::Answer(answer))));
        shared.swap::<Fill>(seat, slot + 1, 2);
    }

    // A child that has deposited leaves the count.
    pub(crate) fn arrive(
        &self,
        seat: &mut Place<J::Answer, J::Task, J::Surplus, J::Home, J::Ask>,
    ) -> u64
        requires table { seat.old.table_id ≡ self.now.table.shared.table_id }
        requires child { seat.old.me ≡ (view self.now.table.shared.key Deposited, []) }
        ensures table { seat.new.table_id ≡ seat.old.table_id }
        ensures counted { 1 ≤ result }
        ensures seat { MatchBool (result == 1) (IsLast self.now.table.shared.key seat.new.me × ((lead_at seat.new.me).log ≡ (0, 1) ∷ [])) (seat.new.me ≡ (view self.now.table.shared.key (Left ((0, result) ∷ [])), [])) }
    {
        self.table.shared.fetch_sub::<Arrive>(seat, 0, 1)
    }

    // An open owner counts a child and gives it a seat.
    pub(crate) fn add<N: Naming<J::Ask>>(
        &self,
        seat: &mut Place<J::Answer, J::Task, J::Surplus, J::Home, J::Ask>,
        place: u32,
        ask: &J::Ask,
    ) -> Place<J::Answer, J::Task, J::Surplus, J::Home, J::Ask>
        requires table { seat.old.table_id ≡ self.now.table.shared.table_id }
        requires owner { IsOwner self.now.table.shared.key seat.old.me × ((lead_at seat.old.me).is_open ≡ true) }
        requires room { (lead_at seat.old.me).spawned + 2 < 2 ^ 64 }
        requires place { get_elem? (lead_at seat.old.me).asks place ≡ some None }
        requires names { (N.at ≡ place) × (N.ask ≡ Some ask.now) }
        ensures table { (seat.new.table_id ≡ seat.old.table_id) × (result.table_id ≡ seat.old.table_id) }
        ensures seat { seat.new.me ≡ (view self.now.table.shared.key (Owner (spawned_into (lead_at seat.old.me) place ask.now)), []) }
        ensures child { result.me ≡ (view self.now.table.shared.key (Child place ask.now), []) }
    {
        let _place = place;
        let _ask = ask;
        let shared = &self.table.shared;
        shared.fetch_add::<Count<N>>(seat, 0, 1);
        shared.split_seat::<Part>(seat)
    }

    // An open owner takes a child back.
    pub(crate) fn take_back(
        &self,
        seat: &mut Place<J::Answer, J::Task, J::Surplus, J::Home, J::Ask>,
        child: Place<J::Answer, J::Task, J::Surplus, J::Home, J::Ask>,
        place: u32,
        ask: &J::Ask,
    )
        requires table { (seat.old.table_id ≡ self.now.table.shared.table_id) × (child.table_id ≡ self.now.table.shared.table_id) }
        requires owner { IsOwner self.now.table.shared.key seat.old.me × ((lead_at seat.old.me).is_open ≡ true) }
        requires child { child.me ≡ (view self.now.table.shared.key (Child place ask.now), []) }
        ensures table { seat.new.table_id ≡ seat.old.table_id }
        ensures seat { seat.new.me ≡ (view self.now.table.shared.key (Owner (with_entry (lead_at seat.old.me) place None)), []) }
        ensures entry { get_elem? (lead_at seat.old.me).asks place ≡ some (Some ask.now) }
    {
        let _place = place;
        let _ask = ask;
        let shared = &self.table.shared;
        shared.join_seat::<Back>(seat, child);
        shared.fetch_sub::<Uncount>(seat, 0, 1);
    }

    // An owner takes the answer of a place in use, where it is there.
    pub(crate) fn collect(
        &self,
        seat: &mut Place<J::Answer, J::Task, J::Surplus, J::Home, J::Ask>,
        place: u32,
    ) -> Option<J::Answer>
        requires table { seat.old.table_id ≡ self.now.table.shared.table_id }
        requires owner { IsOwner self.now.table.shared.key seat.old.me }
        requires place { (place < 16) × ((a : J.Ask) × (get_elem? (lead_at seat.old.me).asks place ≡ some (Some a))) }
        ensures table { seat.new.table_id ≡ seat.old.table_id }
        ensures told { MatchOption result ((n : ℕ) × (n ≢ 2) × (seat.new.me ≡ (view self.now.table.shared.key (Owner (noted (lead_at seat.old.me) (place + 1) n)), [])) × ((lead_at seat.old.me).is_open ≡ true)) (λ b. (seat.new.me ≡ (view self.now.table.shared.key (Owner (with_entry (noted (lead_at seat.old.me) (place + 1) 2) place None)), [])) × ((a : J.Ask) × (get_elem? (lead_at seat.old.me).asks place ≡ some (Some a)) × J.answers a b)) }
    {
        let shared = &self.table.shared;
        let slot = place as usize;
        let found = shared.compare_exchange::<Try<J>>(seat, slot + 1, 2, 1);
        if found != 2 {
            return None;
        }
        let load = shared.exchange(seat, slot, None);
        shared.swap::<Empty>(seat, slot + 1, 0);
        let Some(Content::Answer(answer)) = load else {
            unreachable!()
        };
        Some(answer)
    }

    // An open owner puts its task down and leaves the count.
    pub(crate) fn park(
        &self,
        seat: &mut Place<J::Answer, J::Task, J::Surplus, J::Home, J::Ask>,
        parked: Parked<J::Task>,
    ) -> u64
        requires table { seat.old.table_id ≡ self.now.table.shared.table_id }
        requires owner { IsOwner self.now.table.shared.key seat.old.me × ((lead_at seat.old.me).is_open ≡ true) }
        requires task { fits J.belongs self.now.table.shared.key.home self.now.table.shared.key.pages (lead_at seat.old.me).asks parked }
        ensures table { seat.new.table_id ≡ seat.old.table_id }
        ensures counted { 1 ≤ result }
        ensures seat { MatchBool (result == 1) (IsLast self.now.table.shared.key seat.new.me × ((lead_at seat.new.me).asks ≡ (lead_at seat.old.me).asks) × ((lead_at seat.new.me).log ≡ (0, 1) ∷ (lead_at seat.old.me).log)) (seat.new.me ≡ (view self.now.table.shared.key (Left ((0, result) ∷ (lead_at seat.old.me).log)), [])) }
    {
        let shared = &self.table.shared;
        shared.compare_exchange::<Lift>(seat, 17, 0, 1);
        drop(shared.exchange(seat, 16, Some(Content::Task(Cargo::Task(parked)))));
        shared.swap::<PutDown>(seat, 17, 2);
        shared.fetch_sub::<Arrive>(seat, 0, 1)
    }

    // The last to arrive takes the task.
    pub(crate) fn take(
        &self,
        seat: &mut Place<J::Answer, J::Task, J::Surplus, J::Home, J::Ask>,
    ) -> Parked<J::Task>
        requires table { seat.old.table_id ≡ self.now.table.shared.table_id }
        requires last { IsLast self.now.table.shared.key seat.old.me }
        ensures table { seat.new.table_id ≡ seat.old.table_id }
        ensures seat { seat.new.me ≡ (view self.now.table.shared.key (Owner (lead_at seat.old.me)), []) }
        ensures task { fits J.belongs self.now.table.shared.key.home self.now.table.shared.key.pages (lead_at seat.old.me).asks result }
    {
        let shared = &self.table.shared;
        shared.compare_exchange::<Take<J>>(seat, 17, 2, 1);
        let load = shared.exchange(seat, 16, None);
        shared.swap::<LayDown>(seat, 17, 0);
        let Some(Content::Task(Cargo::Task(parked))) = load else {
            unreachable!()
        };
        parked
    }

    // An open owner puts surplus down, where the slot is empty.
    pub(crate) fn post(
        &self,
        seat: &mut Place<J::Answer, J::Task, J::Surplus, J::Home, J::Ask>,
        slot: u32,
        surplus: J::Surplus,
    ) -> Result<(), J::Surplus>
        requires table { seat.old.table_id ≡ self.now.table.shared.table_id }
        requires owner { IsOwner self.now.table.shared.key seat.old.me }
        requires slot { slot < 16 }
        requires surplus { J.lies_in self.now.table.shared.key.home self.now.table.shared.key.pages surplus }
        ensures table { seat.new.table_id ≡ seat.old.table_id }
        ensures told { MatchResult result (λ _. seat.new.me ≡ (view self.now.table.shared.key (Owner (noted (lead_at seat.old.me) (slot + 18) 0)), [])) (λ s. (s ≡ surplus) × ((n : ℕ) × (n ≢ 0) × (seat.new.me ≡ (view self.now.table.shared.key (Owner (noted (lead_at seat.old.me) (slot + 18) n)), [])))) }
    {
        let shared = &self.table.shared;
        let at = slot as usize;
        let found = shared.compare_exchange::<TryPost>(seat, at + 18, 0, 1);
        if found != 0 {
            return Err(surplus);
        }
        drop(shared.exchange(seat, at + 17, Some(Content::Task(Cargo::Surplus(surplus)))));
        shared.swap::<Post>(seat, at + 18, 2);
        Ok(())
    }

    // A leaver takes surplus, where the slot is filled.
    pub(crate) fn fetch(
        &self,
        seat: &mut Place<J::Answer, J::Task, J::Surplus, J::Home, J::Ask>,
        slot: u32,
    ) -> Option<J::Surplus>
        requires table { seat.old.table_id ≡ self.now.table.shared.table_id }
        requires leaver { IsLeaver self.now.table.shared.key false seat.old.me }
        requires slot { slot < 16 }
        ensures table { seat.new.table_id ≡ seat.old.table_id }
        ensures told { MatchOption result ((n : ℕ) × (n ≢ 2) × (seat.new.me ≡ (leaver self.now.table.shared.key false ((slot + 18, n) ∷ log_at seat.old.me), []))) (λ s. (seat.new.me ≡ (leaver self.now.table.shared.key true ((slot + 18, 2) ∷ log_at seat.old.me), [])) × J.lies_in self.now.table.shared.key.home self.now.table.shared.key.pages s) }
    {
        let shared = &self.table.shared;
        let at = slot as usize;
        let found = shared.compare_exchange::<TryFetch<J>>(seat, at + 18, 2, 1);
        if found != 2 {
            return None;
        }
        let load = shared.exchange(seat, at + 17, None);
        shared.swap::<Fetch>(seat, at + 18, 0);
        let Some(Content::Task(Cargo::Surplus(surplus))) = load else {
            unreachable!()
        };
        Some(surplus)
    }
}

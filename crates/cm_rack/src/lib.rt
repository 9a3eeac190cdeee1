//! Parked strands: places for tasks that threads share, and a ticket for each task that lies there.
#![tactic(auto)]

mod calls;
mod law;
mod making;
mod play;
mod racked;
mod rule;
#[cfg(test)]
mod tests;
mod ticket;
mod view;

pub use law::one_ticket_each;
pub use making::rack;
pub use racked::Racked;
pub use rule::RackRule;
pub use ticket::{Busy, Hand, Rack, Ticket};
pub use view::View;

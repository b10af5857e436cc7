//! The money game of one assertion: what a policy bets, and what its bets bring.
#![tactic(auto)]

mod chosen;
mod examples;
mod fixed;
mod games;
mod policies;
mod policy;
mod records;
mod shrinking;
mod sums;

pub use chosen::ChosenPolicy;
pub use examples::{worked_bet, worked_wealth};
pub use fixed::Fixed;
pub use games::play;
pub use policy::Policy;
pub use records::Record;
pub use shrinking::Shrinking;
pub use sums::{is_settled, payoff, peak_after, risk, stake, wealth_after};

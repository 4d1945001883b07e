// Who pays and how much (01, Rounds; Article 32), on columns with a position for each row: rounds and the work they are (02, request 8),
// payments, what penalties fill (its request 4), cuts and what is returned. Money is fen, in columns too. Weights are bare numbers of
// proportion: kWh today, thousandths of a kWh under request 10.
#![tactic(auto)]

mod closing;
mod filling;
mod listing;
mod paying;
mod visiting;

pub use closing::{rounds, shortfall};
pub use filling::{apportion, cover};
pub use paying::payments;
use units::Fen;

// What closes in one round: the caps and the weights of those that close, added up; and how many are left open.
#[derive(Clone, Copy)]
pub struct Closed {
    pub caps: Fen,
    pub weights: u64,
    pub left: usize,
}

// What is left after the last round, in how many rounds a payer reached its cap, and how often a payer was looked at in all.
#[derive(Clone, Copy)]
pub struct Rest {
    pub money: Fen,
    pub weight: u64,
    pub rounds: u16,
    pub visits: u32,
}

// What is left once penalties have filled a shortfall: of the shortfall, to be cut, and of the penalties, to be returned.
#[derive(Clone, Copy)]
pub struct Left {
    pub cut: Fen,
    pub returned: Fen,
}

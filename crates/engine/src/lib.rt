#![tactic(auto)]

mod begin;
mod checking;
mod entries;
mod images;
mod kinds;
mod numbers;
mod records;
mod refusals;
mod reporting;
mod returns;
mod run;
mod runs;
mod state;
mod state_ref;
mod tapes;
mod turns;

// the check of a state, and what it is made of
pub use checking::{check_state, check_tables, totals_right};
pub use entries::{load, report, save, start, tape};
pub use numbers::numbers_in;
pub use state_ref::StateRef;

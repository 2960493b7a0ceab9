// The cleaner of stored jobs: it sets the bytes that nobody reads to zero, and says what it changes. It keeps the rules of paper 01 with R-1 to R-3, whatever
// lands later.
#![tactic(auto)]

mod changes;
mod cleaning;
mod spots;

pub use changes::{Change, next_change};
pub use cleaning::clean;
pub use spots::{Section, Spot};

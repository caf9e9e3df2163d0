// Billing demands: the search for the greatest quantity over the hours that count, the determinants of network and
// connection charges, and the charge in cents. It knows of readings by their trait only, of points and hour rules.
#![tactic(auto)]

pub mod charges;
pub mod determinants;
pub mod search;
pub mod views;
pub mod worked;

// Lists of a fixed capacity, in memory of their own: no call allocates. It knows nothing of what a list holds.
// What does not fit is dropped; who must lose nothing asks first whether the list is full.
#![tactic(auto)]

pub mod list;

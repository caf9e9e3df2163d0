// What is due for a month: from its points, calendar, readings, peak period and records to a due for each charge of each
// delivery point. It asks readings by their trait only, and keeps nothing.
// It answers the refusal that comes first, or the dues by point and then by charge: each sound, no two for one charge.
#![tactic(auto)]

pub mod histories;
pub mod list;
pub mod workings;

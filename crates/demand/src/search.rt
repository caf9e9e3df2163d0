// The greatest quantity over the hours that count.
ghost use Rattle.std.specs.Prelude.{◌≡◌, ℕ, ◌≤◌, Bool, true};
ghost use Rattle.hours.specs.Hours.{Inside};
ghost use Rattle.demand.specs.Peaks.{Triple, taken, best_of_day, peak_over, IsPeak, Alike};

use hours::rules::HourRule;

// A quantity, with its day and its hour.
pub type Peak = (u64, u32, u32);

// A quantity for each day and hour.
pub trait HourlyQuantity {
    ghost quantity: { Self → ℕ → ℕ → ℕ };

    fn quantity_at(&self, day: u32, hour: u32) -> u64
        ensures { result ≡ quantity self.now day hour };
}

// The best so far, or this hour in its place: among equals the latest.
fn with_hour<Q: HourlyQuantity, H: HourRule>(
    quantities: &Q,
    rule: &H,
    day: u32,
    hour: u32,
    best: Peak,
) -> Peak
    ensures { result ≡ taken (H.admits rule.now day hour) (Q.quantity quantities.now day hour) day hour best }
{
    if !rule.admits_hour(day, hour) {
        return best;
    }
    let quantity = quantities.quantity_at(day, hour);
    if quantity < best.0 {
        best
    } else {
        (quantity, day, hour)
    }
}

// The best before a day, or the best of its hours.
fn peak_of_day<Q: HourlyQuantity, H: HourRule>(
    quantities: &Q,
    rule: &H,
    day: u32,
    before: Peak,
) -> Peak
    ensures { result ≡ best_of_day (H.admits rule.now) (Q.quantity quantities.now) before day 24 }
{
    let mut best = before;
    for hour in 1..=24 {
        best = with_hour(quantities, rule, day, hour, best);
    }
    best
}

// The best of days 1 to `days`.
fn best_of_days<Q: HourlyQuantity, H: HourRule>(quantities: &Q, rule: &H, days: u32) -> Peak
    ensures { result ≡ peak_over (H.admits rule.now) (Q.quantity quantities.now) days }
{
    let mut best = (0, 0, 0);
    for day in 1..=days {
        best = peak_of_day(quantities, rule, day, best);
    }
    best
}

// The greatest quantity over the admitted hours of days 1 to `days`, with its day and its hour; among equals the latest;
// over no hours 0, day 0, hour 0.
pub fn peak<Q: HourlyQuantity, H: HourRule>(quantities: &Q, rule: &H, days: u32) -> Peak
    ensures value { result ≡ peak_over (H.admits rule.now) (Q.quantity quantities.now) days }
    ensures is_peak { IsPeak (H.admits rule.now) (Q.quantity quantities.now) days result }
    ensures no_other { (s : Triple) → IsPeak (H.admits rule.now) (Q.quantity quantities.now) days s → s ≡ result }
    ensures bounded { (b : ℕ) → ((d h : ℕ) → Inside days d h → Q.quantity quantities.now d h ≤ b) → result.0 ≤ b }
    ensures whole { H.span rule.now ≤ days → (d h : ℕ) → H.admits rule.now d h ≡ true → Q.quantity quantities.now d h ≤ result.0 }
    ensures by_answers { (B : ℕ → ℕ → Bool) (p : ℕ → ℕ → ℕ) → Alike days (H.admits rule.now) (Q.quantity quantities.now) B p → result ≡ peak_over B p days }
{
    best_of_days(quantities, rule, days)
}

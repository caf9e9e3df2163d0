// A worked month, small enough to be worked out from the definitions: the laws of a month do not speak of nothing.
ghost use Rattle.std.specs.Prelude.{◌≡◌, length};
ghost use Rattle.month.specs.Worked.{journal, Worked};

// How many calls the worked month takes. It starts bare, and P, F and R1 are accepted with a change of owner and a
// revised sheet between them; another run, in another order and with one statement, meets the same sheets and records.
pub fn worked_month() -> usize
    ensures { (result ≡ length journal) × Worked }
{
    9
}

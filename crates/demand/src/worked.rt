// Worked values of the rules.
ghost use Rattle.std.specs.Prelude.{◌≡◌, length};
ghost use Rattle.demand.specs.Worked.{rows, Worked};

// How many worked values there are: each is shown from the definitions that the contracts cite.
pub fn worked_values() -> usize
    ensures { (result ≡ length rows) × Worked }
{
    34
}

// A month that is closed: it only answers questions.
ghost use Rattle.std.specs.Prelude.{◌≡◌};

use crate::month::OpenMonth;
use hours::rules::HourRule;
use readings::readings::SheetStore;

#[derive(Drop)]
pub struct ClosedMonth<'a, S: SheetStore, H: HourRule> {
    pub(crate) month: OpenMonth<'a, S, H>,
}

impl<'a, S: SheetStore, H: HourRule> ClosedMonth<'a, S, H> {
    // The month as it was closed, to be asked and not to be changed.
    pub fn questions(&self) -> &OpenMonth<'a, S, H>
        ensures { result.now ≡ self.now.month }
    {
        &self.month
    }
}

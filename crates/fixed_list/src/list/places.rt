// How a list is filled and read.
ghost use Rattle.std.specs.Prelude.{◌≡◌, ◌<◌, ◌≤◌, [], ◌∷◌, ◌++◌, length, take, ◌==◌};
ghost use Rattle.fixed_list.specs.Lists.{items_of};

use super::FixedList;

impl<T: Copy, const N: usize> FixedList<T, N> {
    // A list without items. The places that are not in use hold `filler`, which nobody is shown.
    pub fn new(filler: T) -> FixedList<T, N>
        ensures { items_of result ≡ [] }
    {
        FixedList {
            places: [filler; N],
            count: 0,
        }
    }

    // Puts an item at the end; of a full list it is dropped.
    pub fn push(&mut self, item: T)
        ensures value { items_of self.new ≡ take N (items_of self.old ++ item ∷ []) }
        ensures kept { length (items_of self.old) < N → items_of self.new ≡ items_of self.old ++ item ∷ [] }
    {
        let at = self.count;
        if at >= N {
            return;
        }
        self.places[at] = item;
        self.count = at + 1;
    }

    pub fn len(&self) -> usize
        ensures { (result ≡ length (items_of self.now)) × (result ≤ N) }
    {
        self.as_slice().len()
    }

    pub fn is_full(&self) -> bool
        ensures { (result ≡ (length (items_of self.now) == N)) × (length (items_of self.now) ≤ N) }
    {
        self.count == N
    }

    pub fn as_slice(&self) -> &[T]
        ensures { result.now ≡ items_of self.now }
    {
        let places = &self.places[..];
        &places[..self.count]
    }
}

// A list in fixed memory.
ghost use Rattle.std.specs.Prelude.{◌≡◌, min, length, take};

/// The first `count` of its places, or all where it counts more.
// Kept: no bound on the count, since a bound would refuse lists that callers may hand in.
#[derive(Clone, Copy)]
pub struct FixedList<T, const N: usize> {
    pub items: [T; N],
    pub count: usize,
}

impl<T, const N: usize> FixedList<T, N> {
    pub fn as_slice(&self) -> &[T]
        ensures first_places { result.now ≡ take self.now.count self.now.items }
        ensures within_its_room { length result.now ≡ min self.now.count N }
    {
        self.items.get(..self.count).unwrap_or(&self.items)
    }
}

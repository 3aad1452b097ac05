// An example of a store's use.
ghost use Rattle.std.specs.Prelude.{◌≡◌, Some};

use crate::EventStore;
use records::event::Event;

/// Of three events put, the two taken, and how many still wait.
pub fn two_of_three(
    first: Event,
    second: Event,
    third: Event,
) -> (Option<Event>, Option<Event>, usize)
    ensures oldest_first { result ≡ (Some first, Some second, 1) }
{
    let mut store = EventStore::new();
    store.put(first);
    store.put(second);
    store.put(third);
    (store.take(), store.take(), store.len())
}

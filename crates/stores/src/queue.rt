// A queue in lent places, for every kind of record. In a span that does not fit its places nothing waits, and there is no room.
ghost use Rattle.std.specs.Prelude.{◌≡◌, ◌≤◌, false, [], length, None, nat_lt};
ghost use Rattle.stores.specs.Queue.{fits_in, waiting, has_room, after_put, oldest, younger, places_after_put};

use crate::span::Span;

/// A span for a queue that begins empty.
pub fn empty<T>(places: &[T]) -> Span
    ensures nothing_waits { waiting places.now result ≡ [] }
    ensures fits_if_any_place { fits_in (length places.now) result ≡ nat_lt 0 (length places.now) }
{
    Span { head: 0, count: 0 }
}

/// How many wait.
pub fn how_many<T>(places: &[T], span: Span) -> usize
    ensures all_that_wait { result ≡ length (waiting places.now span) }
    ensures at_most_the_places { result ≤ length places.now }
{
    span.counted(places.len())
}

/// Puts the newest behind the others. False where it has no room.
// Kept a bool, as the library's `insert` answers: there is no more to say of it, and no caller passes it on.
pub fn put<T: Copy>(places: &mut [T], span: &mut Span, newest: T) -> bool
    ensures true_if_room { result ≡ has_room places.old span.old }
    ensures behind_the_others { waiting places.new span.new ≡ after_put result (waiting places.old span.old) newest }
    ensures other_places_as_they_were { places.new ≡ places_after_put result places.old span.old newest }
    ensures false_changes_nothing { result ≡ false → (places.new ≡ places.old) × (span.new ≡ span.old) }
    ensures fits_as_before { fits_in (length places.new) span.new ≡ fits_in (length places.old) span.old }
{
    let size = places.len();
    if !span.has_room(size) {
        return false;
    }
    let last = span.behind(size);
    places[last] = newest;
    span.count += 1;
    true
}

/// Takes the oldest.
pub fn take<T: Copy>(places: &[T], span: &mut Span) -> Option<T>
    ensures the_oldest { result ≡ oldest (waiting places.now span.old) }
    ensures the_younger_wait { waiting places.now span.new ≡ younger (waiting places.now span.old) }
    ensures none_changes_nothing { result ≡ None → span.new ≡ span.old }
    ensures fits_as_before { fits_in (length places.now) span.new ≡ fits_in (length places.now) span.old }
{
    let size = places.len();
    if span.counted(size) == 0 {
        return None;
    }
    let first = places[span.head];
    *span = span.without_first(size);
    Some(first)
}

// A store in fixed memory, for every kind of record.
ghost use Rattle.std.specs.Prelude.{◌≡◌, ◌≤◌, List, [], length, nat_lt};
ghost use Rattle.stores.specs.Queue.{fits_in, waiting, after_put, oldest, younger};

use crate::queue;
use crate::span::Span;
use std::marker::Model;

/// At most `N` records that wait to be collected, oldest first. With no places, nothing waits and there is no room.
#[derive(Drop)]
pub struct Store<T, const N: usize> {
    places: [T; N],
    span: Span,
}

// Clauses see what waits, oldest first.
impl<T, const N: usize> Model for Store<T, N> {
    ghost Value = { List T };

    ghost view = { λ s. waiting s.places s.span };

    ghost invariant = { λ s. (length s.places ≡ N) × (fits_in N s.span ≡ nat_lt 0 N) };
}

impl<T: Copy + Default, const N: usize> Store<T, N> {
    pub fn new() -> Store<T, N>
        ensures nothing_waits { result ≡ [] }
    {
        let places = [T::default(); N];
        let span = queue::empty(&places);
        Store { places, span }
    }
}

impl<T: Copy, const N: usize> Store<T, N> {
    /// Puts the newest behind the others. False where `N` wait.
    pub fn put(&mut self, newest: T) -> bool
        ensures true_below_n { result ≡ nat_lt (length self.old) N }
        ensures behind_the_others { self.new ≡ after_put result self.old newest }
    {
        queue::put(&mut self.places, &mut self.span, newest)
    }

    /// Takes the oldest.
    pub fn take(&mut self) -> Option<T>
        ensures the_oldest { result ≡ oldest self.old }
        ensures the_younger_wait { self.new ≡ younger self.old }
    {
        queue::take(&self.places, &mut self.span)
    }
}

impl<T, const N: usize> Store<T, N> {
    /// How many wait.
    pub fn len(&self) -> usize
        ensures all_that_wait { result ≡ length self.now }
        ensures at_most_n { result ≤ N }
    {
        queue::how_many(&self.places, self.span)
    }
}

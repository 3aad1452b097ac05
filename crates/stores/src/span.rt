// Where a queue stands in its places. A span that does not fit its places counts none, and has no room.
ghost use Rattle.std.specs.Prelude.{◌≡◌, ◌+◌, ◌<◌, ◌≤◌, ◌&&◌, if◌then◌else◌, nat_lt};
ghost use Rattle.stores.specs.Queue.{fits_in, rounded, without_first};

/// The place of the oldest, and how many wait.
#[derive(Clone, Copy)]
pub struct Span {
    pub head: usize,
    pub count: usize,
}

/// The place so many past another; past the last it goes on at the first.
fn place_past(size: usize, place: usize, by: usize) -> usize
    requires { (place < size) × (by ≤ size) }
    ensures round_the_end { result ≡ rounded size (place + by) }
{
    let left = size - place;
    if by < left { place + by } else { by - left }
}

impl Span {
    fn fits(self, size: usize) -> bool
        ensures head_and_count { result ≡ fits_in size self }
    {
        self.head < size && self.count <= size
    }

    pub(crate) fn counted(self, size: usize) -> usize
        ensures none_unless_it_fits { result ≡ (if fits_in size self then self.count else 0) }
    {
        if self.fits(size) { self.count } else { 0 }
    }

    pub(crate) fn has_room(self, size: usize) -> bool
        ensures fits_with_one_more { result ≡ (fits_in size self && nat_lt self.count size) }
    {
        self.fits(size) && self.count < size
    }

    /// The place behind the last.
    pub(crate) fn behind(self, size: usize) -> usize
        requires { (self.head < size) × (self.count ≤ size) }
        ensures counted_from_the_head { result ≡ rounded size (self.head + self.count) }
    {
        place_past(size, self.head, self.count)
    }

    pub(crate) fn without_first(self, size: usize) -> Span
        requires { (self.head < size) × (0 < self.count) }
        ensures next_head { result ≡ without_first size self }
    {
        Span {
            head: place_past(size, self.head, 1),
            count: self.count - 1,
        }
    }
}

// The questions, which change nothing.
ghost use Rattle.std.specs.Prelude.{◌≡◌, length, slice_index};
ghost use Rattle.machine.specs.Machine.{width_of, message_of, status_of, in_trouble, is_set_on};
ghost use Rattle.executive.specs.Meaning.{meaning};

use super::Executive;
use links::link::Link;
use machine::state::LinkStatus;
use watches::watch::{Watch, has_function};

impl<A: Link, B: Link, C: Link, W: Watch> Executive<A, B, C, W> {
    /// How many bytes a link would send now; 0 above link 2.
    pub fn message_length(&self, link: u32) -> usize
        ensures of_the_message { result ≡ length (message_of (meaning A.Link B.Link C.Link W.Watch self.now) link) }
    {
        if link > 2 {
            return 0;
        }
        at_link!(self, link, link.message_length())
    }

    /// A byte of what a link would send now; 0 past its end, and above link 2.
    pub fn message_byte(&self, link: u32, at: usize) -> u8
        ensures byte_or_zero { result ≡ slice_index (message_of (meaning A.Link B.Link C.Link W.Watch self.now) link) at }
    {
        if link > 2 {
            return 0;
        }
        at_link!(self, link, link.message_byte(at))
    }

    /// A link's status; off above link 2.
    pub fn status(&self, link: u32) -> LinkStatus
        ensures of_the_link { result ≡ status_of (meaning A.Link B.Link C.Link W.Watch self.now) link }
    {
        self.desk.status(link)
    }

    pub fn width(&self) -> u32
        ensures of_the_watch { result ≡ width_of (meaning A.Link B.Link C.Link W.Watch self.now) }
    {
        self.watch.width()
    }

    pub fn in_trouble(&self, function: u32) -> bool
        ensures in_the_watch { result ≡ in_trouble (meaning A.Link B.Link C.Link W.Watch self.now) function }
    {
        self.watch.in_trouble(function)
    }

    /// Whether a function is set on; outside the width none is.
    pub fn is_on(&self, function: u32) -> bool
        ensures set_on { result ≡ is_set_on (meaning A.Link B.Link C.Link W.Watch self.now) function }
    {
        has_function(self.watch.width(), function) && self.desk.is_on(function)
    }
}

// Fields that repeat in a packet: steps and settings.
ghost use Rattle.std.specs.Prelude.{◌≡◌, ℕ, ◌+◌, ◌*◌, ◌<◌, ◌≤◌, List};
ghost use Rattle.telecommands.specs.Fields.{step_at, setting_at, blank_step, blank_setting, listed};

use crate::packet::Setting;
use octets::words::{byte_at, long_at, word_at};
use records::fixed_list::FixedList;
use records::step::Step;

/// What stands in a packet several times, one after the other.
pub trait Field: Copy {
    /// In bytes.
    ghost SIZE: { ℕ };

    ghost blank: { Self };

    ghost read: { List ℕ → ℕ → Self };

    const SIZE: usize;

    fn blank() -> Self
        ensures no_field { result ≡ blank };

    fn read(packet: &[u8], at: usize) -> Self
        requires { at ≤ 248 }
        ensures each_part_in_place { result ≡ read packet.now at };
}

impl Field for Step {
    ghost SIZE = { 8 };

    ghost blank = { blank_step };

    ghost read = { step_at };

    const SIZE: usize = 8;

    fn blank() -> Step {
        Step {
            op: 0,
            b: 0,
            w: 0,
            u: 0,
            v: 0,
        }
    }

    fn read(packet: &[u8], at: usize) -> Step {
        Step {
            op: byte_at(packet, at),
            b: byte_at(packet, at + 1),
            w: word_at(packet, at + 2),
            u: word_at(packet, at + 4),
            v: word_at(packet, at + 6),
        }
    }
}

impl Field for Setting {
    ghost SIZE = { 6 };

    ghost blank = { blank_setting };

    ghost read = { setting_at };

    const SIZE: usize = 6;

    fn blank() -> Setting {
        Setting { id: 0, value: 0 }
    }

    fn read(packet: &[u8], at: usize) -> Setting {
        Setting {
            id: word_at(packet, at),
            value: long_at(packet, at + 2),
        }
    }
}

/// So many fields, which stand in the packet from a byte on.
// Kept: a loop over the fields; a closure for each of the `N` places took longer where there are few.
#[inline(always)]
pub fn read_fields<F: Field, const N: usize>(
    packet: &[u8],
    from: usize,
    count: usize,
) -> FixedList<F, N>
    requires { (count ≤ N) × (from + F.SIZE * count ≤ 248) }
    ensures then_blank_ones { result ≡ listed (F.read packet.now) F.blank F.SIZE from N count }
{
    let mut items = [F::blank(); N];
    for k in 0..count {
        items[k] = F::read(packet, from + F::SIZE * k);
    }
    FixedList { items, count }
}

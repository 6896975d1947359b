#![tactic(auto)]

// RTP sequence numbers: 16 bits that wrap from 65,535 to 0.
ghost use Rattle.std.specs.Prelude.{◌≡◌, ◌+◌, ◌%◌, ◌^◌};
ghost use Rattle.sequence.specs.Wrap.{ahead, member, number_at};

// How far a number lies ahead of the base of a window: its position, if that is below the window's size.
pub fn position(base: u16, number: u16) -> u16
    ensures { result ≡ ahead 16 base number }
{
    std::num::wrapping_sub_u16(number, base)
}

// The next member of a group, Offset further on.
pub fn next(number: u16, offset: u16) -> u16
    ensures { result ≡ (number + offset) % 2 ^ 16 }
{
    std::num::wrapping_add_u16(number, offset)
}

// The j-th member of the group that starts at SNBase.
pub fn member_at(snbase: u16, offset: u8, j: u8) -> u16
    ensures { result ≡ member 16 snbase offset j }
{
    std::num::wrapping_add_u16(snbase, (j as u16) * (offset as u16))
}

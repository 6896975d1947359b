// What the sender sends: a timestamp, a length and a payload for every number, and the datagrams over them.
ghost use Rattle.std.specs.Prelude.{◌≤◌};

use super::script::{Change, Kind};

// The number of position 0: the window lies across the wrap.
pub const BASE: u16 = 65530;

pub const SOURCE: u32 = 3232235777;

// What the sender knows of the window: the most bytes of a payload, and the columns and the rows of the matrix.
#[derive(Clone, Copy)]
pub struct Shape {
    pub p: usize,
    pub l: u8,
    pub d: u8,
}

// The numbers of a group: how many there are, and how far apart, from the first on.
#[derive(Clone, Copy)]
struct Group {
    start: u16,
    offset: u8,
    na: u8,
}

impl Group {
    // Its member j.
    fn member(self, j: u8) -> u16 {
        sequence::member_at(self.start, self.offset, j)
    }
}

// The group of a packet: of media its own number alone.
fn group_of(s: Shape, kind: Kind, number: u16) -> Group {
    let (offset, na) = match kind {
        Kind::Media => (0, 1),
        Kind::Column => (s.l, s.d),
        Kind::Row => (1, s.l),
    };
    Group {
        start: number,
        offset,
        na,
    }
}

// The timestamp of a number: 1000, 2000, 3000 and 4000 at positions 0, 4, 8 and 12.
fn stamp(number: u16) -> u32 {
    let i = sequence::position(BASE, number) as u32;
    1000 * (i / 4 + 1) + 10 * (i % 4)
}

// The length of the payload of a number: one unit, but where P is two units they are two at positions 0, 2 and 3.
fn size(p: usize, number: u16) -> u16
    ensures { result ≤ 376 }
{
    let long = matches!(sequence::position(BASE, number), 0 | 2 | 3);
    if p == 376 && long { 376 } else { 188 }
}

// The timestamps of a group, xored.
fn stamps(g: Group) -> u32 {
    (0..g.na).fold(0, |sum, j| sum ^ stamp(g.member(j)))
}

// The lengths of a group, xored.
fn lengths(p: usize, g: Group) -> u16 {
    (0..g.na).fold(0, |sum, j| sum ^ size(p, g.member(j)))
}

// The longest of a group.
fn longest(p: usize, g: Group) -> u16
    ensures { result ≤ 376 }
{
    let mut most = 0;
    for j in 0..g.na {
        most = size(p, g.member(j)).max(most);
    }
    most
}

// The payload of a number, xored into a payload: every eleventh byte, the last of a unit among them, counts on from twice the number,
// and the others are zero.
fn join(payload: &mut [u8], number: u16) {
    let n = rtp::low(number);
    let mut value = n.wrapping_add(n);
    for i in (0..payload.len()).step_by(11) {
        payload[i] ^= value;
        value = value.wrapping_add(11);
    }
}

// The payloads of a group, xored, in a datagram behind its headers.
fn fill(out: &mut [u8; 592], headers: usize, p: usize, g: Group)
    requires { headers ≤ 28 }
{
    for j in 0..g.na {
        let number = g.member(j);
        join(
            &mut out[headers..headers + size(p, number) as usize],
            number,
        );
    }
}

// The media datagram of a number, with zeros behind it.
fn media(s: Shape, number: u16) -> [u8; 592] {
    let mut out = [0; 592];
    rtp::write_rtp(&mut out, rtp::MEDIA_TYPE, number, stamp(number), SOURCE);
    fill(&mut out, 12, s.p, group_of(s, Kind::Media, number));
    out
}

// PT recovery over NA members.
fn type_recovery(na: u8) -> u8
    ensures { result ≤ 127 }
{
    if na % 2 == 0 { 0 } else { 33 }
}

// The parity datagram of a group, with zeros behind it.
fn parity(p: usize, stream: u8, g: Group) -> [u8; 592]
    requires { stream ≤ 1 }
{
    let mut out = [0; 592];
    rtp::write_rtp(&mut out, rtp::PARITY_TYPE, 7, 0, 0);
    rtp::write_fec(
        &mut out,
        g.start,
        lengths(p, g),
        type_recovery(g.na),
        stamps(g),
        stream,
        g.offset,
        g.na,
    );
    fill(&mut out, 28, p, g);
    out
}

// The datagram that a step offers, or that it ought to read or write.
pub fn datagram(s: Shape, kind: Kind, number: u16) -> [u8; 592] {
    match kind {
        Kind::Media => media(s, number),
        Kind::Column => parity(s.p, rtp::COLUMN, group_of(s, kind, number)),
        Kind::Row => parity(s.p, rtp::ROW, group_of(s, kind, number)),
    }
}

// What differs in a datagram.
fn alter(out: &mut [u8; 592], change: Change) {
    match change {
        Change::Byte(at, value) if at < 592 => out[at] = value,
        Change::Bare(_) => out[12..].fill(0),
        Change::Zeros(_) => out.fill(0),
        Change::Recovers(value) => out[14..16].copy_from_slice(&value.to_be_bytes()),
        _ => {}
    }
}

// The datagram with what differs in it.
pub fn altered(s: Shape, kind: Kind, number: u16, change: Change) -> [u8; 592] {
    if let Change::Members(d) = change {
        return datagram(Shape { d, ..s }, kind, number);
    }
    let mut out = datagram(s, kind, number);
    alter(&mut out, change);
    out
}

// The bytes before a payload.
pub fn headers(kind: Kind) -> usize
    ensures { result ≤ 28 }
{
    if kind == Kind::Media { 12 } else { 28 }
}

// The length of a datagram that a step offers: a parity packet's payload has that of the longest of its group.
pub fn length(s: Shape, kind: Kind, number: u16) -> usize
    ensures { result ≤ 592 }
{
    headers(kind) + longest(s.p, group_of(s, kind, number)) as usize
}

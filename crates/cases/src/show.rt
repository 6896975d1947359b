// What a step prints: a line, with what it was and what was answered. A write that fails is handed on as it is.
use super::bench::{Bench, SetUp};
use super::script::Kind;
use answer::{Counts, Refusal};
use std::{fmt, io};

// The numbers of a window that is opened.
impl fmt::Display for SetUp {
    fn fmt<W: fmt::Write>(&self, f: &mut fmt::Formatter<W>) -> fmt::Result {
        let s = *self;
        write!(f, "L {}, D {}, P {}, n {}, K {}", s.l, s.d, s.p, s.n, s.k)
    }
}

// What reading a packet out, or writing parity, is named.
pub fn write_name(kind: Kind) -> &'static str {
    match kind {
        Kind::Media => "read",
        Kind::Column => "write column",
        Kind::Row => "write row",
    }
}

// The first bytes in hexadecimal.
pub fn header(rt: &impl Print, bytes: &[u8]) -> io::Result<()> {
    for x in bytes {
        print!(rt; " {x:02x}")?;
    }
    Ok(())
}

// The marks of the positions and of the records, side by side.
pub fn marks(rt: &impl Print, b: &Bench) -> io::Result<()> {
    print!(rt; "  present ")?;
    for mark in b.marks {
        print!(rt; "{mark}")?;
    }
    uses(rt, b)
}

// The marks of the records.
fn uses(rt: &impl Print, b: &Bench) -> io::Result<()> {
    print!(rt; ", in use ")?;
    for row in &b.rows[..9] {
        print!(rt; "{}", row.it.in_use)?;
    }
    println!(rt)
}

// The lengths of the positions and of the records, one after the other.
pub fn lengths(rt: &impl Print, b: &Bench) -> io::Result<()> {
    print!(rt; "  lengths")?;
    for length in b.lengths {
        print!(rt; " {length}")?;
    }
    parity_lengths(rt, b)
}

// The lengths of the records.
fn parity_lengths(rt: &impl Print, b: &Bench) -> io::Result<()> {
    print!(rt; ", of parity")?;
    for row in &b.rows[..9] {
        print!(rt; " {}", row.it.payload_length)?;
    }
    println!(rt)
}

// What was answered, and how many parity packets were spoilt, where any were.
pub fn answer(rt: &impl Print, a: Result<Counts, Refusal>) -> io::Result<()> {
    match a {
        Ok(c) if 0 < c.spoilt => print!(rt; ": done {}, spoilt {}", c.count, c.spoilt),
        Ok(c) => print!(rt; ": done {}", c.count),
        Err(r) => print!(rt; ": refused {}", u8::from(r)),
    }
}

// The numbers of a group on a line.
pub fn group(rt: &impl Print, snbase: u16, offset: u8, na: u8) -> io::Result<()> {
    for j in 0..na {
        print!(rt; "  {}", sequence::member_at(snbase, offset, j))?;
    }
    println!(rt)
}

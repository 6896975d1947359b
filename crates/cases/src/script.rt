// The cases as tables of steps, and the words of the tables.
use Change::{Bare, Byte, Length, Members, Port, Recovers, Zeros};
use Kind::{Column, Media, Row};
use Number::{K, L, N, P, Present};
use Part::{HeldLength, HeldRecovery, InUse, KeptLength, Mark, Parity, Payload, Start, Stream};
use Step::{Alter, Lengths, MakeUp, Marks, Offer, Set, Write, WriteTo};
use std::fmt;

// A packet, and the port that it is offered on.
#[derive(Clone, Copy, PartialEq, Eq)]
pub enum Kind {
    Media,
    Column,
    Row,
}

// What differs in a datagram from the plain one.
#[derive(Clone, Copy)]
pub enum Change {
    // a byte is another
    Byte(usize, u8),
    // it is of another length
    Length(usize),
    // it is of another length, with zeros behind the RTP header
    Bare(usize),
    // it is of another length, and all zeros
    Zeros(usize),
    // a column has other members, in all its fields
    Members(u8),
    // it is offered on another port
    Port(Kind),
    // its length recovery is another
    Recovers(u16),
}

// An element of the store.
#[derive(Clone, Copy)]
pub enum Part {
    Mark,
    InUse,
    Stream,
    Start,
    Payload,
    KeptLength,
    HeldRecovery,
    HeldLength,
    Parity,
}

// A number of the window value.
#[derive(Clone, Copy)]
pub enum Number {
    L,
    P,
    N,
    K,
    Present,
}

// What is done.
#[derive(Clone, Copy)]
pub enum Step {
    // the datagram of a number is offered on its port
    Offer(Kind, u16),
    // it is offered, and something differs
    Alter(Kind, u16, Change),
    // the packet of a number is read out, or parity written
    Write(Kind, u16),
    // the same, with so many bytes lent for it
    WriteTo(Kind, u16, usize),
    // the marks of the positions and of the records are shown
    Marks,
    // the lengths of the positions and of the records are shown
    Lengths,
    // somebody else sets an element of the store, of this index
    Set(Part, u16, u16),
    // somebody else makes up a number of the window value
    MakeUp(Number, u16),
}

// The word of a packet that is offered, and of its port.
impl fmt::Display for Kind {
    fn fmt<W: fmt::Write>(&self, f: &mut fmt::Formatter<W>) -> fmt::Result {
        match self {
            Kind::Media => write!(f, "media"),
            Kind::Column => write!(f, "column"),
            Kind::Row => write!(f, "row"),
        }
    }
}

// What differs, behind the number of a packet.
impl fmt::Display for Change {
    fn fmt<W: fmt::Write>(&self, f: &mut fmt::Formatter<W>) -> fmt::Result {
        match self {
            Change::Byte(at, value) => write!(f, ", byte {at} is {value}"),
            Change::Length(n) => write!(f, ", of length {n}"),
            Change::Bare(n) => write!(f, ", zeros behind the RTP header, of length {n}"),
            Change::Zeros(n) => write!(f, ", zeros, of length {n}"),
            Change::Members(n) => write!(f, ", of members {n}"),
            Change::Port(port) => write!(f, ", on port {port}"),
            Change::Recovers(n) => write!(f, ", length recovery {n}"),
        }
    }
}

// The words of an element of the store.
impl fmt::Display for Part {
    fn fmt<W: fmt::Write>(&self, f: &mut fmt::Formatter<W>) -> fmt::Result {
        match self {
            Part::Mark => write!(f, "present mark"),
            Part::InUse => write!(f, "in-use mark"),
            Part::Stream => write!(f, "stream"),
            Part::Start => write!(f, "SNBase"),
            Part::Payload => write!(f, "payload byte"),
            Part::KeptLength => write!(f, "length"),
            Part::HeldRecovery => write!(f, "length recovery"),
            Part::HeldLength => write!(f, "parity length"),
            Part::Parity => write!(f, "parity byte"),
        }
    }
}

// The word of a number of the window value.
impl fmt::Display for Number {
    fn fmt<W: fmt::Write>(&self, f: &mut fmt::Formatter<W>) -> fmt::Result {
        match self {
            Number::L => write!(f, "L"),
            Number::P => write!(f, "P"),
            Number::N => write!(f, "n"),
            Number::K => write!(f, "K"),
            Number::Present => write!(f, "packets present"),
        }
    }
}

// ---- the tables

// Cases 10, 11 and 9: all but positions 0, 1, 4 and 5, all aligned rows and columns; then position 5.
pub const CASE_10_11: [Step; 28] = [
    Offer(Media, 65532),
    Offer(Media, 65533),
    Offer(Media, 0),
    Offer(Media, 1),
    Offer(Media, 2),
    Offer(Media, 3),
    Offer(Media, 4),
    Offer(Media, 5),
    Offer(Media, 6),
    Offer(Media, 7),
    Offer(Media, 8),
    Offer(Media, 9),
    Offer(Row, 65530),
    Offer(Row, 65534),
    Offer(Row, 2),
    Offer(Row, 6),
    Offer(Column, 65530),
    Offer(Column, 65531),
    Offer(Column, 65532),
    Offer(Column, 65533),
    Marks,
    Offer(Media, 65535),
    Marks,
    Write(Media, 65530),
    Write(Media, 65531),
    Write(Media, 65534),
    Write(Column, 65530),
    Write(Row, 65530),
];

// A refused opening touches nothing, and its window value is refused.
pub const AFTER_REFUSAL: [Step; 2] = [Offer(Media, 65530), Marks];

// Refusals of media, in the order of their numbers.
pub const MEDIA_PORT: [Step; 18] = [
    Alter(Media, 65530, Length(11)),
    Alter(Media, 65530, Zeros(11)),
    Alter(Media, 65530, Byte(0, 64)),
    Alter(Media, 65530, Byte(0, 160)),
    Alter(Media, 65530, Byte(0, 144)),
    Alter(Media, 65530, Byte(0, 129)),
    Alter(Media, 65530, Byte(1, 161)),
    Alter(Media, 65530, Byte(1, 96)),
    Alter(Column, 65530, Port(Media)),
    Alter(Media, 65530, Length(199)),
    Alter(Media, 65530, Length(201)),
    Offer(Media, 65529),
    Offer(Media, 10),
    Alter(Media, 65530, Byte(11, 9)),
    Offer(Media, 65530),
    Alter(Media, 65530, Byte(7, 9)),
    Alter(Media, 65530, Byte(199, 0)),
    Marks,
];

// Refusals of parity, in the order of their numbers.
pub const PARITY_PORTS: [Step; 32] = [
    Alter(Column, 65530, Length(27)),
    Alter(Column, 65530, Zeros(20)),
    Alter(Column, 65530, Zeros(28)),
    Alter(Column, 65530, Byte(0, 64)),
    Alter(Media, 65530, Port(Column)),
    Alter(Column, 65530, Bare(215)),
    Alter(Column, 65530, Length(217)),
    Alter(Column, 65530, Bare(216)),
    Alter(Column, 65530, Byte(16, 0)),
    Alter(Column, 65530, Byte(17, 1)),
    Alter(Column, 65530, Byte(24, 128)),
    Alter(Column, 65530, Byte(24, 8)),
    Alter(Column, 65530, Byte(24, 1)),
    Alter(Column, 65530, Byte(27, 1)),
    Alter(Column, 65530, Byte(16, 161)),
    Alter(Column, 65530, Members(5)),
    Alter(Column, 65530, Members(6)),
    Alter(Column, 65530, Byte(24, 64)),
    Alter(Column, 65530, Byte(25, 5)),
    Alter(Row, 65530, Port(Column)),
    Alter(Column, 65530, Port(Row)),
    Offer(Column, 65534),
    Offer(Column, 65529),
    Offer(Row, 7),
    Offer(Row, 6),
    Alter(Column, 65533, Byte(3, 9)),
    Offer(Column, 65530),
    Offer(Column, 65530),
    Alter(Column, 65530, Byte(7, 9)),
    Alter(Column, 65530, Byte(23, 1)),
    Alter(Column, 65530, Byte(215, 0)),
    Marks,
];

// Refusals of reading and writing; a longer output is as good.
pub const OUTPUTS: [Step; 13] = [
    Offer(Media, 65530),
    Write(Media, 65530),
    WriteTo(Media, 65530, 200),
    WriteTo(Media, 65530, 199),
    WriteTo(Media, 65529, 199),
    WriteTo(Media, 65531, 199),
    Write(Media, 65529),
    Write(Media, 65531),
    WriteTo(Column, 65530, 215),
    Write(Column, 65534),
    Write(Row, 7),
    Write(Column, 65530),
    Write(Row, 65530),
];

// Rows where L is 3: PT recovery is judged by NA 3, and before the profile; length recovery is not judged.
pub const NO_ROWS: [Step; 7] = [
    Alter(Row, 65530, Byte(16, 128)),
    Alter(Row, 65530, Byte(15, 0)),
    Offer(Row, 65530),
    WriteTo(Row, 65530, 215),
    Write(Row, 65530),
    Write(Row, 10),
    Offer(Column, 65530),
];

// A store out of order; of a free record and of a missing position only the mark is looked at.
pub const DISORDER: [Step; 42] = [
    Offer(Column, 65530),
    Offer(Column, 65531),
    Set(Mark, 3, 2),
    Offer(Media, 65530),
    Write(Media, 65530),
    Write(Column, 65530),
    MakeUp(N, 17),
    Offer(Media, 65530),
    MakeUp(N, 16),
    WriteTo(Media, 65530, 199),
    Set(Mark, 3, 1),
    Offer(Media, 65530),
    Set(Mark, 3, 0),
    Set(InUse, 7, 2),
    Offer(Media, 65530),
    Set(InUse, 7, 1),
    Offer(Media, 65530),
    Set(InUse, 7, 0),
    Set(Stream, 0, 2),
    Offer(Media, 65530),
    Set(Stream, 0, 0),
    Set(Start, 1, 65530),
    Offer(Media, 65530),
    Set(Start, 1, 65534),
    Offer(Media, 65530),
    Set(Start, 1, 65531),
    Set(Start, 7, 65530),
    Set(Payload, 940, 255),
    Offer(Media, 65530),
    Offer(Media, 65531),
    Offer(Media, 3),
    Offer(Media, 7),
    Write(Media, 65535),
    Marks,
    Set(Mark, 4, 1),
    Set(KeptLength, 4, 188),
    MakeUp(Present, 6),
    Offer(Media, 1),
    Set(Mark, 8, 1),
    Set(KeptLength, 8, 188),
    MakeUp(Present, 8),
    Offer(Media, 0),
];

// A made-up window value meets 1 to 5, with the sizes that it says.
pub const MADE_UP: [Step; 18] = [
    MakeUp(L, 21),
    Offer(Media, 65530),
    MakeUp(L, 4),
    MakeUp(P, 187),
    Offer(Column, 65530),
    MakeUp(P, 188),
    MakeUp(N, 15),
    Offer(Row, 65530),
    MakeUp(N, 17),
    Write(Media, 65530),
    MakeUp(N, 16),
    MakeUp(K, 9),
    Write(Row, 65530),
    MakeUp(K, 8),
    MakeUp(Present, 1),
    Write(Column, 65530),
    MakeUp(Present, 0),
    Offer(Media, 65530),
];

// Room for one parity packet: 14 and 15 before 16; one missing or none needs no room; released room is used again.
pub const ONE_RECORD: [Step; 19] = [
    Offer(Column, 65530),
    Offer(Column, 65531),
    Offer(Column, 65530),
    Alter(Column, 65530, Byte(23, 1)),
    Offer(Media, 65531),
    Offer(Media, 65535),
    Offer(Media, 3),
    Offer(Column, 65531),
    Offer(Column, 65531),
    Offer(Media, 65530),
    Offer(Media, 65534),
    Offer(Media, 2),
    Marks,
    Offer(Column, 65530),
    Alter(Column, 65530, Byte(23, 1)),
    Offer(Media, 6),
    Alter(Media, 6, Byte(7, 0)),
    Offer(Row, 65530),
    Marks,
];

// A held column at number 0 beside free records, far from the first L positions.
pub const NUMBER_0: [Step; 7] = [
    Offer(Column, 0),
    Offer(Column, 0),
    Offer(Media, 0),
    Offer(Media, 1),
    Offer(Media, 2),
    Write(Media, 3),
    Marks,
];

// Two rows get ready at once, and the one at 0 lies: the one at the smaller position, 65534, rebuilds.
pub const TRUE_FIRST: [Step; 10] = [
    Offer(Media, 65534),
    Offer(Media, 65535),
    Offer(Media, 2),
    Offer(Media, 3),
    Offer(Row, 65534),
    Alter(Row, 0, Byte(23, 9)),
    Offer(Media, 1),
    Write(Media, 0),
    Offer(Media, 0),
    Marks,
];

// The same, and the one at 65534 lies.
pub const LIE_FIRST: [Step; 9] = [
    Offer(Media, 65534),
    Offer(Media, 65535),
    Offer(Media, 2),
    Offer(Media, 3),
    Alter(Row, 65534, Byte(23, 9)),
    Offer(Row, 0),
    Offer(Media, 1),
    Write(Media, 0),
    Offer(Media, 0),
];

// A column and a row at 65534 get ready at once, and the row lies about 65535. The column goes first, and what it rebuilds, 6,
// lets the groups at smaller positions rebuild 65530, 65533 and 65535, by their true parity, before the row does.
pub const COLUMN_FIRST: [Step; 15] = [
    Offer(Media, 65531),
    Offer(Media, 65532),
    Offer(Media, 0),
    Offer(Media, 1),
    Offer(Media, 2),
    Offer(Media, 10),
    Offer(Column, 65530),
    Offer(Row, 65530),
    Offer(Row, 65532),
    Offer(Column, 65534),
    Alter(Row, 65534, Byte(23, 9)),
    Offer(Media, 65534),
    Write(Media, 65535),
    Offer(Media, 65535),
    Marks,
];

// Payloads of one and of two units in one window. What is rebuilt, read and written has its own length, and a parity packet
// that of the longest of its group; an output needs room for P all the same.
pub const MIXED: [Step; 24] = [
    Offer(Media, 65530),
    Offer(Media, 65532),
    Offer(Media, 65533),
    Lengths,
    Offer(Column, 65530),
    Write(Media, 65530),
    Write(Media, 65531),
    WriteTo(Media, 65531, 388),
    WriteTo(Media, 65531, 387),
    Offer(Media, 65535),
    Offer(Media, 0),
    Offer(Column, 65534),
    Lengths,
    Offer(Media, 1),
    Lengths,
    Write(Media, 65534),
    Offer(Media, 65531),
    Offer(Media, 65534),
    Write(Column, 65530),
    Write(Column, 65531),
    Write(Column, 65533),
    Write(Column, 65534),
    WriteTo(Column, 65534, 404),
    WriteTo(Column, 65534, 403),
];

// A length that is not whole units up to P is 9; any length recovery will do; 14 and 15 tell lengths apart where not a byte
// differs but zeros at the end.
pub const LENGTHS_REFUSED: [Step; 26] = [
    Alter(Media, 65534, Length(12)),
    Alter(Media, 65534, Length(199)),
    Alter(Media, 65534, Length(201)),
    Alter(Media, 65534, Length(216)),
    Alter(Media, 65534, Length(576)),
    Alter(Column, 65530, Length(28)),
    Alter(Column, 65530, Length(403)),
    Alter(Column, 65530, Length(592)),
    Offer(Media, 65534),
    Alter(Media, 65534, Length(388)),
    Offer(Media, 65534),
    Alter(Media, 65535, Length(388)),
    Offer(Media, 65535),
    Alter(Media, 65535, Length(388)),
    Alter(Column, 65530, Byte(16, 161)),
    Alter(Column, 65530, Recovers(1)),
    Offer(Column, 65530),
    Alter(Column, 65530, Recovers(1)),
    Offer(Column, 65534),
    Alter(Column, 65534, Length(404)),
    Offer(Column, 65534),
    Alter(Column, 65533, Length(216)),
    Offer(Column, 65533),
    Alter(Column, 65533, Length(216)),
    Marks,
    Lengths,
];

// Offered parity that is spoilt: it gives 65531 a length of 0, of 189, of three units, a byte past its 188, at the end of the
// parity and past the parity's own; then it gives 65534 two units, and has one itself.
pub const SPOILT_OFFERED: [Step; 19] = [
    Offer(Media, 65530),
    Offer(Media, 65532),
    Offer(Media, 65533),
    Alter(Column, 65530, Recovers(376)),
    Alter(Column, 65530, Recovers(453)),
    Alter(Column, 65530, Recovers(844)),
    Alter(Column, 65530, Byte(403, 255)),
    Alter(Column, 65530, Length(216)),
    Marks,
    Offer(Media, 65535),
    Offer(Media, 0),
    Offer(Media, 1),
    Alter(Column, 65534, Recovers(452)),
    Marks,
    Offer(Column, 65530),
    Offer(Column, 65534),
    Write(Media, 65531),
    Write(Media, 65534),
    Marks,
];

// Parity in hand that is spoilt: it gives 65531 a length of 0, and 65534 two units, where it has one itself.
pub const SPOILT_HELD: [Step; 12] = [
    Offer(Media, 65530),
    Offer(Media, 65532),
    Alter(Column, 65530, Recovers(376)),
    Offer(Media, 0),
    Offer(Media, 1),
    Alter(Column, 65534, Recovers(452)),
    Marks,
    Offer(Media, 65533),
    Offer(Media, 65535),
    Marks,
    Lengths,
    Offer(Column, 65530),
];

// The same: it gives 65531 a byte past its length, and 65534 a length of 184.
pub const SPOILT_BYTES: [Step; 12] = [
    Offer(Media, 65530),
    Offer(Media, 65532),
    Alter(Column, 65530, Byte(403, 255)),
    Offer(Media, 0),
    Offer(Media, 1),
    Alter(Column, 65534, Recovers(4)),
    Marks,
    Offer(Media, 65533),
    Offer(Media, 65535),
    Marks,
    Lengths,
    Offer(Column, 65530),
];

// Three columns get ready at once for 65533: two are spoilt, and the search goes on to the third.
pub const SEARCH_GOES_ON: [Step; 12] = [
    Offer(Media, 65530),
    Offer(Media, 65531),
    Offer(Media, 65534),
    Offer(Media, 65535),
    Alter(Column, 65530, Recovers(188)),
    Alter(Column, 65531, Recovers(8)),
    Offer(Column, 65532),
    Marks,
    Offer(Media, 65532),
    Marks,
    Write(Media, 65533),
    Offer(Media, 65533),
];

// Other bytes past a kept length count as zero: 14, reading, rebuilding, writing, and parity in hand.
pub const PAST_LENGTHS: [Step; 21] = [
    Offer(Media, 65531),
    Set(Payload, 564, 255),
    Set(Payload, 751, 255),
    Offer(Media, 65531),
    Write(Media, 65531),
    Offer(Column, 65534),
    Set(Parity, 188, 255),
    Set(Parity, 375, 255),
    Offer(Column, 65534),
    Offer(Media, 65530),
    Offer(Media, 65532),
    Offer(Column, 65530),
    Write(Media, 65533),
    Write(Column, 65530),
    Offer(Media, 65535),
    Offer(Media, 0),
    Offer(Media, 1),
    Write(Media, 65534),
    Write(Column, 65531),
    Write(Column, 65534),
    Marks,
];

// A kept length that is not whole units up to P is 5; not so of a missing position, of a free record, nor a length recovery.
pub const LENGTHS_DISORDER: [Step; 30] = [
    Offer(Media, 65530),
    Offer(Column, 65530),
    Set(KeptLength, 0, 0),
    Offer(Media, 65531),
    Set(KeptLength, 0, 189),
    Write(Media, 65530),
    Set(KeptLength, 0, 204),
    Write(Column, 65530),
    Set(KeptLength, 0, 564),
    Offer(Column, 65530),
    Set(KeptLength, 0, 188),
    Offer(Media, 65530),
    Set(KeptLength, 0, 376),
    Offer(Media, 65530),
    Set(KeptLength, 1, 189),
    Write(Media, 65531),
    Set(HeldLength, 0, 0),
    Offer(Media, 65531),
    Set(HeldLength, 0, 189),
    Write(Media, 65530),
    Set(HeldLength, 0, 564),
    Offer(Column, 65530),
    Set(HeldLength, 0, 376),
    Set(HeldLength, 1, 189),
    Offer(Column, 65530),
    Set(HeldRecovery, 0, 189),
    Offer(Column, 65530),
    Offer(Media, 65531),
    Marks,
    Lengths,
];

// ---- request 6: parity that lies

// A whole group, of payloads of two units and of one: its parity is true, then lies in a field each. Then a lie where one is missing, which
// is not seen: it rebuilds 1, and the true packet and the true parity are refused.
pub const LIES: [Step; 20] = [
    Offer(Media, 65530),
    Offer(Media, 65531),
    Offer(Media, 65532),
    Offer(Media, 65533),
    Offer(Column, 65530),
    Alter(Column, 65530, Byte(7, 9)),
    Alter(Column, 65530, Byte(23, 9)),
    Alter(Column, 65530, Recovers(188)),
    Alter(Column, 65530, Byte(16, 161)),
    Alter(Column, 65530, Byte(215, 9)),
    Alter(Column, 65530, Byte(403, 9)),
    Alter(Column, 65530, Length(216)),
    Offer(Media, 65534),
    Offer(Media, 65535),
    Offer(Media, 0),
    Alter(Column, 65534, Byte(23, 9)),
    Offer(Media, 1),
    Offer(Column, 65531),
    Alter(Column, 65534, Length(404)),
    Offer(Column, 65534),
];

// The bench: the store that a receiver is lent, and the seven calls on it.
// The table of records is kept as rows, row i at slot i, with room for one row more.
ghost use Rattle.std.specs.Prelude.{◌≤◌};

use super::script::{Kind, Number, Part};
use super::wire;
use answer::{Counts, Refusal};
use receiver::{Receiver, Step};
use table::Row;
use window::{Record, StoreView, Window};

// The numbers that a window is opened with, but for where it begins.
#[derive(Clone, Copy)]
pub struct SetUp {
    pub l: usize,
    pub d: usize,
    pub p: usize,
    pub n: usize,
    pub k: usize,
}

// The parts have one element more than 16 positions and 8 records of 188 bytes need; of the parity payloads all but one of
// the bytes that 9 would need, and so of the media payloads, unless they are lent whole.
#[derive(Clone, Copy)]
pub struct Bench {
    media: [u8; 3196],
    // the media payloads are lent whole
    whole: bool,
    pub timestamps: [u32; 17],
    pub lengths: [u16; 17],
    pub marks: [u8; 17],
    parity: [u8; 1691],
    pub rows: [Row; 10],
    pub receiver: Receiver,
}

// How many records there are.
const RECORDS: usize = 9;

// How many bytes of the media payloads are lent: all, or all but the last.
fn lent(whole: bool) -> usize
    ensures { result ≤ 3196 }
{
    if whole { 3196 } else { 3195 }
}

// Rows at their slots, each record of which is old bytes.
fn old_rows() -> [Row; 10] {
    let mut rows = [Row::default(); 10];
    for i in 0..rows.len() {
        rows[i] = Row {
            slot: i as u16,
            note: 0,
            it: Record {
                stream: 85,
                in_use: 8,
                snbase: 85,
                timestamp_recovery: 85,
                length_recovery: 85,
                payload_length: 85,
            },
        };
    }
    rows
}

// A store of old bytes, with no window over it, of which the media payloads are lent whole, or but for their last byte.
fn old_store(whole: bool) -> Bench {
    Bench {
        media: [85; 3196],
        whole,
        timestamps: [85; 17],
        lengths: [85; 17],
        marks: [8; 17],
        parity: [85; 1691],
        rows: old_rows(),
        receiver: Receiver {
            window: Window::default(),
        },
    }
}

// A record with the field that a step names set.
fn changed(v: Record, part: Part, value: u16) -> Record {
    let mut next = v;
    match part {
        Part::Stream => next.stream = rtp::low(value),
        Part::InUse => next.in_use = rtp::low(value),
        Part::HeldRecovery => next.length_recovery = value,
        Part::HeldLength => next.payload_length = value,
        _ => next.snbase = value,
    }
    next
}

// A datagram goes to a port: m media, of which so many bytes are lent, t timestamps, s lengths, k marks, p parity, h rows, of which n
// are in hand. Apart from `offer`, since a part of a field cannot be lent beside other fields of one that is lent.
fn hand_in(
    w: Receiver,
    port: Kind,
    g: &[u8],
    bytes: usize,
    m: &mut [u8; 3196],
    t: &mut [u32; 17],
    s: &mut [u16; 17],
    k: &mut [u8; 17],
    p: &mut [u8; 1691],
    h: &mut [Row; 10],
    n: usize,
) -> Step
    requires { bytes ≤ 3196 }
{
    let m = &mut m[..bytes];
    match port {
        Kind::Media => w.media(g, m, t, s, k, p, h, n, RECORDS),
        Kind::Column => w.column(g, m, t, s, k, p, h, n, RECORDS),
        Kind::Row => w.row(g, m, t, s, k, p, h, n, RECORDS),
    }
}

impl Bench {
    // A window is opened over a store of old bytes, and its records are set free; with the bench what was answered.
    pub fn open(s: SetUp, whole: bool) -> (Bench, Result<Counts, Refusal>) {
        let mut b = old_store(whole);
        let bytes = lent(whole);
        let opening = Receiver::open(
            wire::BASE,
            wire::SOURCE,
            s.l,
            s.d,
            s.p,
            s.n,
            s.k,
            &mut b.media[..bytes],
            &mut b.timestamps,
            &mut b.lengths,
            &mut b.marks,
            &mut b.parity,
            RECORDS,
        );
        for i in 0..opening.records {
            b.rows[i].it = Record::default();
        }
        b.receiver = opening.receiver;
        (b, opening.answer)
    }

    // How many rows a call gets: those of the window's records, as far as there are any.
    fn in_hand(&self) -> usize {
        self.receiver.window.k.min(RECORDS)
    }

    // A datagram is offered on a port.
    pub fn offer(&mut self, port: Kind, g: &[u8]) -> Result<Counts, Refusal> {
        let bytes = lent(self.whole);
        let n = self.in_hand();
        let step = hand_in(
            self.receiver,
            port,
            g,
            bytes,
            &mut self.media,
            &mut self.timestamps,
            &mut self.lengths,
            &mut self.marks,
            &mut self.parity,
            &mut self.rows,
            n,
        );
        self.receiver = step.receiver;
        step.answer
    }

    // The store but for its records, to be read.
    fn view(&self) -> StoreView {
        StoreView {
            media: &self.media[..lent(self.whole)],
            timestamps: &self.timestamps,
            lengths: &self.lengths,
            marks: &self.marks,
            parity: &self.parity,
        }
    }

    // The packet of a number is read, or parity written, into the bytes lent; parity goes out with sequence 7, timestamp 0 and SSRC 0.
    pub fn write(&self, kind: Kind, number: u16, out: &mut [u8]) -> Result<Counts, Refusal> {
        let w = self.receiver;
        let v = self.view();
        let n = self.in_hand();
        let mut rows = self.rows;
        let h = &mut rows;
        let step = match kind {
            Kind::Media => w.read(number, v, h, n, RECORDS, out),
            Kind::Column => w.write_column(number, 7, 0, 0, v, h, n, RECORDS, out),
            Kind::Row => w.write_row(number, 7, 0, 0, v, h, n, RECORDS, out),
        };
        step.answer
    }

    // An element of the store is set from outside, where there is one of this index.
    pub fn set(&mut self, part: Part, i: usize, value: u16) {
        match part {
            Part::Mark if i < 17 => self.marks[i] = rtp::low(value),
            Part::KeptLength if i < 17 => self.lengths[i] = value,
            Part::Payload if i < 3196 => self.media[i] = rtp::low(value),
            Part::Parity if i < 1691 => self.parity[i] = rtp::low(value),
            Part::Mark | Part::KeptLength | Part::Payload | Part::Parity => {}
            _ if i < RECORDS => self.rows[i].it = changed(self.rows[i].it, part, value),
            _ => {}
        }
    }

    // A number of the window value is made up.
    pub fn make_up(&mut self, number: Number, value: u16) {
        let x = value as usize;
        match number {
            Number::L => self.receiver.window.l = x,
            Number::P => self.receiver.window.p = x,
            Number::N => self.receiver.window.n = x,
            Number::K => self.receiver.window.k = x,
            Number::Present => self.receiver.window.present = x,
        }
    }
}

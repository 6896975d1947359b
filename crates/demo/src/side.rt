// A sender's or a receiver's window with its store, and the calls on it.
ghost use Rattle.std.specs.Prelude.{◌≤◌};

use answer::{Counts, Refusal};
use receiver::Receiver;
use std::array;
use table::Row;
use window::{Record, StoreView, Window};

// The number of position 0, and the SSRC of the media.
pub const BASE: u16 = 65530;

pub const SOURCE: u32 = 3232235777;

// A port, and the packets that go to it.
#[derive(Clone, Copy, PartialEq, Eq)]
pub enum Port {
    Media,
    Column,
    Row,
}

// How many records there are.
const RECORDS: usize = 8;

// The window, and a store of 16 positions and 8 records of 188 bytes. The table of records is kept as rows, row i at slot i, with
// room for one row more.
#[derive(Clone, Copy)]
pub struct Side {
    media: [u8; 3008],
    timestamps: [u32; 16],
    lengths: [u16; 16],
    pub marks: [u8; 16],
    parity: [u8; 1504],
    rows: [Row; 9],
    receiver: Receiver,
}

// Row i of a table of free records.
fn free_row(i: usize) -> Row
    requires { i ≤ 8 }
{
    Row {
        slot: i as u16,
        note: 0,
        it: Record::default(),
    }
}

// The window value before the opening, which is in no order.
fn closed() -> Receiver {
    Receiver {
        window: Window::default(),
    }
}

impl Side {
    // A window of 4 columns and 4 rows is opened. Its records are to be set free: its rows are new, and free already.
    pub fn open() -> Side {
        let mut side = Side {
            media: [0; 3008],
            timestamps: [0; 16],
            lengths: [0; 16],
            marks: [0; 16],
            parity: [0; 1504],
            rows: array::from_fn(|i| free_row(i)),
            receiver: closed(),
        };
        let opening = Receiver::open(
            BASE,
            SOURCE,
            4,
            4,
            188,
            16,
            RECORDS,
            &mut side.media,
            &mut side.timestamps,
            &mut side.lengths,
            &mut side.marks,
            &mut side.parity,
            RECORDS,
        );
        side.receiver = opening.receiver;
        side
    }

    // A datagram is offered on a port.
    pub fn offer(&mut self, port: Port, g: &[u8]) -> Result<Counts, Refusal> {
        let w = self.receiver;
        let m = &mut self.media;
        let t = &mut self.timestamps;
        let s = &mut self.lengths;
        let k = &mut self.marks;
        let p = &mut self.parity;
        let h = &mut self.rows;
        let step = match port {
            Port::Media => w.media(g, m, t, s, k, p, h, RECORDS, RECORDS),
            Port::Column => w.column(g, m, t, s, k, p, h, RECORDS, RECORDS),
            Port::Row => w.row(g, m, t, s, k, p, h, RECORDS, RECORDS),
        };
        self.receiver = step.receiver;
        step.answer
    }

    // The store but for its records, to be read.
    fn view(&self) -> StoreView {
        StoreView {
            media: &self.media,
            timestamps: &self.timestamps,
            lengths: &self.lengths,
            marks: &self.marks,
            parity: &self.parity,
        }
    }

    // The packet of a number as it is read out; zeros where it is missing.
    pub fn packet(&self, number: u16) -> [u8; 200] {
        let mut rows = self.rows;
        let mut out = [0; 200];
        self.receiver
            .read(number, self.view(), &mut rows, RECORDS, RECORDS, &mut out);
        out
    }

    // The parity packet of the column that starts at a number; zeros where one of it is missing.
    pub fn column(&self, start: u16, sequence: u16) -> [u8; 216] {
        let mut rows = self.rows;
        let mut out = [0; 216];
        self.receiver.write_column(
            start,
            sequence,
            0,
            0,
            self.view(),
            &mut rows,
            RECORDS,
            RECORDS,
            &mut out,
        );
        out
    }

    // The parity packet of the row that starts at a number; zeros where one of it is missing.
    pub fn row(&self, start: u16, sequence: u16) -> [u8; 216] {
        let mut rows = self.rows;
        let mut out = [0; 216];
        self.receiver.write_row(
            start,
            sequence,
            0,
            0,
            self.view(),
            &mut rows,
            RECORDS,
            RECORDS,
            &mut out,
        );
        out
    }

    // The window moves on by all of its positions; the answer counts the packets that left and were not lost.
    pub fn advance(&mut self) -> Result<Counts, Refusal> {
        let mut out = [0; 3200];
        let mut sizes = [0; 16];
        let step = self.receiver.advance(
            16,
            &mut self.media,
            &mut self.timestamps,
            &mut self.lengths,
            &mut self.marks,
            &mut self.parity,
            &mut self.rows,
            RECORDS,
            RECORDS,
            &mut out,
            &mut sizes,
        );
        self.receiver = step.receiver;
        step.answer
    }
}

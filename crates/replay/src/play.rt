// The offers of a capture file, each to the port that it came in on, into a window of the header's numbers.
ghost use Rattle.std.specs.Prelude.{◌≤◌};

use answer::{Counts, Refusal};
use capture::{Header, Reading};
use receiver::{Opening, Receiver, Step};
use std::io::Read;
use table::Row;
use window::Record;

// What a window is lent beside media and parity. The table of records is kept as rows, row i at slot i, with room for one row more.
#[derive(Clone, Copy)]
struct Store {
    timestamps: [u32; 400],
    lengths: [u16; 400],
    marks: [u8; 400],
    rows: [Row; 129],
}

// Rows at their slots, of records that are free.
fn free_rows() -> [Row; 129] {
    let mut rows = [Row::default(); 129];
    for i in 0..rows.len() {
        rows[i] = Row {
            slot: i as u16,
            note: 0,
            it: Record::default(),
        };
    }
    rows
}

impl Store {
    // Nothing is present.
    fn new() -> Store {
        Store {
            timestamps: [0; 400],
            lengths: [0; 400],
            marks: [0; 400],
            rows: free_rows(),
        }
    }

    // A window of the header's numbers is opened.
    fn open(&mut self, h: Header, media: &mut [u8], parity: &mut [u8]) -> Opening {
        Receiver::open(
            h.base,
            0,
            h.l,
            h.d,
            h.p,
            h.n,
            h.k,
            media,
            &mut self.timestamps,
            &mut self.lengths,
            &mut self.marks,
            parity,
            h.k,
        )
    }

    // A datagram goes to a port, which is a number as the file has it: g the datagram, m media, p parity, and k records, all of them in
    // hand.
    fn offer(
        &mut self,
        w: Receiver,
        port: u8,
        g: &[u8],
        m: &mut [u8],
        p: &mut [u8],
        k: usize,
    ) -> Step {
        let t = &mut self.timestamps;
        let s = &mut self.lengths;
        let a = &mut self.marks;
        let h = &mut self.rows;
        match port {
            1 => w.media(g, m, t, s, a, p, h, k, k),
            2 => w.column(g, m, t, s, a, p, h, k, k),
            _ => w.row(g, m, t, s, a, p, h, k, k),
        }
    }
}

// Plays the entries of a file into a window over media and parity, which share 40,960 bytes, and so many of them are for media: each is
// read as it is offered, and then the rest of the file. What each was answered goes into answers; the result is how many packets are
// present in the end.
pub fn play(
    file: &mut impl Read,
    front: &[u8],
    h: Header,
    before: Reading,
    for_media: usize,
    answers: &mut [Result<Counts, Refusal>; 512],
) -> Result<usize, Refusal>
    requires { (h.count ≤ 512) × (for_media ≤ 40960) }
{
    let mut room = [0; 40960];
    let (media, parity) = room.split_at_mut(for_media);
    let mut store = Store::new();
    let mut receiver = store.open(h, media, parity).receiver;
    let mut reading = before;
    for i in 0..h.count {
        let mut body = [0; 1500];
        let e = load::entry_of(front, i);
        let got = crate::input::fill(file, &mut body[..e.length.min(1500)]);
        reading = crate::input::read_due(reading.reader, &body[..got], e.length)?;
        let step = store.offer(receiver, e.port, &body[..got], media, parity, h.k);
        receiver = step.receiver;
        answers[i] = step.answer;
    }
    crate::input::rest(file, reading)?;
    Ok(receiver.window.present)
}

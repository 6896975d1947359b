#![tactic(auto)]

// The receiver: a window value with the calls of document 01 as methods. Each takes the value and hands the next one back
// beside the answer; a call ends on every input, and a refused one changes nothing.
//
// The card lends the store. Of its table of records a call gets a hand, the records in use, each with its slot (crate
// `table`): the first m of some rows, with room for one more. A call's cost goes with what is in hand.
ghost use Rattle.std.specs.Prelude.{◌≡◌, true, List, ◌<◌, ◌≤◌, length};
ghost use Rattle.rtp.specs.Fec.{column, row};
ghost use Rattle.window.specs.declared.Record.{Record};
ghost use Rattle.window.specs.Limits.{most_records};
ghost use Rattle.window.specs.Store.{stored};
ghost use Rattle.answer.specs.Refused.{answer_of, written_as};
ghost use Rattle.calls.specs.Call.{asked, wiped, opened, offered_media, offered_parity, read_out, wrote_parity};
ghost use Rattle.calls.specs.Move.{moved};
ghost use Rattle.receiver.specs.Step.{Stepped, Wrote, Advanced};

use answer::{Counts, Refusal};
use table::Row;
use window::{StoreView, Window};

// A window value.
#[derive(Clone, Copy)]
pub struct Receiver {
    pub window: Window,
}

// The answer, the next window value, how many rows the hand has now, and whether the records differ from what they were.
#[derive(Clone, Copy)]
pub struct Step {
    pub answer: Result<Counts, Refusal>,
    pub receiver: Receiver,
    pub rows: usize,
    pub changed: bool,
}

// The answer to an opening, the window value, and how many records of the table are to be set free.
#[derive(Clone, Copy)]
pub struct Opening {
    pub answer: Result<Counts, Refusal>,
    pub receiver: Receiver,
    pub records: usize,
}

// The answer with the next window value beside it.
fn handed(answer: Result<Counts, Refusal>, window: Window, rows: usize, changed: bool) -> Step
    ensures { result ≡ record { answer = answer; receiver = record { window = window }; rows = rows; changed = changed } }
{
    Step {
        answer,
        receiver: Receiver { window },
        rows,
        changed,
    }
}

// The answer of a call that writes: its count is of bytes.
fn counted(written: Result<usize, Refusal>) -> Result<Counts, Refusal>
    ensures { answer_of result ≡ written_as written }
{
    let count = written?;
    Ok(Counts { count, spoilt: 0 })
}

// A hand of m rows and one more lies in `len` rows.
fn has_room(len: usize, m: usize) -> bool
    ensures { (result ≡ true → (m ≤ most_records) × (m < len)) × ((m ≤ most_records) × (m < len) → result ≡ true) }
{
    (m <= window::MOST_RECORDS) & (m < len)
}

// A parity datagram is offered on the port of a stream. Never inlined: it stands once for both streams.
#[inline(never)]
pub fn offer_parity(
    w: Window,
    stream: u8,
    datagram: &[u8],
    media: &mut [u8],
    timestamps: &mut [u32],
    lengths: &mut [u16],
    marks: &mut [u8],
    parity: &mut [u8],
    rows: &mut [Row],
    m: usize,
    len: usize,
) -> Step
    ensures { Stepped (offered_parity stream w datagram.now) w.k len m media.old timestamps.old lengths.old marks.old parity.old rows.old
        media.new timestamps.new lengths.new marks.new parity.new rows.new result }
{
    if !has_room(rows.len(), m) {
        return handed(Err(Refusal::TooShort), w, m, false);
    }
    let hand = &mut rows[..m];
    let r = match offer::offer_parity(
        w, stream, datagram, media, timestamps, lengths, marks, parity, hand, len,
    ) {
        Ok(r) => r,
        Err(e) => return handed(Err(e), w, m, false),
    };
    let Some(v) = r.held else {
        return handed(Ok(r.counts), r.window, m, r.changed);
    };
    let n = table::hold(rows, m, v);
    handed(Ok(r.counts), r.window, n, true)
}

// The parity packet of a group of a stream is written to the front of `out`. Never inlined, as above.
#[inline(never)]
pub fn write_parity(
    stream: u8,
    w: Window,
    snbase: u16,
    sequence: u16,
    timestamp: u32,
    ssrc: u32,
    store: StoreView,
    rows: &mut [Row],
    m: usize,
    len: usize,
    out: &mut [u8],
) -> Step
    requires { stream ≤ 1 }
    ensures { Wrote (wrote_parity stream w snbase (record { sequence = sequence; timestamp = timestamp; ssrc = ssrc })) w.k len m store.entry rows.old out.old out.new result }
{
    if !has_room(rows.len(), m) {
        return handed(Err(Refusal::TooShort), w, m, false);
    }
    let hand = &mut rows[..m];
    let written = read::write_parity(
        stream, w, snbase, sequence, timestamp, ssrc, store, hand, len, out,
    );
    handed(counted(written), w, m, false)
}

impl Receiver {
    // Opens a window over n positions from a base number; all that it needs of the store is set to zero, but for the records,
    // which the caller sets free. The table has len records.
    pub fn open(
        base: u16,
        ssrc: u32,
        l: usize,
        d: usize,
        p: usize,
        n: usize,
        k: usize,
        media: &mut [u8],
        timestamps: &mut [u32],
        lengths: &mut [u16],
        marks: &mut [u8],
        parity: &mut [u8],
        len: usize,
    ) -> Opening
        ensures { (result.records ≤ len) × ((t : List Record) → length t ≡ len
            → record { answer = answer_of result.answer; window = result.receiver.window; store = stored media.new timestamps.new lengths.new marks.new parity.new (wiped result.records t) }
            ≡ opened (asked base ssrc l d p n k) (stored media.old timestamps.old lengths.old marks.old parity.old t)) }
    {
        let r = open::open(
            base, ssrc, l, d, p, n, k, media, timestamps, lengths, marks, parity, len,
        );
        let answer = r.answer;
        let window = r.window;
        Opening {
            answer,
            receiver: Receiver { window },
            records: r.records,
        }
    }

    // A media datagram is offered: the count is of packets rebuilt. The hand has m rows, the table len records.
    pub fn media(
        self,
        datagram: &[u8],
        media: &mut [u8],
        timestamps: &mut [u32],
        lengths: &mut [u16],
        marks: &mut [u8],
        parity: &mut [u8],
        rows: &mut [Row],
        m: usize,
        len: usize,
    ) -> Step
        ensures { Stepped (offered_media self.window datagram.now) self.window.k len m media.old timestamps.old lengths.old marks.old parity.old rows.old
            media.new timestamps.new lengths.new marks.new parity.new rows.new result }
    {
        let w = self.window;
        if !has_room(rows.len(), m) {
            return handed(Err(Refusal::TooShort), w, m, false);
        }
        let hand = &mut rows[..m];
        match offer::offer_media(
            w, datagram, media, timestamps, lengths, marks, parity, hand, len,
        ) {
            Ok(r) => handed(Ok(r.counts), r.window, m, r.changed),
            Err(e) => handed(Err(e), w, m, false),
        }
    }

    // A column parity datagram is offered.
    pub fn column(
        self,
        datagram: &[u8],
        media: &mut [u8],
        timestamps: &mut [u32],
        lengths: &mut [u16],
        marks: &mut [u8],
        parity: &mut [u8],
        rows: &mut [Row],
        m: usize,
        len: usize,
    ) -> Step
        ensures { Stepped (offered_parity column self.window datagram.now) self.window.k len m media.old timestamps.old lengths.old marks.old parity.old rows.old
            media.new timestamps.new lengths.new marks.new parity.new rows.new result }
    {
        let w = self.window;
        offer_parity(
            w,
            rtp::COLUMN,
            datagram,
            media,
            timestamps,
            lengths,
            marks,
            parity,
            rows,
            m,
            len,
        )
    }

    // A row parity datagram is offered.
    pub fn row(
        self,
        datagram: &[u8],
        media: &mut [u8],
        timestamps: &mut [u32],
        lengths: &mut [u16],
        marks: &mut [u8],
        parity: &mut [u8],
        rows: &mut [Row],
        m: usize,
        len: usize,
    ) -> Step
        ensures { Stepped (offered_parity row self.window datagram.now) self.window.k len m media.old timestamps.old lengths.old marks.old parity.old rows.old
            media.new timestamps.new lengths.new marks.new parity.new rows.new result }
    {
        let w = self.window;
        offer_parity(
            w,
            rtp::ROW,
            datagram,
            media,
            timestamps,
            lengths,
            marks,
            parity,
            rows,
            m,
            len,
        )
    }

    // The packet of a number is written to the front of `out` as a media datagram; the count is of bytes written.
    pub fn read(
        self,
        number: u16,
        store: StoreView,
        rows: &mut [Row],
        m: usize,
        len: usize,
        out: &mut [u8],
    ) -> Step
        ensures { Wrote (read_out self.window number) self.window.k len m store.entry rows.old out.old out.new result }
    {
        let w = self.window;
        if !has_room(rows.len(), m) {
            return handed(Err(Refusal::TooShort), w, m, false);
        }
        let hand = &mut rows[..m];
        let written = read::read_out(w, number, store, hand, len, out);
        handed(counted(written), w, m, false)
    }

    // The parity datagram of the column that starts at a number is written to the front of `out`.
    pub fn write_column(
        self,
        snbase: u16,
        sequence: u16,
        timestamp: u32,
        ssrc: u32,
        store: StoreView,
        rows: &mut [Row],
        m: usize,
        len: usize,
        out: &mut [u8],
    ) -> Step
        ensures { Wrote (wrote_parity column self.window snbase (record { sequence = sequence; timestamp = timestamp; ssrc = ssrc })) self.window.k len m store.entry rows.old out.old out.new result }
    {
        let w = self.window;
        write_parity(
            rtp::COLUMN,
            w,
            snbase,
            sequence,
            timestamp,
            ssrc,
            store,
            rows,
            m,
            len,
            out,
        )
    }

    // The parity datagram of the row that starts at a number is written to the front of `out`.
    pub fn write_row(
        self,
        snbase: u16,
        sequence: u16,
        timestamp: u32,
        ssrc: u32,
        store: StoreView,
        rows: &mut [Row],
        m: usize,
        len: usize,
        out: &mut [u8],
    ) -> Step
        ensures { Wrote (wrote_parity row self.window snbase (record { sequence = sequence; timestamp = timestamp; ssrc = ssrc })) self.window.k len m store.entry rows.old out.old out.new result }
    {
        let w = self.window;
        write_parity(
            rtp::ROW,
            w,
            snbase,
            sequence,
            timestamp,
            ssrc,
            store,
            rows,
            m,
            len,
            out,
        )
    }

    // The base advances by a number of positions: the packets that leave are written to `out`, a slot of 12 + P bytes each, and their
    // lengths to `sizes`; the count is of packets written.
    pub fn advance(
        self,
        by: usize,
        media: &mut [u8],
        timestamps: &mut [u32],
        lengths: &mut [u16],
        marks: &mut [u8],
        parity: &mut [u8],
        rows: &mut [Row],
        m: usize,
        len: usize,
        out: &mut [u8],
        sizes: &mut [u16],
    ) -> Step
        ensures { Advanced (λ s. moved self.window by s out.old sizes.old) self.window.k len m media.old timestamps.old lengths.old marks.old parity.old rows.old
            media.new timestamps.new lengths.new marks.new parity.new rows.new out.new sizes.new result }
    {
        let w = self.window;
        if !has_room(rows.len(), m) {
            return handed(Err(Refusal::TooShort), w, m, false);
        }
        let hand = &mut rows[..m];
        match moving::advance(
            w, by, media, timestamps, lengths, marks, parity, hand, len, out, sizes,
        ) {
            Ok(r) => {
                let counts = Counts {
                    count: r.count,
                    spoilt: 0,
                };
                handed(Ok(counts), r.window, m, true)
            }
            Err(e) => handed(Err(e), w, m, false),
        }
    }
}

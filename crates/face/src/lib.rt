#![tactic(auto)]

// What stands between the exported calls and the receiver: a hand is gathered of the lent table, a method of the receiver works
// on it, and its rows go back where they changed; the answer becomes document 01's number and count.
ghost use Rattle.std.specs.Prelude.{◌≡◌, cond, List, ◌<◌, ◌≤◌, length, IfSome, IfNone};
ghost use Rattle.window.specs.declared.Record.{Record};
ghost use Rattle.window.specs.Store.{stored};
ghost use Rattle.table.specs.Gather.{gathered};
ghost use Rattle.answer.specs.Refused.{answer_of};
ghost use Rattle.calls.specs.Call.{asked, wiped, opened, offered_media, offered_parity, read_out, wrote_parity};
ghost use Rattle.face.specs.Reply.{numbered, replied, filled};
ghost use Rattle.calls.specs.Move.{moved};
ghost use Rattle.face.specs.Done.{reached, Lent, Done, Given, Carries};

use answer::{Answer, Counts, Refusal};
use receiver::{Receiver, Step};
use table::Row;
use window::{Record, StoreView, Window};

// An answer by document 01's number and counts, and the next window value.
#[repr(C)]
#[derive(Clone, Copy)]
pub struct Reply {
    pub number: u32,
    pub count: usize,
    pub spoilt: usize,
    pub window: Window,
}

// What an offer leaves: the reply, and how many rows go back into the table.
#[derive(Clone, Copy)]
pub struct Finished {
    pub reply: Reply,
    pub rows: usize,
}

// Most records of a small hand, which most calls can do with.
pub const FEW: usize = 15;

// How many records are looked through.
pub fn reach(len: usize, k: usize) -> usize
    ensures { result ≡ reached len k }
{
    len.min(k).min(window::MOST_RECORDS)
}

// The records in use become the first of some rows, with room for one more behind them; none where they are too many for that.
pub fn gather(records: &[Record], k: usize, rows: &mut [Row]) -> Option<usize>
    requires { 0 < length rows.old }
    ensures some { IfSome result (λ m. (m < length rows.new) × Lent (length records.now) k m rows.new records.now) }
    ensures none { IfNone result (length rows.new ≤ length (gathered (reached (length records.now) k) records.now)) }
{
    let room = rows.len() - 1;
    let hand = &mut rows[..room];
    table::gather(records, reach(records.len(), k), hand)
}

// The answer as number and counts.
fn by_number(answer: Result<Counts, Refusal>, window: Window) -> Reply
    ensures { result ≡ numbered (answer_of answer) window }
{
    let a = Answer::from(answer);
    Reply {
        number: answer::number(a) as u32,
        count: answer::count(a),
        spoilt: answer::spoilt(a),
        window,
    }
}

// The reply, and how many rows go back: none where nothing changed.
fn finish(step: Step) -> Finished
    ensures { (result.reply ≡ numbered (answer_of step.answer) step.receiver.window) × (result.rows ≡ cond step.changed step.rows 0) }
{
    Finished {
        reply: by_number(step.answer, step.receiver.window),
        rows: if step.changed { step.rows } else { 0 },
    }
}

// A window is opened; how many records are to be set free. The table has len records.
pub fn open(
    base: u16,
    l: usize,
    d: usize,
    p: usize,
    n: usize,
    k: usize,
    ssrc: u32,
    media: &mut [u8],
    timestamps: &mut [u32],
    lengths: &mut [u16],
    marks: &mut [u8],
    parity: &mut [u8],
    len: usize,
) -> Finished
    ensures { (result.rows ≤ len) × ((t : List Record) → length t ≡ len
        → record { reply = result.reply; store = stored media.new timestamps.new lengths.new marks.new parity.new (wiped result.rows t) }
        ≡ replied (opened (asked base ssrc l d p n k) (stored media.old timestamps.old lengths.old marks.old parity.old t))) }
{
    let r = Receiver::open(
        base, ssrc, l, d, p, n, k, media, timestamps, lengths, marks, parity, len,
    );
    Finished {
        reply: by_number(r.answer, r.receiver.window),
        rows: r.records,
    }
}

// A media datagram is offered; m rows are gathered of a table of len records.
pub fn media(
    w: Window,
    datagram: &[u8],
    media: &mut [u8],
    timestamps: &mut [u32],
    lengths: &mut [u16],
    marks: &mut [u8],
    parity: &mut [u8],
    rows: &mut [Row],
    m: usize,
    len: usize,
) -> Finished
    requires { m < length rows.old }
    ensures { Done (λ s. replied (offered_media w datagram.now s)) len w.k m media.old timestamps.old lengths.old marks.old parity.old rows.old
        media.new timestamps.new lengths.new marks.new parity.new rows.new result }
{
    let receiver = Receiver { window: w };
    finish(receiver.media(
        datagram, media, timestamps, lengths, marks, parity, rows, m, len,
    ))
}

// A parity datagram is offered on the port of a stream. Inlined, so that a stream that is known is not asked for. A number that is
// none of the two is judged as the receiver has it.
#[inline(always)]
pub fn parity(
    w: Window,
    stream: u8,
    datagram: &[u8],
    media: &mut [u8],
    timestamps: &mut [u32],
    lengths: &mut [u16],
    marks: &mut [u8],
    parity: &mut [u8],
    rows: &mut [Row],
    m: usize,
    len: usize,
) -> Finished
    requires { m < length rows.old }
    ensures { Done (λ s. replied (offered_parity stream w datagram.now s)) len w.k m media.old timestamps.old lengths.old marks.old parity.old rows.old
        media.new timestamps.new lengths.new marks.new parity.new rows.new result }
{
    let receiver = Receiver { window: w };
    if stream == rtp::COLUMN {
        return finish(receiver.column(
            datagram, media, timestamps, lengths, marks, parity, rows, m, len,
        ));
    }
    if stream == rtp::ROW {
        return finish(receiver.row(
            datagram, media, timestamps, lengths, marks, parity, rows, m, len,
        ));
    }
    finish(receiver::offer_parity(
        w, stream, datagram, media, timestamps, lengths, marks, parity, rows, m, len,
    ))
}

// The packet of a number is read out.
pub fn read(
    w: Window,
    number: u16,
    store: StoreView,
    rows: &mut [Row],
    m: usize,
    len: usize,
    out: &mut [u8],
) -> Reply
    requires { m < length rows.old }
    ensures { Given (λ s o. filled (read_out w number s o)) len w.k m store.entry rows.old out.old out.new result }
{
    let receiver = Receiver { window: w };
    let r = receiver.read(number, store, rows, m, len, out);
    by_number(r.answer, r.receiver.window)
}

// The parity packet of a group of a stream is written. Inlined, as above.
#[inline(always)]
pub fn write_parity(
    w: Window,
    stream: u8,
    snbase: u16,
    sequence: u16,
    timestamp: u32,
    ssrc: u32,
    store: StoreView,
    rows: &mut [Row],
    m: usize,
    len: usize,
    out: &mut [u8],
) -> Reply
    requires { (m < length rows.old) × (stream ≤ 1) }
    ensures { Given (λ s o. filled (wrote_parity stream w snbase (record { sequence = sequence; timestamp = timestamp; ssrc = ssrc }) s o)) len w.k m store.entry rows.old out.old out.new result }
{
    let receiver = Receiver { window: w };
    if stream == rtp::COLUMN {
        let r = receiver.write_column(snbase, sequence, timestamp, ssrc, store, rows, m, len, out);
        return by_number(r.answer, r.receiver.window);
    }
    let r = receiver.write_row(snbase, sequence, timestamp, ssrc, store, rows, m, len, out);
    by_number(r.answer, r.receiver.window)
}

// The base advances by a number of positions.
pub fn advance(
    w: Window,
    by: usize,
    media: &mut [u8],
    timestamps: &mut [u32],
    lengths: &mut [u16],
    marks: &mut [u8],
    parity: &mut [u8],
    rows: &mut [Row],
    m: usize,
    len: usize,
    out: &mut [u8],
    sizes: &mut [u16],
) -> Finished
    requires { m < length rows.old }
    ensures { Carries (λ s. moved w by s out.old sizes.old) len w.k m media.old timestamps.old lengths.old marks.old parity.old rows.old
        media.new timestamps.new lengths.new marks.new parity.new rows.new out.new sizes.new result }
{
    let receiver = Receiver { window: w };
    finish(receiver.advance(
        by, media, timestamps, lengths, marks, parity, rows, m, len, out, sizes,
    ))
}

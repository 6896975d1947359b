#![tactic(auto)]

// The library for cards in C and Rust: the calls of document 01 over what a card lends, its records a table; capture files; and a
// sender.
// Every call ends on every input; a refused one gives back its number and changes nothing that was lent.
// The records in use are gathered into a hand: few of them into a small array, more into a large one, which is made only then.
ghost use Rattle.std.specs.Prelude.{◌≡◌, ◌<◌, ◌≤◌, length};
ghost use Rattle.window.specs.Store.{stored, viewed};
ghost use Rattle.rtp.specs.Fec.{column, row};
ghost use Rattle.calls.specs.Call.{asked, opened, offered_media, offered_parity, read_out, wrote_parity};
ghost use Rattle.calls.specs.Move.{moved};
ghost use Rattle.face.specs.Done.{Lent};
ghost use Rattle.face.specs.Reply.{replied, filled, carried};
ghost use Rattle.capture.specs.Calls.{read_on, header_read, entry_read, wrote};
ghost use Rattle.sender.specs.Sums.{lent};
ghost use Rattle.sender.specs.Call as sending;

use capture::{Header, Line, Reader, Reading, Written};
use face::Reply;
use sender::{Outer, Sender, Sent};
use table::Row;
use window::{Record, StoreView, Window};

// Opens a window over n positions from a base number; all that it needs of the store is set to zero.
#[unsafe(no_mangle)]
pub extern "C" fn cgv_open(
    base: u16,
    l: usize,
    d: usize,
    p: usize,
    n: usize,
    k: usize,
    ssrc: u32,
    media: &mut [u8],
    timestamps: &mut [u32],
    lengths: &mut [u16],
    marks: &mut [u8],
    parity: &mut [u8],
    records: &mut [Record],
) -> Reply
    ensures { record { reply = result; store = stored media.new timestamps.new lengths.new marks.new parity.new records.new }
        ≡ replied (opened (asked base ssrc l d p n k) (stored media.old timestamps.old lengths.old marks.old parity.old records.old)) }
{
    let done = face::open(
        base,
        l,
        d,
        p,
        n,
        k,
        ssrc,
        media,
        timestamps,
        lengths,
        marks,
        parity,
        records.len(),
    );
    table::wipe(records, done.rows);
    done.reply
}

// The records in use as a hand of any number: no more are looked through than a window may have, so there is always room.
fn gather_all(records: &[Record], k: usize, rows: &mut [Row]) -> usize
    requires { length rows.old ≡ 129 }
    ensures { (result < length rows.new) × Lent (length records.now) k result rows.new records.now }
{
    let Some(m) = face::gather(records, k, rows) else {
        return 0;
    };
    m
}

// A media datagram is offered over a hand of m rows, and what it leaves of them goes back into the table.
fn media_over(
    w: Window,
    datagram: &[u8],
    media: &mut [u8],
    timestamps: &mut [u32],
    lengths: &mut [u16],
    marks: &mut [u8],
    parity: &mut [u8],
    records: &mut [Record],
    rows: &mut [Row],
    m: usize,
) -> Reply
    requires { (m < length rows.old) × Lent (length records.old) w.k m rows.old records.old }
    ensures { record { reply = result; store = stored media.new timestamps.new lengths.new marks.new parity.new records.new }
        ≡ replied (offered_media w datagram.now (stored media.old timestamps.old lengths.old marks.old parity.old records.old)) }
{
    let len = records.len();
    let done = face::media(
        w, datagram, media, timestamps, lengths, marks, parity, rows, m, len,
    );
    table::scatter_back(records, &rows[..done.rows]);
    done.reply
}

// A parity datagram is offered on the port of a stream over a hand of m rows, and what it leaves of them goes back into the table.
// Inlined, as what only hands a window on is.
#[inline(always)]
fn parity_over(
    w: Window,
    stream: u8,
    datagram: &[u8],
    media: &mut [u8],
    timestamps: &mut [u32],
    lengths: &mut [u16],
    marks: &mut [u8],
    parity: &mut [u8],
    records: &mut [Record],
    rows: &mut [Row],
    m: usize,
) -> Reply
    requires { (m < length rows.old) × Lent (length records.old) w.k m rows.old records.old }
    ensures { record { reply = result; store = stored media.new timestamps.new lengths.new marks.new parity.new records.new }
        ≡ replied (offered_parity stream w datagram.now (stored media.old timestamps.old lengths.old marks.old parity.old records.old)) }
{
    let len = records.len();
    let done = face::parity(
        w, stream, datagram, media, timestamps, lengths, marks, parity, rows, m, len,
    );
    table::scatter_back(records, &rows[..done.rows]);
    done.reply
}

// A parity datagram is offered on the port of a stream, over a hand of any number of rows. Never inlined: these rows would be cleared
// for a small hand too.
#[inline(never)]
fn offer_parity_to_many(
    w: Window,
    stream: u8,
    datagram: &[u8],
    media: &mut [u8],
    timestamps: &mut [u32],
    lengths: &mut [u16],
    marks: &mut [u8],
    parity: &mut [u8],
    records: &mut [Record],
) -> Reply
    ensures { record { reply = result; store = stored media.new timestamps.new lengths.new marks.new parity.new records.new }
        ≡ replied (offered_parity stream w datagram.now (stored media.old timestamps.old lengths.old marks.old parity.old records.old)) }
{
    let mut many = [Row::default(); 129];
    let m = gather_all(records, w.k, &mut many);
    parity_over(
        w, stream, datagram, media, timestamps, lengths, marks, parity, records, &mut many, m,
    )
}

// A parity datagram is offered on the port of a stream. Inlined into the call of each stream: a window that is handed on costs time.
#[inline(always)]
fn offer_parity(
    w: Window,
    stream: u8,
    datagram: &[u8],
    media: &mut [u8],
    timestamps: &mut [u32],
    lengths: &mut [u16],
    marks: &mut [u8],
    parity: &mut [u8],
    records: &mut [Record],
) -> Reply
    ensures { record { reply = result; store = stored media.new timestamps.new lengths.new marks.new parity.new records.new }
        ≡ replied (offered_parity stream w datagram.now (stored media.old timestamps.old lengths.old marks.old parity.old records.old)) }
{
    let mut few = [Row::default(); face::FEW + 1];
    if let Some(m) = face::gather(records, w.k, &mut few) {
        return parity_over(
            w, stream, datagram, media, timestamps, lengths, marks, parity, records, &mut few, m,
        );
    }
    offer_parity_to_many(
        w, stream, datagram, media, timestamps, lengths, marks, parity, records,
    )
}

// The parity datagram of a group of a stream is written, over a hand of any number of rows. Never inlined, as above.
#[inline(never)]
fn write_parity_by_many(
    w: Window,
    stream: u8,
    snbase: u16,
    sequence: u16,
    timestamp: u32,
    ssrc: u32,
    store: StoreView,
    records: &[Record],
    out: &mut [u8],
) -> Reply
    requires { stream ≤ 1 }
    ensures { record { reply = result; out = out.new }
        ≡ filled (wrote_parity stream w snbase (record { sequence = sequence; timestamp = timestamp; ssrc = ssrc }) (viewed store.entry records.now) out.old) }
{
    let len = records.len();
    let mut many = [Row::default(); 129];
    let m = gather_all(records, w.k, &mut many);
    face::write_parity(
        w, stream, snbase, sequence, timestamp, ssrc, store, &mut many, m, len, out,
    )
}

// The parity datagram of a group of a stream is written. Inlined, as above.
#[inline(always)]
fn write_parity(
    w: Window,
    stream: u8,
    snbase: u16,
    sequence: u16,
    timestamp: u32,
    ssrc: u32,
    store: StoreView,
    records: &[Record],
    out: &mut [u8],
) -> Reply
    requires { stream ≤ 1 }
    ensures { record { reply = result; out = out.new }
        ≡ filled (wrote_parity stream w snbase (record { sequence = sequence; timestamp = timestamp; ssrc = ssrc }) (viewed store.entry records.now) out.old) }
{
    let len = records.len();
    let mut few = [Row::default(); face::FEW + 1];
    if let Some(m) = face::gather(records, w.k, &mut few) {
        return face::write_parity(
            w, stream, snbase, sequence, timestamp, ssrc, store, &mut few, m, len, out,
        );
    }
    write_parity_by_many(
        w, stream, snbase, sequence, timestamp, ssrc, store, records, out,
    )
}

// Offers a media datagram; the count is of packets rebuilt.
#[unsafe(no_mangle)]
pub extern "C" fn cgv_media(
    w: Window,
    datagram: &[u8],
    media: &mut [u8],
    timestamps: &mut [u32],
    lengths: &mut [u16],
    marks: &mut [u8],
    parity: &mut [u8],
    records: &mut [Record],
) -> Reply
    ensures { record { reply = result; store = stored media.new timestamps.new lengths.new marks.new parity.new records.new }
        ≡ replied (offered_media w datagram.now (stored media.old timestamps.old lengths.old marks.old parity.old records.old)) }
{
    let mut few = [Row::default(); face::FEW + 1];
    if let Some(m) = face::gather(records, w.k, &mut few) {
        return media_over(
            w, datagram, media, timestamps, lengths, marks, parity, records, &mut few, m,
        );
    }
    let mut many = [Row::default(); 129];
    let m = gather_all(records, w.k, &mut many);
    media_over(
        w, datagram, media, timestamps, lengths, marks, parity, records, &mut many, m,
    )
}

// Offers a column parity datagram; the count is of packets rebuilt.
#[unsafe(no_mangle)]
pub extern "C" fn cgv_column(
    w: Window,
    datagram: &[u8],
    media: &mut [u8],
    timestamps: &mut [u32],
    lengths: &mut [u16],
    marks: &mut [u8],
    parity: &mut [u8],
    records: &mut [Record],
) -> Reply
    ensures { record { reply = result; store = stored media.new timestamps.new lengths.new marks.new parity.new records.new }
        ≡ replied (offered_parity column w datagram.now (stored media.old timestamps.old lengths.old marks.old parity.old records.old)) }
{
    offer_parity(
        w,
        rtp::COLUMN,
        datagram,
        media,
        timestamps,
        lengths,
        marks,
        parity,
        records,
    )
}

// Offers a row parity datagram; the count is of packets rebuilt.
#[unsafe(no_mangle)]
pub extern "C" fn cgv_row(
    w: Window,
    datagram: &[u8],
    media: &mut [u8],
    timestamps: &mut [u32],
    lengths: &mut [u16],
    marks: &mut [u8],
    parity: &mut [u8],
    records: &mut [Record],
) -> Reply
    ensures { record { reply = result; store = stored media.new timestamps.new lengths.new marks.new parity.new records.new }
        ≡ replied (offered_parity row w datagram.now (stored media.old timestamps.old lengths.old marks.old parity.old records.old)) }
{
    offer_parity(
        w,
        rtp::ROW,
        datagram,
        media,
        timestamps,
        lengths,
        marks,
        parity,
        records,
    )
}

// Moves the window on by a number of positions: the packets that leave are written to `out`, a slot of 12 + P bytes each, and their
// lengths to `sizes`; the count is of packets written.
#[unsafe(no_mangle)]
pub extern "C" fn cgv_move(
    w: Window,
    by: usize,
    media: &mut [u8],
    timestamps: &mut [u32],
    lengths: &mut [u16],
    marks: &mut [u8],
    parity: &mut [u8],
    records: &mut [Record],
    out: &mut [u8],
    sizes: &mut [u16],
) -> Reply
    ensures { record { reply = result; store = stored media.new timestamps.new lengths.new marks.new parity.new records.new; out = out.new; sizes = sizes.new }
        ≡ carried (moved w by (stored media.old timestamps.old lengths.old marks.old parity.old records.old) out.old sizes.old) }
{
    let len = records.len();
    let mut many = [Row::default(); 129];
    let m = gather_all(records, w.k, &mut many);
    let done = face::advance(
        w, by, media, timestamps, lengths, marks, parity, &mut many, m, len, out, sizes,
    );
    table::scatter_back(records, &many[..done.rows]);
    done.reply
}

// Reads a packet out as a datagram; the count is of bytes written.
#[unsafe(no_mangle)]
pub extern "C" fn cgv_read(
    w: Window,
    number: u16,
    media: &[u8],
    timestamps: &[u32],
    lengths: &[u16],
    marks: &[u8],
    parity: &[u8],
    records: &[Record],
    out: &mut [u8],
) -> Reply
    ensures { record { reply = result; out = out.new }
        ≡ filled (read_out w number (stored media.now timestamps.now lengths.now marks.now parity.now records.now) out.old) }
{
    let len = records.len();
    let store = StoreView {
        media,
        timestamps,
        lengths,
        marks,
        parity,
    };
    let mut few = [Row::default(); face::FEW + 1];
    if let Some(m) = face::gather(records, w.k, &mut few) {
        return face::read(w, number, store, &mut few, m, len, out);
    }
    let mut many = [Row::default(); 129];
    let m = gather_all(records, w.k, &mut many);
    face::read(w, number, store, &mut many, m, len, out)
}

// Writes the parity datagram of a column; the count is of bytes written.
#[unsafe(no_mangle)]
pub extern "C" fn cgv_write_column(
    w: Window,
    snbase: u16,
    sequence: u16,
    timestamp: u32,
    ssrc: u32,
    media: &[u8],
    timestamps: &[u32],
    lengths: &[u16],
    marks: &[u8],
    parity: &[u8],
    records: &[Record],
    out: &mut [u8],
) -> Reply
    ensures { record { reply = result; out = out.new }
        ≡ filled (wrote_parity column w snbase (record { sequence = sequence; timestamp = timestamp; ssrc = ssrc }) (stored media.now timestamps.now lengths.now marks.now parity.now records.now) out.old) }
{
    let store = StoreView {
        media,
        timestamps,
        lengths,
        marks,
        parity,
    };
    write_parity(
        w,
        rtp::COLUMN,
        snbase,
        sequence,
        timestamp,
        ssrc,
        store,
        records,
        out,
    )
}

// Writes the parity datagram of a row; the count is of bytes written.
#[unsafe(no_mangle)]
pub extern "C" fn cgv_write_row(
    w: Window,
    snbase: u16,
    sequence: u16,
    timestamp: u32,
    ssrc: u32,
    media: &[u8],
    timestamps: &[u32],
    lengths: &[u16],
    marks: &[u8],
    parity: &[u8],
    records: &[Record],
    out: &mut [u8],
) -> Reply
    ensures { record { reply = result; out = out.new }
        ≡ filled (wrote_parity row w snbase (record { sequence = sequence; timestamp = timestamp; ssrc = ssrc }) (stored media.now timestamps.now lengths.now marks.now parity.now records.now) out.old) }
{
    let store = StoreView {
        media,
        timestamps,
        lengths,
        marks,
        parity,
    };
    write_parity(
        w,
        rtp::ROW,
        snbase,
        sequence,
        timestamp,
        ssrc,
        store,
        records,
        out,
    )
}

// ---- capture files

// Reads on: a piece more of a capture file, of any length and cut anywhere. A reading starts with a reader of zeros.
#[unsafe(no_mangle)]
pub extern "C" fn cgv_capture_read(r: Reader, piece: &[u8]) -> Reading
    ensures { result ≡ read_on r piece.now }
{
    load::read(r, piece)
}

// The header of a capture file, of the front of it.
#[unsafe(no_mangle)]
pub extern "C" fn cgv_capture_header(front: &[u8]) -> Header
    ensures { result ≡ header_read front.now }
{
    load::header_of(front)
}

// Entry i of a capture file, of the front of it.
#[unsafe(no_mangle)]
pub extern "C" fn cgv_capture_entry(front: &[u8], i: usize) -> Line
    ensures { result ≡ entry_read front.now i }
{
    load::entry_of(front, i)
}

// Writes a capture file of what a card lends; the count is of bytes written.
#[unsafe(no_mangle)]
pub extern "C" fn cgv_capture_write(
    base: u16,
    l: usize,
    d: usize,
    p: usize,
    n: usize,
    k: usize,
    ports: &[u8],
    lengths: &[u16],
    bodies: &[u8],
    out: &mut [u8],
) -> Written
    ensures { record { written = result; out = out.new } ≡ wrote (record { base = base; l = l; d = d; p = p; n = n; k = k; ports = ports.now; lengths = lengths.now; bodies = bodies.now }) out.old }
{
    save::write(base, l, d, p, n, k, ports, lengths, bodies, out)
}

// ---- a sender

// Opens a sender in lent room, all of which that it needs is set to zero. The arrangement is 0 aligned, any other number staggered.
#[unsafe(no_mangle)]
pub extern "C" fn cgv_sender_open(
    first: u16,
    arrangement: u8,
    l: usize,
    d: usize,
    p: usize,
    payloads: &mut [u8],
    timestamps: &mut [u32],
    lengths: &mut [u16],
    longest: &mut [u16],
) -> Sent
    ensures { record { sent = result; room = lent payloads.new timestamps.new lengths.new longest.new }
        ≡ sending.opened (sending.fresh first arrangement l d p) (lent payloads.old timestamps.old lengths.old longest.old) }
{
    Sender::open(
        first,
        arrangement,
        l,
        d,
        p,
        payloads,
        timestamps,
        lengths,
        longest,
    )
}

// Offers a media datagram to a sender; the counts are of bytes written to the row and to the column output.
#[unsafe(no_mangle)]
pub extern "C" fn cgv_sender_media(
    s: Sender,
    datagram: &[u8],
    row: Outer,
    column: Outer,
    payloads: &mut [u8],
    timestamps: &mut [u32],
    lengths: &mut [u16],
    longest: &mut [u16],
    row_out: &mut [u8],
    column_out: &mut [u8],
) -> Sent
    ensures { record { sent = result; room = lent payloads.new timestamps.new lengths.new longest.new; row = row_out.new; column = column_out.new }
        ≡ sending.offered s datagram.now row column (lent payloads.old timestamps.old lengths.old longest.old) row_out.old column_out.old }
{
    s.media(
        datagram, row, column, payloads, timestamps, lengths, longest, row_out, column_out,
    )
}

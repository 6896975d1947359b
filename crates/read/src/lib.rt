#![tactic(auto)]

// Reading out: a packet that the window holds as a media datagram, and a group that it holds whole as a parity datagram.
// The records, which only refusal 5 looks at, are the rows of a hand; the lent table has `len` of them.
ghost use Rattle.std.specs.Prelude.{◌≡◌, List, ◌+◌, ◌≤◌, ltb, length};
ghost use Rattle.answer.specs.First.{first};
ghost use Rattle.answer.specs.Refused.{fault_of, written_as};
ghost use Rattle.window.specs.declared.Record.{Record};
ghost use Rattle.window.specs.Store.{viewed};
ghost use Rattle.window.specs.Bounds.{SetUp};
ghost use Rattle.calls.specs.Call.{read_out, wrote_parity};
ghost use Rattle.table.specs.View.{scatter};
ghost use Rattle.order.specs.Stands.{Taken, Stood};
ghost use Rattle.read.specs.Tests.{sizes_in, group_tests};

use answer::Refusal;
use table::Row;
use window::{Sizes, StoreView, Window};

// Refusals 1 to 5, in this order; the output has `room` bytes and needs headers and a payload.
fn check_standing(
    w: Window,
    room: usize,
    headers: usize,
    store: StoreView,
    rows: &mut [Row],
    len: usize,
) -> Result<(), Refusal>
    ensures { Stood w (sizes_in store.entry len) (ltb room (headers + w.p)) store.entry.lengths.now store.entry.marks.now rows.old rows.new (fault_of result) }
{
    let z = Sizes::of(
        store.media,
        store.timestamps,
        store.lengths,
        store.marks,
        store.parity,
        len,
    );
    let short = order::short_output(room, headers, w.p);
    order::check_standing(w, z, short, store.lengths, store.marks, rows)
}

// The media packet of a number, written to the front of `out`, with the window's SSRC; how many bytes that are.
pub fn read_out(
    w: Window,
    number: u16,
    store: StoreView,
    rows: &mut [Row],
    len: usize,
    out: &mut [u8],
) -> Result<usize, Refusal>
    ensures { (t : List Record) → length t ≡ len → Taken t w.k rows.old → record { answer = written_as result; window = w; out = out.new }
        ≡ read_out w number (viewed store.entry (scatter rows.old t)) out.old }
{
    let to = rtp::RTP_HEADER;
    check_standing(w, out.len(), to, store, rows, len)?;
    let i = sequence::position(w.base, number) as usize;
    if w.n <= i {
        return Err(Refusal::Outside);
    }
    if store.marks[i] == 0 {
        return Err(Refusal::Missing);
    }
    let at = i * w.p;
    let size = rtp::wide(store.lengths[i]);
    let payload = &store.media[at..at + size];
    out[to..to + size].copy_from_slice(payload);
    rtp::write_rtp(out, rtp::MEDIA_TYPE, number, store.timestamps[i], w.ssrc);
    Ok(to + size)
}

// Refusals 12, 13 and 17 of the group of a stream that starts at SNBase, in this order.
fn check_group(w: Window, stream: u8, snbase: u16, marks: &[u8]) -> Result<(), Refusal>
    requires { SetUp w × (w.n ≤ length marks.now) }
    ensures { fault_of result ≡ first (group_tests w stream snbase marks.now) }
{
    if rtp::no_row(stream, w.l) {
        return Err(Refusal::OtherProfile);
    }
    if !w.group_inside(stream, snbase) {
        return Err(Refusal::Outside);
    }
    if window::lacks(group::look(w, marks, stream, snbase)) {
        return Err(Refusal::Missing);
    }
    Ok(())
}

// The parity packet of a group that is present, written to the front of `out`, with the caller's RTP numbers; how many bytes that are.
pub fn write_parity(
    stream: u8,
    w: Window,
    snbase: u16,
    sequence: u16,
    timestamp: u32,
    ssrc: u32,
    store: StoreView,
    rows: &mut [Row],
    len: usize,
    out: &mut [u8],
) -> Result<usize, Refusal>
    requires { stream ≤ 1 }
    ensures { (t : List Record) → length t ≡ len → Taken t w.k rows.old → record { answer = written_as result; window = w; out = out.new }
        ≡ wrote_parity stream w snbase (record { sequence = sequence; timestamp = timestamp; ssrc = ssrc }) (viewed store.entry (scatter rows.old t)) out.old }
{
    let to = rtp::PARITY_HEADERS;
    check_standing(w, out.len(), to, store, rows, len)?;
    check_group(w, stream, snbase, store.marks)?;
    let r = group::sum_up(
        &mut out[to..],
        w,
        stream,
        snbase,
        store.media,
        store.timestamps,
        store.lengths,
        store.marks,
    );
    rtp::write_parity(
        out,
        stream,
        w.l,
        w.d,
        snbase,
        r.length,
        r.timestamp,
        sequence,
        timestamp,
        ssrc,
    );
    Ok(to + r.size)
}

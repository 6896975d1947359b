#![tactic(auto)]

// Moving the window on: the packets that leave are written out, parity with a member among them is released, and the other
// positions move down, a block at a time.
ghost use Rattle.std.specs.Prelude.{◌≡◌, true, cond, ◌||◌, List, ℕ, ◌+◌, ◌*◌, ◌-◌, ◌≤◌, ◌<◌, eqb, ltb, length, get_or, drop};
ghost use Rattle.std.proofs.Math.Seq.{paste};
ghost use Rattle.xor.specs.Xor.{padded};
ghost use Rattle.window.specs.declared.Record.{Record};
ghost use Rattle.window.specs.Bounds.{SetUp};
ghost use Rattle.window.specs.Order.{used};
ghost use Rattle.window.specs.Store.{stored};
ghost use Rattle.calls.specs.Call.{over};
ghost use Rattle.calls.specs.Move as call;
ghost use Rattle.table.specs.View.{slot_at, it_at};
ghost use Rattle.engine.specs.Rows.{free_if, free_below};
ghost use Rattle.moving.specs.Rows.{row_behind};
ghost use Rattle.moving.specs.Down.{down};
ghost use Rattle.answer.specs.Refused.{fault_of};
ghost use Rattle.moving.specs.Lies.{held_in, LiesIn};
ghost use Rattle.moving.specs.Move.{Judged, Advance};

use answer::Refusal;
use table::Row;
use window::{Sizes, StoreView, Window};

// ---- positions move down

// Elements that move by less than this go one by one.
const SMALL: usize = 16;

// The elements from m to n move to the front: one by one, which is what std's copy_within does, where m is small, else m at a time. The
// last ones are fewer, so the loop counts by how many there were.
fn slide<T: Copy>(part: &mut [T], m: usize, n: usize)
    requires { (m ≤ n) × (n ≤ length part.old) }
    ensures { part.new ≡ paste part.old 0 (drop m part.old) (n - m) }
{
    if m < SMALL {
        part.copy_within(m..n, 0);
        return;
    }
    let left = n - m;
    let mut at = 0;
    while at < left {
        let size = m.min(left - at);
        let (front, back) = part.split_at_mut(at + m);
        front[at..at + size].copy_from_slice(&back[..size]);
        at += size;
    }
}

// The first n elements move down by m, with `zero` behind them.
fn down<T: Copy>(part: &mut [T], zero: T, m: usize, n: usize)
    requires { (m ≤ n) × (n ≤ length part.old) × T.is_infallible zero × ((y : T) → T.is_clone zero y → y ≡ zero) }
    ensures { part.new ≡ down zero m n part.old }
{
    slide(part, m, n);
    let left = n - m;
    part[left..n].fill(zero);
}

// Bytes that are moved at once.
pub const BLOCK: usize = 4096;

// The bytes from m to n move to the front, a block at a time through an array, of which the compiler makes one move of each block; m
// at a time where m is no smaller.
fn slide_bytes(part: &mut [u8], m: usize, n: usize)
    requires { (m ≤ n) × (n ≤ length part.old) }
    ensures { part.new ≡ paste part.old 0 (drop m part.old) (n - m) }
{
    if BLOCK <= m {
        slide(part, m, n);
        return;
    }
    let mut block = [0; BLOCK];
    let left = n - m;
    let mut at = 0;
    while at < left {
        let size = BLOCK.min(left - at);
        block[..size].copy_from_slice(&part[at + m..at + m + size]);
        part[at..at + size].copy_from_slice(&block[..size]);
        at += size;
    }
}

// The first n bytes move down by m, with zeros behind them.
fn down_bytes(part: &mut [u8], m: usize, n: usize)
    requires { (m ≤ n) × (n ≤ length part.old) }
    ensures { part.new ≡ down 0 m n part.old }
{
    slide_bytes(part, m, n);
    let left = n - m;
    part[left..n].fill(0);
}

// All positions move down, and new ones are missing, all zeros.
fn shift(
    w: Window,
    by: usize,
    media: &mut [u8],
    timestamps: &mut [u32],
    lengths: &mut [u16],
    marks: &mut [u8],
)
    requires { (by ≤ w.n) × (w.n * w.p ≤ length media.old) × (w.n ≤ length timestamps.old) × (w.n ≤ length lengths.old) × (w.n ≤ length marks.old) }
    ensures { (parity : List ℕ) (t : List Record) → stored media.new timestamps.new lengths.new marks.new parity t
        ≡ call.shifted w by (stored media.old timestamps.old lengths.old marks.old parity t) }
{
    let n = w.n;
    let p = w.p;
    down_bytes(media, by * p, n * p);
    down(timestamps, 0, by, n);
    down(lengths, 0, by, n);
    down_bytes(marks, by, n);
}

// ---- packets leave

// The packet of position i at the front of `out`, with zeros up to the end of its slot; the answer is how many bytes it has, 0 where
// it is lost.
fn leave(w: Window, i: usize, store: StoreView, out: &mut [u8]) -> usize
    requires { (i < w.n) × LiesIn w store × (call.slot_size w ≤ length out.old) }
    ensures { (out.new ≡ over (padded (call.slot_size w) (call.leaving w (held_in store.entry) i)) out.old)
        × (result ≡ length (call.leaving w (held_in store.entry) i)) × (result < 65536) }
{
    let to = rtp::RTP_HEADER;
    let slot = to + w.p;
    if store.marks[i] == 0 {
        out[..slot].fill(0);
        return 0;
    }
    let at = i * w.p;
    let size = rtp::wide(store.lengths[i]);
    let number = sequence::next(w.base, i as u16);
    xor::lay(&mut out[to..slot], &store.media[at..at + size]);
    rtp::write_rtp(out, rtp::MEDIA_TYPE, number, store.timestamps[i], w.ssrc);
    to + size
}

// 1 of a packet that has bytes.
fn one(size: usize) -> usize
    ensures { result ≡ cond (eqb size 0) 0 1 }
{
    if size == 0 { 0 } else { 1 }
}

// The packets of the first `by` positions, each in its slot of `out`, and their lengths; the answer is how many are not lost.
fn leave_all(w: Window, by: usize, store: StoreView, out: &mut [u8], sizes: &mut [u16]) -> usize
    requires { (by ≤ w.n) × LiesIn w store × (by * call.slot_size w ≤ length out.old) × (by ≤ length sizes.old) }
    ensures { (out.new ≡ over (call.leaving_slots w (held_in store.entry) by) out.old)
        × (sizes.new ≡ over (call.leaving_sizes w (held_in store.entry) by) sizes.old)
        × (result ≡ call.leaving_count (held_in store.entry) by) }
{
    let slot = rtp::RTP_HEADER + w.p;
    let mut count = 0;
    for i in 0..by {
        let at = i * slot;
        let size = leave(w, i, store, &mut out[at..]);
        sizes[i] = size as u16;
        count += one(size);
    }
    count
}

// ---- parity with a member behind the new base

// Row i is released if it is in use and its group begins behind position `by`: that is its first member, the others lie further on.
fn release_row(w: Window, by: usize, i: usize, parity: &mut [u8], rows: &mut [Row]) -> Window
    requires { (i < length rows.old) × (used (it_at rows.old i) ≡ true → slot_at rows.old i < w.k) × (w.k * w.p ≤ length parity.old) }
    ensures { record { window = result; parity = parity.new; rows = rows.new } ≡ free_if (row_behind w.base by) i (record { window = w; parity = parity.old; rows = rows.old }) }
{
    let v = rows[i].it;
    if v.in_use != 1 {
        return w;
    }
    let at = sequence::position(w.base, v.snbase) as usize;
    if by <= at {
        return w;
    }
    engine::free_row(w, i, parity, rows)
}

// Every such row is released.
fn release_behind(w: Window, by: usize, parity: &mut [u8], rows: &mut [Row]) -> Window
    requires { ((i : ℕ) → i < length rows.old → used (it_at rows.old i) ≡ true → slot_at rows.old i < w.k) × (w.k * w.p ≤ length parity.old) }
    ensures { record { window = result; parity = parity.new; rows = rows.new } ≡ free_below (row_behind w.base by) (length rows.old) (record { window = w; parity = parity.old; rows = rows.old }) }
{
    let mut v = w;
    for i in 0..rows.len() {
        v = release_row(v, by, i, parity, rows);
    }
    v
}

// ---- the call

// What a move gives back: how many packets were written, and the next window value.
#[derive(Clone, Copy)]
pub struct Moved {
    pub count: usize,
    pub window: Window,
}

// The window value with its base `by` positions on, and `left` packets fewer.
fn advanced(w: Window, by: usize, left: usize) -> Window
    requires { by < 65536 }
    ensures { result ≡ call.advanced by left w }
{
    let base = sequence::next(w.base, by as u16);
    let present = w.present.saturating_sub(left);
    Window { base, present, ..w }
}

// The outputs have fewer than `by` slots and lengths.
fn short_outputs(w: Window, by: usize, room: usize, count: usize) -> bool
    requires { SetUp w × (by ≤ w.n) }
    ensures { result ≡ (ltb room (by * call.slot_size w) || ltb count by) }
{
    (room < by * (rtp::RTP_HEADER + w.p)) | (count < by)
}

// The first refusal that applies: 1 to 3, 22, 4, 5. The outputs have `room` bytes and `count` lengths.
fn check_move(
    w: Window,
    by: usize,
    z: Sizes,
    room: usize,
    count: usize,
    lengths: &[u16],
    marks: &[u8],
    rows: &mut [Row],
) -> Result<(), Refusal>
    requires { (z.lengths ≡ length lengths.now) × (z.marks ≡ length marks.now) }
    ensures { Judged w by z room count lengths.now marks.now rows.old rows.new (fault_of result) }
{
    w.check_set_up()?;
    if (by < 1) | (w.n < by) {
        return Err(Refusal::BadMove);
    }
    let short = short_outputs(w, by, room, count);
    order::check_standing(w, z, short, lengths, marks, rows)
}

// The base advances by `by` positions: what leaves is written to `out` and `sizes`, or the move is refused. The table has len records.
pub fn advance(
    w: Window,
    by: usize,
    media: &mut [u8],
    timestamps: &mut [u32],
    lengths: &mut [u16],
    marks: &mut [u8],
    parity: &mut [u8],
    rows: &mut [Row],
    len: usize,
    out: &mut [u8],
    sizes: &mut [u16],
) -> Result<Moved, Refusal>
    ensures { Advance w by len (record { media = media.old; timestamps = timestamps.old; lengths = lengths.old; marks = marks.old; parity = parity.old; rows = rows.old }) out.old sizes.old result
        (record { media = media.new; timestamps = timestamps.new; lengths = lengths.new; marks = marks.new; parity = parity.new; rows = rows.new }) out.new sizes.new }
{
    let z = Sizes::of(media, timestamps, lengths, marks, parity, len);
    check_move(w, by, z, out.len(), sizes.len(), lengths, marks, rows)?;
    let store = StoreView {
        media,
        timestamps,
        lengths,
        marks,
        parity,
    };
    let count = leave_all(w, by, store, out, sizes);
    let released = release_behind(w, by, parity, rows);
    shift(w, by, media, timestamps, lengths, marks);
    let window = advanced(released, by, count);
    Ok(Moved { count, window })
}

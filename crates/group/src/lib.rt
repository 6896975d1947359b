#![tactic(auto)]

// A group of parity: its members, each by one more wrapping add of Offset; whether none, one or more of them are missing; what is
// held of them added up; and the one missing packet rebuilt from it.
ghost use Rattle.std.specs.Prelude.{◌≡◌, true, false, ◌&&◌, List, map, ℕ, MatchOption, ◌+◌, ◌*◌, ◌≤◌, ◌<◌, eqb, length, get_or, drop, take};
ghost use Rattle.std.proofs.Math.Seq.{paste};
ghost use Rattle.std.specs.Int.Bits.{bit_xor};
ghost use Rattle.sequence.specs.Lists.{all, any};
ghost use Rattle.sequence.specs.Wrap.{member};
ghost use Rattle.xor.specs.Xor.{xor_all, xor_payloads, padded};
ghost use Rattle.rtp.specs.Length.{whole_units};
ghost use Rattle.window.specs.declared.Record.{Record};
ghost use Rattle.window.specs.Store.{payload_in, stored};
ghost use Rattle.window.specs.Limits.{width, most_side};
ghost use Rattle.window.specs.Bounds.{SetUp};
ghost use Rattle.window.specs.declared.Look.TheVariants.{One};
ghost use Rattle.window.specs.Group.{group, is_missing, present};
ghost use Rattle.window.specs.Look.{look};
ghost use Rattle.window.specs.Plain.{Inside};
ghost use Rattle.calls.specs.Content.{longest, number_over, payload_over, same_recovery, recovery_over};
ghost use Rattle.group.specs.Along.{member_at, along, Passed, Next};
ghost use Rattle.group.specs.Held.{Held};
ghost use Rattle.group.specs.Tried.{Tried};

use window::{Look, Window};

// ---- the members that are missing

// Member j of the group that starts at SNBase.
fn member_at(snbase: u16, offset: u16, j: usize) -> u16
    requires { (offset ≤ most_side) × (j ≤ most_side) }
    ensures { result ≡ member width snbase offset j }
{
    sequence::next(snbase, j as u16 * offset)
}

// Visits the members from index `from` on, one after another, up to the first that is missing: its index.
fn next_missing(
    marks: &[u8],
    base: u16,
    snbase: u16,
    offset: u16,
    from: usize,
    na: usize,
) -> Option<usize>
    requires { (from ≤ na) × (na ≤ most_side) × (offset ≤ most_side) × ((j : ℕ) → j < na → member_at base snbase offset j < length marks.now) }
    ensures { MatchOption result (Passed marks.now base snbase offset na from na) (λ j. (j < na) × Next marks.now base snbase offset na from j) }
{
    let mut number = member_at(snbase, offset, from);
    for j in from..na {
        let i = sequence::position(base, number) as usize;
        if marks[i] == 0 {
            return Some(j);
        }
        number = sequence::next(number, offset);
    }
    None
}

// Looks at na members from SNBase on, in their order; the second that is missing ends it.
fn look_along(marks: &[u8], base: u16, snbase: u16, offset: u16, na: usize) -> Look
    requires { (na ≤ most_side) × (offset ≤ most_side) × ((j : ℕ) → j < na → member_at base snbase offset j < length marks.now) }
    ensures { result ≡ look marks.now (along base snbase offset na) }
{
    let Some(first) = next_missing(marks, base, snbase, offset, 0, na) else {
        return Look::None(na);
    };
    let Some(second) = next_missing(marks, base, snbase, offset, first + 1, na) else {
        let number = member_at(snbase, offset, first);
        return Look::One(sequence::position(base, number) as usize, na);
    };
    Look::More(second + 1)
}

// Whether none, one or more of a group that lies in the window are missing; the look ends at the second.
pub fn look(w: Window, marks: &[u8], stream: u8, snbase: u16) -> Look
    requires { SetUp w × Inside w stream snbase × (w.n ≤ length marks.now) }
    ensures { (result ≡ look marks.now (group w stream snbase)) × ((i v : ℕ) → result ≡ One i v → i < w.n) }
{
    let offset = rtp::offset_of(stream, w.l) as u16;
    let na = rtp::na_of(stream, w.l, w.d);
    look_along(marks, w.base, snbase, offset, na)
}

// ---- the members that are held

// Positions of a group: the first n of rows. The array is as long as a group can be, since there is no heap for a list.
#[derive(Clone, Copy)]
pub struct Members {
    pub rows: [usize; 20],
    pub n: usize,
}

// Those of na members from SNBase on that are held, in order.
fn held_along(marks: &[u8], base: u16, snbase: u16, offset: u16, na: usize) -> Members
    requires { (na ≤ most_side) × ((j : ℕ) → j < na → member_at base snbase offset j < length marks.now) }
    ensures { (result.n ≤ na) × (length result.rows ≡ most_side) × (take result.n result.rows ≡ present marks.now (along base snbase offset na)) }
{
    let mut rows = [0usize; 20];
    let mut n = 0;
    let mut number = snbase;
    for _ in 0..na {
        let i = sequence::position(base, number) as usize;
        if marks[i] != 0 {
            rows[n] = i;
            n += 1;
        }
        number = sequence::next(number, offset);
    }
    Members { rows, n }
}

// The members held of a group, as rows of the store.
fn members_held(w: Window, stream: u8, snbase: u16, marks: &[u8]) -> Members
    requires { SetUp w × Inside w stream snbase × (w.n ≤ length marks.now) }
    ensures { Held (group w stream snbase) marks.now w.n result.rows result.n }
{
    let offset = rtp::offset_of(stream, w.l) as u16;
    let na = rtp::na_of(stream, w.l, w.d);
    held_along(marks, w.base, snbase, offset, na)
}

// The timestamp and the length of an exclusive-or.
#[derive(Clone, Copy)]
pub struct Sums {
    pub timestamp: u32,
    pub length: u16,
}

// The payloads held of a group xored into sum; the timestamps and the lengths held xored each with a number.
fn add_up(
    sum: &mut [u8],
    w: Window,
    stream: u8,
    snbase: u16,
    with: Sums,
    media: &[u8],
    timestamps: &[u32],
    lengths: &[u16],
    marks: &[u8],
) -> Sums
    requires { SetUp w × Inside w stream snbase × (length sum.old ≡ w.p) × (w.n * w.p ≤ length media.now) × (w.n ≤ length timestamps.now) × (w.n ≤ length lengths.now) × (w.n ≤ length marks.now) }
    ensures { (result.timestamp ≡ number_over timestamps.now marks.now (group w stream snbase) with.timestamp)
        × (result.length ≡ number_over lengths.now marks.now (group w stream snbase) with.length)
        × (sum.new ≡ payload_over w.p media.now lengths.now marks.now (group w stream snbase) sum.old) }
{
    let m = members_held(w, stream, snbase, marks);
    let rows = &m.rows[..m.n];
    parity::add_rows(sum, media, lengths, rows);
    Sums {
        timestamp: parity::xor_timestamps(timestamps, rows, with.timestamp),
        length: parity::xor_lengths(lengths, rows, with.length),
    }
}

// ---- the parity of a group

// What the lengths of some rows come to: their exclusive-or, the longest of them, and whether each is p.
#[derive(Clone, Copy)]
pub struct Measured {
    pub all: u16,
    pub most: u16,
    pub full: bool,
}

// The lengths of the rows, looked at once.
fn measure(lengths: &[u16], rows: &[usize], p: usize) -> Measured
    requires { (i : ℕ) → i < length rows.now → get_or rows.now i 0 < length lengths.now }
    ensures { (result.all ≡ bit_xor 0 (xor_all (map (λ i. get_or lengths.now i 0) rows.now)))
        × (result.most ≡ longest (map (λ i. get_or lengths.now i 0) rows.now))
        × (result.full ≡ true → (i : ℕ) → i < length rows.now → get_or lengths.now (get_or rows.now i 0) 0 ≡ p) }
{
    let mut all: u16 = 0;
    let mut most: u16 = 0;
    let mut full = true;
    for &row in rows {
        let one = lengths[row];
        all ^= one;
        most = most.max(one);
        full &= rtp::wide(one) == p;
    }
    Measured { all, most, full }
}

// The timestamp and the length of an exclusive-or, and how long its payload is.
#[derive(Clone, Copy)]
pub struct Laid {
    pub timestamp: u32,
    pub length: u16,
    pub size: usize,
}

// The payloads held of a group laid over the front of sum, as long as the longest of them; the timestamps and the lengths held.
pub fn sum_up(
    sum: &mut [u8],
    w: Window,
    stream: u8,
    snbase: u16,
    media: &[u8],
    timestamps: &[u32],
    lengths: &[u16],
    marks: &[u8],
) -> Laid
    requires { SetUp w × Inside w stream snbase × (w.p ≤ length sum.old) × (w.n * w.p ≤ length media.now) × (w.n ≤ length timestamps.now) × (w.n ≤ length lengths.now) × (w.n ≤ length marks.now)
        × ((i : ℕ) → i < w.n → is_missing marks.now i ≡ false → get_or lengths.now i 0 ≤ w.p) }
    ensures { (result.timestamp ≡ number_over timestamps.now marks.now (group w stream snbase) 0)
        × (result.length ≡ number_over lengths.now marks.now (group w stream snbase) 0)
        × (result.size ≡ longest (map (λ i. get_or lengths.now i 0) (present marks.now (group w stream snbase)))) × (result.size ≤ w.p)
        × (sum.new ≡ paste sum.old 0 (xor_payloads w.p (map (λ i. payload_in w.p media.now (get_or lengths.now i 0) i) (present marks.now (group w stream snbase)))) result.size) }
{
    let m = members_held(w, stream, snbase, marks);
    let rows = &m.rows[..m.n];
    let r = measure(lengths, rows, w.p);
    let size = rtp::wide(r.most);
    let full = r.full & (size == w.p);
    parity::lay_rows(&mut sum[..size], media, lengths, rows, w.p, full);
    Laid {
        timestamp: parity::xor_timestamps(timestamps, rows, 0),
        length: r.all,
        size,
    }
}

// What a parity packet says of its group: the exclusive-or of the timestamps, of the lengths, and of the payloads.
#[derive(Clone, Copy)]
pub struct Recovery<'a> {
    pub timestamp: u32,
    pub length: u16,
    pub payload: &'a [u8],
}

// Whether a recovery is the one that a group defines, all of which is present.
pub fn defines(
    w: Window,
    stream: u8,
    snbase: u16,
    recovery: Recovery,
    media: &[u8],
    timestamps: &[u32],
    lengths: &[u16],
    marks: &[u8],
) -> bool
    requires { SetUp w × Inside w stream snbase × (any (is_missing marks.now) (group w stream snbase) ≡ false) × (length recovery.payload.now ≤ w.p)
        × (w.n * w.p ≤ length media.now) × (w.n ≤ length timestamps.now) × (w.n ≤ length lengths.now) × (w.n ≤ length marks.now) × ((i : ℕ) → i < w.n → is_missing marks.now i ≡ false → get_or lengths.now i 0 ≤ w.p) }
    ensures { (parity : List ℕ) (t : List Record) → result ≡ same_recovery (recovery_over w (stored media.now timestamps.now lengths.now marks.now parity t) (group w stream snbase))
        (record { content = record { timestamp = recovery.entry.timestamp; length = recovery.entry.length; payload = padded w.p recovery.entry.payload.now }; size = length recovery.entry.payload.now }) }
{
    let mut sum = [0u8; 1428];
    let r = sum_up(
        &mut sum, w, stream, snbase, media, timestamps, lengths, marks,
    );
    if r.size != recovery.payload.len() {
        return false;
    }
    if (r.timestamp != recovery.timestamp) | (r.length != recovery.length) {
        return false;
    }
    xor::same(&sum[..r.size], recovery.payload)
}

// ---- the one missing packet

// What a parity packet of `size` payload bytes gives fits it: its length is one or more whole units, no more than that, and only
// zeros stand past it.
fn fits_in(sum: &[u8], size: usize, n: usize) -> bool
    requires { size ≤ length sum.now }
    ensures { result ≡ (whole_units (length sum.now) size n && all (λ b. eqb b 0) (drop n sum.now)) }
{
    if !rtp::whole_units(sum.len(), size, n) {
        return false;
    }
    xor::all_zero(&sum[n..])
}

// The one missing packet of a group, at position i, rebuilt from a recovery; or nothing, where the recovery is spoilt.
pub fn rebuild_at(
    w: Window,
    stream: u8,
    snbase: u16,
    i: usize,
    recovery: Recovery,
    media: &mut [u8],
    timestamps: &mut [u32],
    lengths: &mut [u16],
    marks: &mut [u8],
) -> bool
    requires { SetUp w × Inside w stream snbase × (i < w.n) × (length recovery.payload.now ≤ w.p) × (w.n * w.p ≤ length media.old) × (w.n ≤ length timestamps.old) × (w.n ≤ length lengths.old) × (w.n ≤ length marks.old) }
    ensures { Tried w (group w stream snbase) i (record { content = record { timestamp = recovery.entry.timestamp; length = recovery.entry.length; payload = padded w.p recovery.entry.payload.now }; size = length recovery.entry.payload.now }) result
        media.old timestamps.old lengths.old marks.old media.new timestamps.new lengths.new marks.new }
{
    let mut room = [0u8; 1428];
    let sum = &mut room[..w.p];
    xor::lay(sum, recovery.payload);
    let with = Sums {
        timestamp: recovery.timestamp,
        length: recovery.length,
    };
    let r = add_up(
        sum, w, stream, snbase, with, media, timestamps, lengths, marks,
    );
    let n = rtp::wide(r.length);
    if !fits_in(sum, recovery.payload.len(), n) {
        return false;
    }
    let at = i * w.p;
    media[at..at + w.p].copy_from_slice(sum);
    timestamps[i] = r.timestamp;
    lengths[i] = r.length;
    marks[i] = 1;
    true
}

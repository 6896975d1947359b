#![tactic(auto)]

// Whether a window value and the store that it is lent are in order: refusals 1 to 5, which every call but opening meets first.
// The records are looked at once, in the rows of a hand; whether none, one or more of each row's group are missing is noted there.
ghost use Rattle.std.specs.Prelude.{◌≡◌, true, false, cond, ◌+◌, ◌<◌, ◌≤◌, ltb, length};
ghost use Rattle.answer.specs.Refused.{fault_of};
ghost use Rattle.sequence.specs.Lists.{up_to, any, all, count};
ghost use Rattle.window.specs.Bounds.{SetUp};
ghost use Rattle.window.specs.Order.{used};
ghost use Rattle.table.specs.View.{slot_at, it_at};
ghost use Rattle.table.specs.Apart.{Alike};
ghost use Rattle.table.specs.Sound.{Sound, SoundRow};
ghost use Rattle.order.specs.Rows.{names, row_good, seen_at, Ordered};
ghost use Rattle.order.specs.Stands.{Stood};

use answer::Refusal;
use table::Row;
use window::{Record, Sizes, Window};

// ---- refusal 5

// A row before row i is in use and names the group of a record; `fresh` says that none does.
fn repeats(rows: &[Row], i: usize, v: Record, fresh: bool) -> bool
    requires { (i ≤ length rows.now) × (fresh ≡ true → any (names rows.now v) (up_to i) ≡ false) }
    ensures { result ≡ any (names rows.now v) (up_to i) }
{
    if fresh {
        return false;
    }
    let mut found = false;
    for j in 0..i {
        let u = rows[j].it;
        found |= (u.in_use == 1) & ((u.stream == v.stream) & (u.snbase == v.snbase));
    }
    found
}

// What the test of order finds at a row: whether it is free or good, 1 if it is in use, and the note of a look at its group.
#[derive(Clone, Copy)]
pub struct Looked {
    pub good: bool,
    pub used: usize,
    pub note: u16,
}

// A row in use that is not good.
fn bad(used: usize) -> Looked
    ensures { result ≡ record { good = false; used = used; note = 0 } }
{
    Looked {
        good: false,
        used,
        note: 0,
    }
}

// Looks at row i. `fresh` says that no row before it names its group.
fn look_at(w: Window, marks: &[u8], rows: &[Row], i: usize, fresh: bool) -> Looked
    requires { SetUp w × (w.n ≤ length marks.now) × (i < length rows.now) × (fresh ≡ true → any (names rows.now (it_at rows.now i)) (up_to i) ≡ false) }
    ensures { (result.good ≡ row_good w marks.now rows.now i) × (result.used ≡ cond (used (it_at rows.now i)) 1 0)
        × (result.good ≡ true → used (it_at rows.now i) ≡ true → SoundRow w marks.now (record { slot = slot_at rows.now i; note = result.note; it = it_at rows.now i })) }
{
    let v = rows[i].it;
    if v.in_use == 0 {
        return Looked {
            good: true,
            used: 0,
            note: 0,
        };
    }
    if v.in_use != 1 {
        return bad(0);
    }
    if w.k <= rows[i].slot as usize {
        return bad(1);
    }
    if !w.shape_good(v.stream, v.snbase) {
        return bad(1);
    }
    if !rtp::good_length(w.p, rtp::wide(v.payload_length)) {
        return bad(1);
    }
    if repeats(rows, i, v, fresh) {
        return bad(1);
    }
    let found = group::look(w, marks, v.stream, v.snbase);
    Looked {
        good: window::waits(found),
        used: 1,
        note: table::note_of(found),
    }
}

// Whether every row is free or good, and how many are in use: both hold where one is not good.
#[derive(Clone, Copy)]
pub struct Found {
    pub good: bool,
    pub used: usize,
}

// The place of row i in the map of SNBases that were seen. There are more places than a window has positions, so in one
// window two SNBases share a place only where they are the same, and rows are compared with each other only then.
fn seen_at(rows: &[Row], i: usize) -> usize
    requires { i < length rows.now }
    ensures { (result ≡ seen_at rows.now i) × (result < 512) }
{
    let v = rows[i].it;
    (v.snbase % 512) as usize
}

// Looks at every row, and notes what it finds.
fn rows_good(w: Window, marks: &[u8], rows: &mut [Row]) -> Found
    requires { SetUp w × (w.n ≤ length marks.now) }
    ensures { (result.good ≡ all (row_good w marks.now rows.old) (up_to (length rows.old))) × (result.used ≡ count (λ i. used (it_at rows.old i)) (up_to (length rows.old)))
        × Alike rows.new rows.old × (result.good ≡ true → Sound w marks.now rows.new) }
{
    if rows.is_empty() {
        return Found {
            good: true,
            used: 0,
        };
    }
    let mut seen = [0u8; 512];
    let mut good = true;
    let mut used = 0;
    for i in 0..rows.len() {
        let at = seen_at(rows, i);
        let r = look_at(w, marks, rows, i, seen[at] == 0);
        seen[at] = 1;
        rows[i].note = r.note;
        good &= r.good;
        used += r.used;
    }
    Found { good, used }
}

// The store is in order: marks, lengths, records and counts.
fn in_order(w: Window, lengths: &[u16], marks: &[u8], rows: &mut [Row]) -> bool
    requires { SetUp w × (w.n ≤ length lengths.now) × (w.n ≤ length marks.now) }
    ensures { Ordered w lengths.now marks.now rows.old rows.new result }
{
    let found = rows_good(w, marks, rows);
    let counted = w.count_present(marks);
    (counted.good & w.lengths_good(lengths, marks) & found.good)
        & ((w.present == counted.ones) & (w.in_use == found.used))
}

// ---- refusals 1 to 5

// An output of `room` bytes is shorter than headers and payload.
pub fn short_output(room: usize, headers: usize, p: usize) -> bool
    ensures { result ≡ ltb room (headers + p) }
{
    if room < headers {
        return true;
    }
    room - headers < p
}

// Refusals 1 to 5, in this order; `short` says whether the output is too short.
pub fn check_standing(
    w: Window,
    z: Sizes,
    short: bool,
    lengths: &[u16],
    marks: &[u8],
    rows: &mut [Row],
) -> Result<(), Refusal>
    requires { (z.lengths ≡ length lengths.now) × (z.marks ≡ length marks.now) }
    ensures { Stood w z short lengths.now marks.now rows.old rows.new (fault_of result) }
{
    w.check_set_up()?;
    if w.short_store(z) | short {
        return Err(Refusal::TooShort);
    }
    if !in_order(w, lengths, marks, rows) {
        return Err(Refusal::Disorder);
    }
    Ok(())
}

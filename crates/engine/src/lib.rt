#![tactic(auto)]

// Settling: parity in hand rebuilds until none of it has exactly one packet missing. Whether none, one or more of its group are
// missing is noted in each row, so a round looks at the rows alone, and again at the groups that have the rebuilt packet.
ghost use Rattle.std.specs.Prelude.{◌≡◌, true, cond, ℕ, ◌+◌, ◌*◌, ◌-◌, ◌≤◌, ◌<◌, eqb, length, IfSome};
ghost use Rattle.sequence.specs.Lists.{count};
ghost use Rattle.sequence.specs.Line.{line};
ghost use Rattle.sequence.specs.Wrap.{ahead};
ghost use Rattle.window.specs.Limits.{width, most_side, most_counted};
ghost use Rattle.window.specs.Bounds.{SetUp};
ghost use Rattle.window.specs.Group.{group};
ghost use Rattle.window.specs.Order.{used};
ghost use Rattle.window.specs.Plain.{Inside};
ghost use Rattle.calls.specs.State.{recount};
ghost use Rattle.table.specs.View.{slot_at, note_at, it_at};
ghost use Rattle.table.specs.Note.{one_at};
ghost use Rattle.engine.specs.Rows.{InsideRows, AgainAt, AgainAll, row_ready, next_row, row_of, pick, row_spent, free_row, free_if, free_below};
ghost use Rattle.engine.specs.Round.{Serves, Rounded, Settled};

use group::Recovery;
use table::Row;
use window::Window;

// ---- one packet more: the rows that waited for it

// Position i is `at` or one of the na - 1 places that follow it in steps of `offset`; most are ruled out before the division.
fn on_line(at: usize, offset: usize, na: usize, i: usize) -> bool
    requires { (1 ≤ offset) × (offset ≤ most_side) × (na ≤ most_side) × (at < 65536) }
    ensures { count (eqb i) (line at offset na) ≡ cond result 1 0 }
{
    if (i < at) | (at + na * offset <= i) {
        return false;
    }
    (i - at) % offset == 0
}

// Position i is a member of a group.
fn is_member(w: Window, stream: u8, snbase: u16, i: usize) -> bool
    requires { SetUp w }
    ensures { Inside w stream snbase → count (eqb i) (group w stream snbase) ≡ cond result 1 0 }
{
    let at = sequence::position(w.base, snbase) as usize;
    let offset = rtp::offset_of(stream, w.l);
    let na = rtp::na_of(stream, w.l, w.d);
    on_line(at, offset, na, i)
}

// Position i is no longer missing: row j, if it is in use and its group has it, is looked at again.
fn look_again_at(w: Window, i: usize, marks: &[u8], rows: &mut [Row], j: usize)
    requires { SetUp w × (w.n ≤ length marks.now) × (j < length rows.old) × InsideRows w rows.old }
    ensures { AgainAt w i marks.now j rows.old rows.new }
{
    let v = rows[j].it;
    if v.in_use != 1 {
        return;
    }
    if !is_member(w, v.stream, v.snbase, i) {
        return;
    }
    let found = group::look(w, marks, v.stream, v.snbase);
    rows[j].note = table::note_of(found);
}

// Position i is no longer missing: each row whose group has it is looked at again.
pub fn look_again(w: Window, i: usize, marks: &[u8], rows: &mut [Row])
    requires { SetUp w × (w.n ≤ length marks.now) × InsideRows w rows.old }
    ensures { AgainAll w i marks.now rows.old rows.new }
{
    for j in 0..rows.len() {
        look_again_at(w, i, marks, rows, j);
    }
}

// ---- which row is next

// A row in use with one packet missing.
fn row_ready(rows: &[Row], i: usize) -> bool
    requires { i < length rows.now }
    ensures { result ≡ row_ready rows.now i }
{
    (rows[i].it.in_use == 1) & (table::NOTE_ONE <= rows[i].note)
}

// The position of the one packet that is missing of the group of row i.
fn row_missing(rows: &[Row], i: usize) -> usize
    requires { (i < length rows.now) × (2 ≤ note_at rows.now i) }
    ensures { result ≡ one_at (note_at rows.now i) }
{
    (rows[i].note - table::NOTE_ONE) as usize
}

// The order of rebuilding: by the position of SNBase, a column before a row.
fn row_rank(base: u16, rows: &[Row], i: usize) -> usize
    requires { i < length rows.now }
    ensures { result ≡ ahead width base (it_at rows.now i).snbase * 2 + (it_at rows.now i).stream }
{
    let v = rows[i].it;
    sequence::position(base, v.snbase) as usize * 2 + v.stream as usize
}

// The best row so far.
#[derive(Clone, Copy)]
pub struct Best {
    pub at: usize,
    pub rank: usize,
}

// Row i where it is ready and ranks below the best so far.
fn better(best: Option<Best>, i: usize, rank: usize, ready: bool) -> Option<Best>
    ensures { result ≡ pick best i rank ready }
{
    match best {
        None if ready => Some(Best { at: i, rank }),
        Some(b) if ready & (rank < b.rank) => Some(Best { at: i, rank }),
        _ => best,
    }
}

// The row of the best so far.
fn place_of(best: Option<Best>) -> Option<usize>
    ensures { result ≡ row_of best }
{
    best.map(|b| b.at)
}

// The row that rebuilds next, if one is ready.
fn next_ready(w: Window, rows: &[Row]) -> Option<usize>
    ensures next { result ≡ next_row w.base rows.now (length rows.now) }
    ensures low { IfSome result (λ r. r < length rows.now) }
{
    let mut best = None;
    for i in 0..rows.len() {
        let ready = row_ready(rows, i);
        let rank = row_rank(w.base, rows, i);
        best = better(best, i, rank, ready);
    }
    place_of(best)
}

// ---- releasing what is spent

// The window value with other counts.
pub fn recounted(w: Window, present: usize, in_use: usize) -> Window
    ensures { result ≡ recount w present in_use }
{
    Window {
        present,
        in_use,
        ..w
    }
}

// The record of row i and its payload are set to zero.
pub fn free_row(w: Window, i: usize, parity: &mut [u8], rows: &mut [Row]) -> Window
    requires { (i < length rows.old) × (slot_at rows.old i < w.k) × (w.k * w.p ≤ length parity.old) }
    ensures { record { window = result; parity = parity.new; rows = rows.new } ≡ free_row i (record { window = w; parity = parity.old; rows = rows.old }) }
{
    let at = rows[i].slot as usize * w.p;
    parity[at..at + w.p].fill(0);
    rows[i].it = window::free_record();
    recounted(w, w.present, w.in_use.saturating_sub(1))
}

// Row i is released if it is in use and none of its group is missing.
fn release_row(w: Window, i: usize, parity: &mut [u8], rows: &mut [Row]) -> Window
    requires { (i < length rows.old) × (used (it_at rows.old i) ≡ true → slot_at rows.old i < w.k) × (w.k * w.p ≤ length parity.old) }
    ensures { record { window = result; parity = parity.new; rows = rows.new } ≡ free_if row_spent i (record { window = w; parity = parity.old; rows = rows.old }) }
{
    if rows[i].it.in_use != 1 {
        return w;
    }
    if rows[i].note != table::NOTE_NONE {
        return w;
    }
    free_row(w, i, parity, rows)
}

// Every spent row is released.
fn release_all(w: Window, parity: &mut [u8], rows: &mut [Row]) -> Window
    requires { ((i : ℕ) → i < length rows.old → used (it_at rows.old i) ≡ true → slot_at rows.old i < w.k) × (w.k * w.p ≤ length parity.old) }
    ensures { record { window = result; parity = parity.new; rows = rows.new } ≡ free_below row_spent (length rows.old) (record { window = w; parity = parity.old; rows = rows.old }) }
{
    let mut v = w;
    for i in 0..rows.len() {
        v = release_row(v, i, parity, rows);
    }
    v
}

// ---- rounds

// The window value after rounds, how many packets they rebuilt, and how many rows they found spoilt.
#[derive(Clone, Copy)]
pub struct Round {
    pub window: Window,
    pub rebuilt: usize,
    pub spoilt: usize,
}

// The next row rebuilds its missing packet, the rows that waited for it are looked at again, and what is spent is released; or it
// is spoilt, and is released itself.
fn one_round(
    w: Window,
    media: &mut [u8],
    timestamps: &mut [u32],
    lengths: &mut [u16],
    marks: &mut [u8],
    parity: &mut [u8],
    rows: &mut [Row],
) -> Round
    requires { Serves w (record { media = media.old; timestamps = timestamps.old; lengths = lengths.old; marks = marks.old; parity = parity.old; rows = rows.old }) × (w.present < most_counted) }
    ensures { Rounded w (record { media = media.old; timestamps = timestamps.old; lengths = lengths.old; marks = marks.old; parity = parity.old; rows = rows.old }) result
        (record { media = media.new; timestamps = timestamps.new; lengths = lengths.new; marks = marks.new; parity = parity.new; rows = rows.new }) }
{
    let Some(r) = next_ready(w, rows) else {
        return Round {
            window: w,
            rebuilt: 0,
            spoilt: 0,
        };
    };
    let v = rows[r].it;
    let at = rows[r].slot as usize * w.p;
    let size = rtp::wide(v.payload_length);
    let i = row_missing(rows, r);
    let recovery = Recovery {
        timestamp: v.timestamp_recovery,
        length: v.length_recovery,
        payload: &parity[at..at + size],
    };
    let good = group::rebuild_at(
        w, v.stream, v.snbase, i, recovery, media, timestamps, lengths, marks,
    );
    if !good {
        let window = free_row(w, r, parity, rows);
        return Round {
            window,
            rebuilt: 0,
            spoilt: 1,
        };
    }
    let more = recounted(w, w.present + 1, w.in_use);
    look_again(more, i, marks, rows);
    let window = release_all(more, parity, rows);
    Round {
        window,
        rebuilt: 1,
        spoilt: 0,
    }
}

// Rounds until no row is ready: each rebuilds a packet or releases a spoilt row, so there are no more than records in use.
pub fn settle(
    w: Window,
    media: &mut [u8],
    timestamps: &mut [u32],
    lengths: &mut [u16],
    marks: &mut [u8],
    parity: &mut [u8],
    rows: &mut [Row],
) -> Round
    requires { Serves w (record { media = media.old; timestamps = timestamps.old; lengths = lengths.old; marks = marks.old; parity = parity.old; rows = rows.old }) × (w.present + w.in_use ≤ most_counted) }
    ensures { Settled w (record { media = media.old; timestamps = timestamps.old; lengths = lengths.old; marks = marks.old; parity = parity.old; rows = rows.old }) result
        (record { media = media.new; timestamps = timestamps.new; lengths = lengths.new; marks = marks.new; parity = parity.new; rows = rows.new }) }
{
    let mut v = w;
    let mut rebuilt = 0;
    let mut spoilt = 0;
    for _round in 0..w.in_use {
        let r = one_round(v, media, timestamps, lengths, marks, parity, rows);
        v = r.window;
        if r.rebuilt + r.spoilt == 0 {
            break;
        }
        rebuilt += r.rebuilt;
        spoilt += r.spoilt;
    }
    Round {
        window: v,
        rebuilt,
        spoilt,
    }
}

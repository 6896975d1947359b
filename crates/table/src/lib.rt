#![tactic(auto)]

// The hand: the records in use, each with its slot in the table and a note of what the last look at its group found. It is gathered
// of the lent table and put back.
ghost use Rattle.std.specs.Prelude.{◌≡◌, true, false, not, List, [], ◌+◌, ◌%◌, ◌<◌, ◌≤◌, eqb, length, take, IfSome, IfNone};
ghost use Rattle.table.specs.View.{slot_at, scatter};
ghost use Rattle.table.specs.Note.{note_of};
ghost use Rattle.table.specs.Apart.{Within};
ghost use Rattle.table.specs.Hold.{FirstFree, Shifted, hold_in};
ghost use Rattle.table.specs.Gather.{gathered, wiped};

use window::{Look, Record};

// A record in hand: its slot in the table, the note of the last look at its group, and the record itself, in sixteen bytes: the
// whole hand of a call lies on the stack.
#[derive(Clone, Copy, Default)]
pub struct Row {
    pub slot: u16,
    pub note: u16,
    pub it: Record,
}

// The note of a look that finds none missing.
pub const NOTE_NONE: u16 = 0;

// The note of a look that finds more than one missing.
pub const NOTE_MORE: u16 = 1;

// The note of a look that finds one missing, at position 0; any other position is added.
pub const NOTE_ONE: u16 = 2;

// The note of a look.
pub fn note_of(a: Look) -> u16
    requires { note_of a < 65536 }
    ensures { result ≡ note_of a }
{
    match a {
        Look::None(_) => NOTE_NONE,
        Look::One(i, _) => i as u16 + NOTE_ONE,
        Look::More(_) => NOTE_MORE,
    }
}

// The first record of the table that is free, or the number of rows where each is in use and they are the first of the table.
pub fn first_free(rows: &[Row]) -> usize
    ensures { FirstFree (length rows.now) rows.now result }
{
    for i in 0..rows.len() {
        if (rows[i].slot as usize != i) | (rows[i].it.in_use != 1) {
            return i;
        }
    }
    rows.len()
}

// Rows r to m - 1 move on by one.
fn shift(rows: &mut [Row], r: usize, m: usize)
    requires { (r ≤ m) × (m < length rows.old) }
    ensures { Shifted r m rows.old rows.new }
{
    for i in (r..m).rev() {
        rows[i + 1] = rows[i];
    }
}

// Row r, one of the first m, has slot r.
fn has_row(rows: &[Row], m: usize, r: usize) -> bool
    requires { m ≤ length rows.now }
    ensures { (result ≡ true → (r < m) × (slot_at rows.now r ≡ r)) × (result ≡ false → r < m → slot_at rows.now r ≡ r → ⊥) }
{
    if m <= r {
        return false;
    }
    rows[r].slot as usize == r
}

// A record goes into the first free record of the table: into its row, or into a new one. The hand is the first m rows, and the answer how many it is then.
pub fn hold(rows: &mut [Row], m: usize, v: Record) -> usize
    requires { (m < length rows.old) × (m < 65536) }
    ensures { (take result rows.new ≡ hold_in 0 v (take m rows.old)) × (result ≤ m + 1) }
{
    let r = first_free(&rows[..m]);
    if has_row(rows, m, r) {
        rows[r].it = v;
        return m;
    }
    shift(rows, r, m);
    rows[r] = Row {
        slot: r as u16,
        note: 0,
        it: v,
    };
    m + 1
}

// A record is not free.
fn is_taken(v: Record) -> bool
    ensures { result ≡ not (eqb v.in_use 0) }
{
    v.in_use != 0
}

// One of four records is not free.
fn any_taken(a: Record, b: Record, c: Record, d: Record) -> bool
    ensures { result ≡ false → (a.in_use ≡ 0) × (b.in_use ≡ 0) × (c.in_use ≡ 0) × (d.in_use ≡ 0) }
{
    (a.in_use | b.in_use | c.in_use | d.in_use) != 0
}

// As much of k as is whole fours.
fn fours(k: usize) -> usize
    ensures { (result ≤ k) × (result % 4 ≡ 0) }
{
    k - k % 4
}

// How many records at the front of the table need no second look: the fours of free records that it begins with.
fn free_front(table: &[Record], k: usize) -> usize
    requires { k ≤ length table.now }
    ensures { (result ≤ k) × (gathered result table.now ≡ []) }
{
    let to = fours(k);
    let mut i = 0;
    while i < to {
        if any_taken(table[i], table[i + 1], table[i + 2], table[i + 3]) {
            return i;
        }
        i += 4;
    }
    to
}

// The records in use among the first k of the table become the first rows. The answer is how many they are, or none where there is
// not room for all.
pub fn gather(table: &[Record], k: usize, rows: &mut [Row]) -> Option<usize>
    requires { (k ≤ length table.now) × (k ≤ 65536) }
    ensures some { IfSome result (λ n. (n ≤ length rows.new) × (take n rows.new ≡ gathered k table.now)) }
    ensures none { IfNone result (length rows.new < length (gathered k table.now)) }
{
    let mut n = 0;
    for i in free_front(table, k)..k {
        if is_taken(table[i]) {
            if n == rows.len() {
                return None;
            }
            rows[n] = Row {
                slot: i as u16,
                note: NOTE_NONE,
                it: table[i],
            };
            n += 1;
        }
    }
    Some(n)
}

// The rows over the table, each at its slot.
pub fn scatter_back(table: &mut [Record], rows: &[Row])
    requires { Within (length table.old) rows.now }
    ensures { table.new ≡ scatter rows.now table.old }
{
    for i in (0..rows.len()).rev() {
        table[rows[i].slot as usize] = rows[i].it;
    }
}

// The first k records of the table are free.
pub fn wipe(table: &mut [Record], k: usize)
    requires { k ≤ length table.old }
    ensures { table.new ≡ wiped k table.old }
{
    table[..k].fill(Record::default());
}

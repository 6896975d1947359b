#![tactic(auto)]

// The window value: its set-up numbers, its limits, what the lent store needs, and whether that store is in order.
ghost use Rattle.std.specs.Prelude.{◌≡◌, true, cond, not, ◌&&◌, ◌||◌, ◌+◌, ◌*◌, ◌<◌, ◌≤◌, eqb, leb, ltb, length, get_or};
ghost use Rattle.answer.specs.First.{first};
ghost use Rattle.answer.specs.Refused.{fault_of};
ghost use Rattle.sequence.specs.Lists.{up_to, all, count};
ghost use Rattle.window.specs.Limits.{most_side, most_matrix, most_positions, most_records, least_missing, one_to_seven, set_up_tests};
ghost use Rattle.window.specs.Record.{blank};
ghost use Rattle.window.specs.Store.{short_sizes};
ghost use Rattle.window.specs.Bounds.{SetUp};
ghost use Rattle.window.specs.Group.{inside};
ghost use Rattle.window.specs.Look.{at_least};
ghost use Rattle.window.specs.Order.{is_mark, is_present, marks_good, lengths_good, shape_good};

use answer::Refusal;

// Most columns, and most rows, of a parity matrix.
pub const MOST_SIDE: usize = 20;

// Most packets of a parity matrix.
pub const MOST_MATRIX: usize = 100;

// Most positions of a window.
pub const MOST_POSITIONS: usize = 400;

// Most records for parity in hand.
pub const MOST_RECORDS: usize = 128;

// Least packets that a parity packet in hand waits for.
pub const LEAST_MISSING: usize = 2;

#[repr(C)]
#[derive(Clone, Copy, Default)]
pub struct Window {
    // sequence number of position 0
    pub base: u16,
    // SSRC to write when reading out
    pub ssrc: u32,
    // columns and rows of the parity matrix
    pub l: usize,
    pub d: usize,
    // most bytes of a payload
    pub p: usize,
    // positions
    pub n: usize,
    // records for parity in hand
    pub k: usize,
    // packets present and records in use
    pub present: usize,
    pub in_use: usize,
}

// Elements of each part of the lent store.
#[derive(Clone, Copy)]
pub struct Sizes {
    pub media: usize,
    pub timestamps: usize,
    pub lengths: usize,
    pub marks: usize,
    pub parity: usize,
    pub records: usize,
}

impl Sizes {
    // The sizes of the parts of a store whose table has so many records.
    pub fn of(
        media: &[u8],
        timestamps: &[u32],
        lengths: &[u16],
        marks: &[u8],
        parity: &[u8],
        records: usize,
    ) -> Sizes
        ensures { result ≡ record { media = length media.now; timestamps = length timestamps.now; lengths = length lengths.now; marks = length marks.now; parity = length parity.now; records = records } }
    {
        Sizes {
            media: media.len(),
            timestamps: timestamps.len(),
            lengths: lengths.len(),
            marks: marks.len(),
            parity: parity.len(),
            records,
        }
    }
}

// The parts of a lent store but for its records, to be read.
#[derive(Clone, Copy)]
pub struct StoreView<'a> {
    pub media: &'a [u8],
    pub timestamps: &'a [u32],
    pub lengths: &'a [u16],
    pub marks: &'a [u8],
    pub parity: &'a [u8],
}

// A parity packet in hand: its stream (0 a column, 1 a row), in-use mark, SNBase, timestamp and length recovery and the length
// of its own payload, in twelve bytes with no gap. Its payload stands at the same index of the parity bytes.
#[repr(C)]
#[derive(Clone, Copy, Default)]
pub struct Record {
    pub stream: u8,
    pub in_use: u8,
    pub snbase: u16,
    pub timestamp_recovery: u32,
    pub length_recovery: u16,
    pub payload_length: u16,
}

// A free record.
pub fn free_record() -> Record
    ensures { result ≡ blank }
{
    Record::default()
}

// What a look at the members of a group finds, in their order and up to the second that is missing; the last number is how
// many members it visited.
#[derive(Clone, Copy)]
pub enum Look {
    // none is missing
    None(usize),
    // one is missing: its position
    One(usize, usize),
    // more are missing
    More(usize),
}

// How many are missing at least.
fn at_least(a: Look) -> usize
    ensures { result ≡ at_least a }
{
    match a {
        Look::None(_) => 0,
        Look::One(_, _) => 1,
        Look::More(_) => 2,
    }
}

// As many are missing as a parity packet in hand has to wait for.
pub fn waits(a: Look) -> bool
    ensures { result ≡ leb least_missing (at_least a) }
{
    LEAST_MISSING <= at_least(a)
}

// One or more are missing.
pub fn lacks(a: Look) -> bool
    ensures { result ≡ ltb 0 (at_least a) }
{
    0 < at_least(a)
}

// ---- refusals 1 to 3: the set-up numbers

// 1: L, D or the matrix out of its limits.
pub fn bad_profile(l: usize, d: usize) -> bool
    ensures { result ≡ (ltb l 1 || ltb most_side l || ltb d 4 || ltb most_side d || ltb most_matrix (l * d)) }
{
    if (l < 1) | (MOST_SIDE < l) | (d < 4) | (MOST_SIDE < d) {
        return true;
    }
    MOST_MATRIX < l * d
}

// P is one to seven units.
fn one_to_seven(unit: usize, p: usize) -> bool
    requires { 0 < unit }
    ensures { result ≡ one_to_seven unit p }
{
    (p % unit == 0) & (1 <= p / unit) & (p / unit <= 7)
}

// 2: P not one to seven transport stream packets, of 188 or of 204 bytes.
pub fn bad_payload(p: usize) -> bool
    ensures { result ≡ not (one_to_seven 188 p || one_to_seven 204 p) }
{
    !(one_to_seven(188, p) | one_to_seven(204, p))
}

// 3: the matrix does not fit the window, or too many positions, or too few or too many records.
fn bad_room(l: usize, d: usize, n: usize, k: usize) -> bool
    requires { (l ≤ most_side) × (d ≤ most_side) }
    ensures { result ≡ (ltb n (l * d) || ltb most_positions n || ltb k 1 || ltb most_records k) }
{
    (n < l * d) | (MOST_POSITIONS < n) | (k < 1) | (MOST_RECORDS < k)
}

impl Window {
    // Refusals 1 to 3, in this order.
    pub fn check_set_up(self) -> Result<(), Refusal>
        ensures { fault_of result ≡ first (set_up_tests self) }
    {
        if bad_profile(self.l, self.d) {
            return Err(Refusal::BadMatrix);
        }
        if bad_payload(self.p) {
            return Err(Refusal::BadPayload);
        }
        if bad_room(self.l, self.d, self.n, self.k) {
            return Err(Refusal::BadRoom);
        }
        Ok(())
    }

    // 4: a part of the lent store has fewer elements than the window needs.
    pub fn short_store(self, z: Sizes) -> bool
        requires { SetUp self }
        ensures { result ≡ short_sizes self z }
    {
        (z.media < self.n * self.p)
            | (z.timestamps < self.n)
            | (z.lengths < self.n)
            | (z.marks < self.n)
            | (z.parity < self.k * self.p)
            | (z.records < self.k)
    }
}

// ---- refusal 5: the marks, the lengths, and the shape of a record

// Where a block of marks ends that starts at a position below n.
fn block_end(at: usize, n: usize) -> usize
    requires { at < n }
    ensures { (at < result) × (result ≤ n) × (result ≤ at + 128) }
{
    if n - at < 128 {
        return n;
    }
    at + 128
}

// Of a block of marks: how many are 1, and all of them joined bit by bit, which is 0 or 1 where each mark is.
#[derive(Clone, Copy)]
pub struct Ones {
    pub ones: u8,
    pub all: u8,
}

// The marks of a block, looked at once: in 8 bits, so that sixteen marks are taken at once.
fn ones_between(marks: &[u8], from: usize, to: usize) -> Ones
    requires { (from ≤ to) × (to ≤ length marks.now) × (to ≤ from + 128) }
    ensures { (count (is_present marks.now) (up_to from) + result.ones ≡ count (is_present marks.now) (up_to to))
        × ((all (λ i. is_mark (get_or marks.now i 0)) (up_to from) && is_mark result.all) ≡ all (λ i. is_mark (get_or marks.now i 0)) (up_to to)) }
{
    let mut ones: u8 = 0;
    let mut all: u8 = 0;
    for i in from..to {
        let mark = marks[i];
        ones += (mark == 1) as u8;
        all |= mark;
    }
    Ones { ones, all }
}

// Of a window's marks: how many are 1, and whether each is 0 or 1.
#[derive(Clone, Copy)]
pub struct Counted {
    pub ones: usize,
    pub good: bool,
}

impl Window {
    // How many positions are present, and whether every present mark is 0 or 1, block by block.
    pub fn count_present(self, marks: &[u8]) -> Counted
        requires { self.n ≤ length marks.now }
        ensures { (result.ones ≡ count (is_present marks.now) (up_to self.n)) × (result.good ≡ marks_good self marks.now) }
    {
        let n = self.n;
        let mut ones = 0;
        let mut good = true;
        let mut at = 0;
        while at < n {
            let to = block_end(at, n);
            let r = ones_between(marks, at, to);
            ones += r.ones as usize;
            good &= (r.all <= 1);
            at = to;
        }
        Counted { ones, good }
    }
}

// What a position's length is most often: p where it is present, or 0.
fn wanted(mark: u8, p: u16) -> u16
    ensures { result ≡ cond (eqb mark 1) p 0 }
{
    if mark == 1 { p } else { 0 }
}

impl Window {
    // Where every present position has P bytes and every other has none, as most senders have it: there is no division and no
    // branch in the loop, so that several are looked at at once.
    fn all_full(self, lengths: &[u16], marks: &[u8]) -> bool
        requires { SetUp self × (self.n ≤ length lengths.now) × (self.n ≤ length marks.now) }
        ensures { result ≡ true → lengths_good self lengths.now marks.now ≡ true }
    {
        let n = self.n;
        let p = self.p as u16;
        let mut full = true;
        for i in 0..n {
            full &= (lengths[i] == wanted(marks[i], p));
        }
        full
    }

    // The length of every present position is good.
    fn each_good(self, lengths: &[u16], marks: &[u8]) -> bool
        requires { (self.n ≤ length lengths.now) × (self.n ≤ length marks.now) }
        ensures { result ≡ lengths_good self lengths.now marks.now }
    {
        let n = self.n;
        let p = self.p;
        let mut good = true;
        for i in 0..n {
            good &= ((marks[i] != 1) | rtp::good_length(p, rtp::wide(lengths[i])));
        }
        good
    }

    // The length of every present position is good: most often all are P.
    pub fn lengths_good(self, lengths: &[u16], marks: &[u8]) -> bool
        requires { SetUp self × (self.n ≤ length lengths.now) × (self.n ≤ length marks.now) }
        ensures { result ≡ lengths_good self lengths.now marks.now }
    {
        if self.all_full(lengths, marks) {
            return true;
        }
        self.each_good(lengths, marks)
    }
}

impl Window {
    // Every member of a group lies in the window: the last member does, counted on from the first with no wrap.
    pub fn group_inside(self, stream: u8, snbase: u16) -> bool
        requires { SetUp self }
        ensures { result ≡ inside self stream snbase }
    {
        let offset = rtp::offset_of(stream, self.l);
        let na = rtp::na_of(stream, self.l, self.d);
        sequence::position(self.base, snbase) as usize + (na - 1) * offset < self.n
    }

    // A stream and an SNBase name a column, or a row where rows are permitted, that lies in the window.
    pub fn shape_good(self, stream: u8, snbase: u16) -> bool
        requires { SetUp self }
        ensures { result ≡ shape_good self stream snbase }
    {
        (stream <= 1) & !rtp::no_row(stream, self.l) & self.group_inside(stream, snbase)
    }
}

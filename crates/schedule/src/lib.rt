#![tactic(auto)]

// When a sender's parity goes out (request 4): which column goes out with a packet, which one takes it in, and the one
// bounded counter by which the sender knows. The arrangements as definitions, and that they are exact, are in specs/.
ghost use Rattle.std.specs.Prelude.{◌≡◌, ◌+◌, ◌*◌, ◌-◌, ◌<◌, ◌≤◌};
ghost use Rattle.schedule.specs.Schedule.{named, shift, start, due, turn, slot, onward};
ghost use Rattle.schedule.specs.Exact.{cyc};
ghost use Rattle.schedule.specs.Numbers.{Small, leaving_at, joining_at};

// The two arrangements of columns that senders have.
#[derive(Clone, Copy)]
pub enum Arrangement {
    Aligned,
    Staggered,
}

// To how many matrices the counter of a sender counts.
pub const MATRICES: usize = 3;

// A column that goes out with a packet: in which slot its sum stands, and how many packets before this one it starts.
#[derive(Clone, Copy)]
pub struct Leaving {
    pub slot: usize,
    pub back: usize,
}

// The slot of the column that takes a packet in, and whether the packet is its first.
#[derive(Clone, Copy)]
pub struct Joining {
    pub slot: usize,
    pub first: bool,
}

// The arrangement that a number names: 0 aligned, any other staggered.
impl From<u8> for Arrangement {
    ghost from_gives = { λ number a. a ≡ named number };

    fn from(number: u8) -> Arrangement {
        match number {
            0 => Arrangement::Aligned,
            _ => Arrangement::Staggered,
        }
    }
}

// The position after `at`, where a matrix has n packets.
pub fn next_at(n: usize, at: usize) -> usize
    requires { (n ≤ 100) × (at < 300) }
    ensures { result ≡ onward n at }
{
    if at + 1 == MATRICES * n { n } else { at + 1 }
}

// The line of a matrix on which a column starts.
fn line_of(a: Arrangement, d: usize, column: usize) -> usize
    requires { 0 < d }
    ensures { result ≡ shift a d column }
{
    match a {
        Arrangement::Aligned => 0,
        Arrangement::Staggered => column % d,
    }
}

// The packet with which a cycle starts.
fn start_of(a: Arrangement, l: usize, d: usize, column: usize, cycle: usize) -> usize
    requires small { Small l d }
    requires column_lt_l { (column < l) × (cycle ≤ 300) }
    ensures { result ≡ start a l d (cyc column cycle) }
{
    column + l * line_of(a, d, column) + cycle * (l * d)
}

// The packet with which a cycle goes out.
fn due_of(a: Arrangement, l: usize, d: usize, column: usize, cycle: usize) -> usize
    requires small { Small l d }
    requires column_lt_l { (column < l) × (cycle ≤ 300) }
    ensures { result ≡ due a l d (cyc column cycle) }
{
    match a {
        Arrangement::Aligned => (cycle + 1) * (l * d) + column * d,
        Arrangement::Staggered => start_of(a, l, d, column, cycle) + (d - 1) * l + l,
    }
}

// The column whose turn it may be.
fn turn_of(a: Arrangement, l: usize, d: usize, at: usize) -> usize
    requires { Small l d }
    ensures { result ≡ turn a l d at }
{
    match a {
        Arrangement::Aligned => at % (l * d) / d,
        Arrangement::Staggered => at % l,
    }
}

// The slot of a cycle.
fn slot_of(l: usize, column: usize, cycle: usize) -> usize
    requires { (l ≤ 20) × (column < l) }
    ensures { result ≡ slot l (cyc column cycle) }
{
    column + l * (cycle % 2)
}

// The column that goes out with the packet at `at`, if one does. Its parameters stay three values, and so do those of the functions that it
// calls, since docs/PROMISES.md names it.
pub fn column_out(a: Arrangement, l: usize, d: usize, at: usize) -> Option<Leaving>
    requires small { Small l d }
    requires at_bound { at < 300 }
    ensures { result ≡ leaving_at a l d at }
{
    let column = turn_of(a, l, d, at);
    let cycle = (at / (l * d)).saturating_sub(1);
    if due_of(a, l, d, column, cycle) != at {
        return None;
    }
    let start = start_of(a, l, d, column, cycle);
    Some(Leaving {
        slot: slot_of(l, column, cycle),
        back: at.saturating_sub(start),
    })
}

// The column that takes in the packet at `at`.
pub fn column_in(a: Arrangement, l: usize, d: usize, at: usize) -> Joining
    requires small { Small l d }
    requires at_bound { at < 300 }
    ensures { result ≡ joining_at a l d at }
{
    let column = at % l;
    let cycle = (at / l).saturating_sub(line_of(a, d, column)) / d;
    let start = start_of(a, l, d, column, cycle);
    Joining {
        slot: slot_of(l, column, cycle),
        first: start == at,
    }
}

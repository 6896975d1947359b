#![tactic(auto)]

// Bench cases, refusals and traps over the public calls: a table of steps for each, run on a bench of its own.
mod bench;
mod script;
mod show;
mod wire;

ghost use Rattle.std.specs.Prelude.{◌≤◌};

use bench::{Bench, SetUp};
use script::{Change, Kind, Step};
use std::io;
use wire::Shape;

// A number that a byte holds, or 0.
fn small(x: usize) -> u8 {
    u8::try_from(x).unwrap_or(0)
}

// The sender's window, by the receiver's value.
fn shape(b: &Bench) -> Shape {
    let w = b.receiver.window;
    Shape {
        p: w.p,
        l: small(w.l),
        d: small(w.d),
    }
}

// The plain datagram of a number is offered.
fn offered(rt: &impl Print, b: &mut Bench, kind: Kind, number: u16) -> io::Result<()> {
    print!(rt; "  {kind} {number}")?;
    let s = shape(b);
    let n = wire::length(s, kind, number);
    let a = b.offer(kind, &wire::datagram(s, kind, number)[..n]);
    show::answer(rt, a)?;
    println!(rt)
}

// The length of a datagram in which something differs; no datagram is longer than 592 bytes.
fn length(s: Shape, kind: Kind, number: u16, change: Change) -> usize
    ensures { result ≤ 592 }
{
    match change {
        Change::Length(n) | Change::Bare(n) | Change::Zeros(n) if n <= 592 => n,
        _ => wire::length(s, kind, number),
    }
}

// The port of an offer: its own, unless that is what differs.
fn port(kind: Kind, change: Change) -> Kind {
    match change {
        Change::Port(other) => other,
        _ => kind,
    }
}

// A datagram in which something differs is offered.
fn altered(
    rt: &impl Print,
    b: &mut Bench,
    kind: Kind,
    number: u16,
    change: Change,
) -> io::Result<()> {
    print!(rt; "  {kind} {number}{change}")?;
    let s = shape(b);
    let n = length(s, kind, number, change);
    let g = wire::altered(s, kind, number, change);
    let a = b.offer(port(kind, change), &g[..n]);
    show::answer(rt, a)?;
    println!(rt)
}

// What was written, against what the sender sends.
fn compare(rt: &impl Print, kind: Kind, out: &[u8; 404], g: &[u8; 592]) -> io::Result<()> {
    if out[..] == g[..404] {
        print!(rt; ", as sent:")?;
    } else {
        print!(rt; ", not as sent:")?;
    }
    show::header(rt, &out[..wire::headers(kind)])
}

// A packet is read or parity written into so many bytes, and shown.
fn written(rt: &impl Print, b: &Bench, kind: Kind, number: u16, room: usize) -> io::Result<()> {
    let mut out = [0; 404];
    let a = b.write(kind, number, &mut out[..room.min(404)]);
    show::answer(rt, a)?;
    if a.is_ok() {
        compare(rt, kind, &out, &wire::datagram(shape(b), kind, number))?;
    }
    println!(rt)
}

// A step is done, and its line shown.
fn step(rt: &impl Print, b: &mut Bench, step: Step) -> io::Result<()> {
    match step {
        Step::Offer(kind, number) => offered(rt, b, kind, number),
        Step::Alter(kind, number, change) => altered(rt, b, kind, number, change),
        Step::Write(kind, number) => {
            print!(rt; "  {} {number}", show::write_name(kind))?;
            written(rt, b, kind, number, 404)
        }
        Step::WriteTo(kind, number, room) => {
            print!(rt;
                "  {} {number}, output bytes lent {room}",
                show::write_name(kind)
            )?;
            written(rt, b, kind, number, room)
        }
        Step::Marks => show::marks(rt, b),
        Step::Lengths => show::lengths(rt, b),
        Step::Set(part, i, value) => {
            b.set(part, i as usize, value);
            println!(rt; "  set {part} {i} to {value}")
        }
        Step::MakeUp(number, value) => {
            b.make_up(number, value);
            println!(rt; "  make up {number} to {value}")
        }
    }
}

// A case: a window is opened, and the steps are done; the media payloads are lent whole, or but for their last byte.
fn lent(rt: &impl Print, s: SetUp, whole: bool, steps: &[Step]) -> io::Result<()> {
    let (mut b, a) = Bench::open(s, whole);
    print!(rt; "  open {s}")?;
    show::answer(rt, a)?;
    println!(rt)?;
    for it in steps {
        step(rt, &mut b, *it)?;
    }
    Ok(())
}

// A case under its title, in a window of so many columns by four, with payloads of so many bytes, positions and records, and the last
// byte of the media payloads not lent.
fn case(
    rt: &impl Print,
    title: &str,
    l: usize,
    p: usize,
    n: usize,
    k: usize,
    steps: &[Step],
) -> io::Result<()> {
    println!(rt; "{title}")?;
    lent(rt, SetUp { l, d: 4, p, n, k }, false, steps)
}

// A case in a window of 4 by 4 with eight records.
fn plain(rt: &impl Print, title: &str, steps: &[Step]) -> io::Result<()> {
    case(rt, title, 4, 188, 16, 8, steps)
}

// An opening that is refused: it touches nothing, and its window value is refused.
fn refused(rt: &impl Print, l: usize, d: usize, p: usize, n: usize, k: usize) -> io::Result<()> {
    lent(rt, SetUp { l, d, p, n, k }, false, &script::AFTER_REFUSAL)
}

// Openings that are refused, and what their window values are worth.
fn openings(rt: &impl Print) -> io::Result<()> {
    println!(rt; "openings refused")?;
    refused(rt, 21, 4, 188, 16, 8)?;
    refused(rt, 20, 6, 188, 16, 8)?;
    refused(rt, 4611686018427387905, 4, 188, 16, 8)?;
    refused(rt, 4, 4, 187, 16, 8)?;
    refused(rt, 4, 4, 188, 15, 8)?;
    refused(rt, 4, 4, 188, 401, 8)?;
    refused(rt, 4, 4, 188, 16, 0)?;
    refused(rt, 4, 4, 188, 16, 129)?;
    refused(rt, 4, 4, 188, 17, 8)?;
    refused(rt, 4, 4, 188, 16, 9)
}

// Groups of numbers, also across the wrap.
fn groups(rt: &impl Print) -> io::Result<()> {
    println!(rt; "case 4: column at 65530, L 4, NA 4")?;
    show::group(rt, 65530, 4, 4)?;
    println!(rt; "case 12: staggered columns of annex A, L 4, D 5, numbered from 1")?;
    show::group(rt, 1, 4, 5)?;
    show::group(rt, 6, 4, 5)?;
    show::group(rt, 11, 4, 5)?;
    show::group(rt, 16, 4, 5)
}

// Order at one position: it takes 17 positions to show.
fn column_first(rt: &impl Print) -> io::Result<()> {
    println!(rt; "at one position the column first: row 65534 lies")?;
    let s = SetUp {
        l: 4,
        d: 4,
        p: 188,
        n: 17,
        k: 8,
    };
    lent(rt, s, true, &script::COLUMN_FIRST)
}

// Refusals 6 to 15 of the ports, 4, 13 and 17 of reading and writing, rows where there are none, refusal 5, window values that no
// call gave back, refusal 16, and a column that a free record looks like.
fn refusals(rt: &impl Print) -> io::Result<()> {
    plain(rt, "media refused", &script::MEDIA_PORT)?;
    plain(rt, "parity refused", &script::PARITY_PORTS)?;
    plain(rt, "reading and writing refused", &script::OUTPUTS)?;
    case(rt, "no rows where L is 3", 3, 188, 16, 8, &script::NO_ROWS)?;
    plain(rt, "a store out of order", &script::DISORDER)?;
    plain(rt, "a made-up window value", &script::MADE_UP)?;
    case(
        rt,
        "room for one parity packet",
        4,
        188,
        16,
        1,
        &script::ONE_RECORD,
    )?;
    let title = "a column at number 0 beside free records";
    case(rt, title, 1, 188, 16, 8, &script::NUMBER_0)
}

// Order by position, with the truth first and with the lie first, and at one position.
fn orders(rt: &impl Print) -> io::Result<()> {
    let truth = "the smaller position first: row 0 lies";
    plain(rt, truth, &script::TRUE_FIRST)?;
    let lie = "the smaller position first: row 65534 lies";
    plain(rt, lie, &script::LIE_FIRST)?;
    column_first(rt)
}

// ---- request 1: lengths do differ

// A case in a window of columns of four neighbours, with payloads of one or two units.
fn mixed(rt: &impl Print, title: &str, steps: &[Step]) -> io::Result<()> {
    case(rt, title, 1, 376, 8, 4, steps)
}

// Each way to be spoilt, offered and in hand.
fn spoilt(rt: &impl Print) -> io::Result<()> {
    mixed(rt, "spoilt as it is offered", &script::SPOILT_OFFERED)?;
    mixed(rt, "spoilt in hand, by lengths", &script::SPOILT_HELD)?;
    let bytes = "spoilt in hand, by a byte and by a length";
    mixed(rt, bytes, &script::SPOILT_BYTES)?;
    let search = "two spoilt in hand, and the search goes on";
    mixed(rt, search, &script::SEARCH_GOES_ON)
}

// Lengths rebuilt, read and written, refusals 9, 11, 14 and 15, what is spoilt, what counts as zero, and refusal 5.
fn lengths_differ(rt: &impl Print) -> io::Result<()> {
    let title = "lengths do differ: 376 at 65530, 65532 and 65533, 188 elsewhere";
    mixed(rt, title, &script::MIXED)?;
    mixed(rt, "lengths refused", &script::LENGTHS_REFUSED)?;
    spoilt(rt)?;
    let past = "other bytes past a kept length";
    mixed(rt, past, &script::PAST_LENGTHS)?;
    let disorder = "kept lengths out of order";
    mixed(rt, disorder, &script::LENGTHS_DISORDER)
}

// ---- request 6: parity that lies

// Refusal 18.
fn lies(rt: &impl Print) -> io::Result<()> {
    let title = "parity over a whole group, which lies in a field each";
    mixed(rt, title, &script::LIES)
}

fn main(rt: HostRuntime) -> io::Result<()> {
    groups(&rt)?;
    plain(&rt, "cases 10, 11 and 9", &script::CASE_10_11)?;
    openings(&rt)?;
    refusals(&rt)?;
    orders(&rt)?;
    lengths_differ(&rt)?;
    lies(&rt)
}

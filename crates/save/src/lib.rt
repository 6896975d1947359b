#![tactic(auto)]

// Writes a capture file: header, table and bodies at the front of a lent output. What is no proper content is refused with 21, and
// then a short output with 4; nothing is altered by a refusal.
ghost use Rattle.std.specs.Prelude.{◌≡◌, ◌+◌, ◌≤◌, length};
ghost use Rattle.std.proofs.lemmas.List.Edits.{sets};
ghost use Rattle.std.proofs.Math.Seq.{paste};
ghost use Rattle.sequence.specs.Lists.{all};
ghost use Rattle.capture.specs.Content.{header, line_of, table_end, most_entries};
ghost use Rattle.capture.specs.Calls.{good_port, short_body, total, entries_fit, lines, wrote};
ghost use Rattle.save.specs.SetUp.{set_up_of};
ghost use Rattle.save.specs.Written.{written_of};

use answer::Refusal;
use capture::Written;

// The numbers of a set-up, each as wide as its field.
#[derive(Clone, Copy)]
struct SetUp {
    base: u16,
    l: u8,
    d: u8,
    p: u16,
    n: u16,
    k: u16,
}

// A port is 1, 2 or 3.
fn good_port(port: u8) -> bool
    ensures { result ≡ good_port port }
{
    matches!(port, 1..=3)
}

// Every port is one. Each is looked at, also behind one that is none: `iter().all(..)` takes three times as long over a whole file.
fn good_ports(ports: &[u8]) -> bool
    ensures { result ≡ all good_port ports.now }
{
    let mut is = true;
    for port in ports {
        is &= good_port(*port);
    }
    is
}

// No body is too long. Each is looked at, as above.
fn short_bodies(lengths: &[u16]) -> bool
    ensures { result ≡ all short_body lengths.now }
{
    let mut is = true;
    for size in lengths {
        is &= *size <= 1500;
    }
    is
}

// All lengths together.
fn total(lengths: &[u16]) -> usize
    requires { length lengths.now ≤ most_entries }
    ensures { result ≡ total lengths.now }
{
    lengths.iter().map(|&size| size as usize).sum()
}

// The lists are those of entries that a file can hold.
fn entries_fit(ports: &[u8], lengths: &[u16], bodies: usize) -> bool
    ensures { result ≡ entries_fit ports.now lengths.now bodies }
{
    if ports.len() != lengths.len() {
        return false;
    }
    if 512 < ports.len() {
        return false;
    }
    good_ports(ports) & short_bodies(lengths) & (total(lengths) == bodies)
}

// The numbers as wide as their fields, where they fit.
fn set_up(base: u16, l: usize, d: usize, p: usize, n: usize, k: usize) -> Option<SetUp>
    ensures { result ≡ set_up_of base l d p n k }
{
    Some(SetUp {
        base,
        l: u8::try_from(l).ok()?,
        d: u8::try_from(d).ok()?,
        p: u16::try_from(p).ok()?,
        n: u16::try_from(n).ok()?,
        k: u16::try_from(k).ok()?,
    })
}

// The header.
fn put_header(out: &mut [u8], count: u16, u: SetUp)
    requires { 12 ≤ length out.old }
    ensures { out.new ≡ sets out.old 0 (header count u.l u.d u.p u.base u.n u.k) }
{
    rtp::put4(out, 0, rtp::high(count), rtp::low(count), u.l, u.d);
    rtp::put4(
        out,
        4,
        rtp::high(u.p),
        rtp::low(u.p),
        rtp::high(u.base),
        rtp::low(u.base),
    );
    rtp::put4(
        out,
        8,
        rtp::high(u.n),
        rtp::low(u.n),
        rtp::high(u.k),
        rtp::low(u.k),
    );
}

// A line of the table.
fn put_line(out: &mut [u8], at: usize, port: u8, size: u16, start: u32)
    requires { at + 8 ≤ length out.old }
    ensures { out.new ≡ sets out.old at (line_of port size start) }
{
    rtp::put4(out, at, port, 0, rtp::high(size), rtp::low(size));
    rtp::put32(out, at + 4, start);
}

// The table, whose first body starts where the table ends.
fn put_table(out: &mut [u8], ports: &[u8], lengths: &[u16])
    requires { (length ports.now ≡ length lengths.now) × (length ports.now ≤ most_entries) × (table_end (length ports.now) ≤ length out.old) }
    ensures { out.new ≡ sets out.old 12 (lines (table_end (length ports.now)) ports.now lengths.now) }
{
    let mut next = 12 + 8 * ports.len();
    for i in 0..ports.len() {
        put_line(out, 12 + 8 * i, ports[i], lengths[i], next as u32);
        next += lengths[i] as usize;
    }
}

// Header, table and bodies at the front of an output that has room for them.
fn put_file(u: SetUp, ports: &[u8], lengths: &[u16], bodies: &[u8], out: &mut [u8])
    requires { (length ports.now ≡ length lengths.now) × (length ports.now ≤ most_entries) × (table_end (length ports.now) + length bodies.now ≤ length out.old) }
    ensures { out.new ≡ sets (sets (paste out.old (table_end (length ports.now)) bodies.now (length bodies.now)) 0
        (header (length ports.now) u.l u.d u.p u.base u.n u.k)) 12 (lines (table_end (length ports.now)) ports.now lengths.now) }
{
    let start = 12 + 8 * ports.len();
    out[start..start + bodies.len()].copy_from_slice(bodies);
    put_header(out, ports.len() as u16, u);
    put_table(out, ports, lengths);
}

// Lays a file down, and gives how many bytes it has.
fn try_write(
    base: u16,
    l: usize,
    d: usize,
    p: usize,
    n: usize,
    k: usize,
    ports: &[u8],
    lengths: &[u16],
    bodies: &[u8],
    out: &mut [u8],
) -> Result<usize, Refusal>
    ensures { record { written = written_of result; out = out.new } ≡ wrote (record { base = base; l = l; d = d; p = p; n = n; k = k; ports = ports.now; lengths = lengths.now; bodies = bodies.now }) out.old }
{
    if !entries_fit(ports, lengths, bodies.len()) {
        return Err(Refusal::NoCapture);
    }
    let Some(u) = set_up(base, l, d, p, n, k) else {
        return Err(Refusal::NoCapture);
    };
    let need = 12 + 8 * ports.len() + bodies.len();
    if out.len() < need {
        return Err(Refusal::TooShort);
    }
    put_file(u, ports, lengths, bodies, out);
    Ok(need)
}

// Writes a file: its entries have the ports and the lengths that are lent, and the bodies one after the other.
pub fn write(
    base: u16,
    l: usize,
    d: usize,
    p: usize,
    n: usize,
    k: usize,
    ports: &[u8],
    lengths: &[u16],
    bodies: &[u8],
    out: &mut [u8],
) -> Written
    ensures { record { written = result; out = out.new } ≡ wrote (record { base = base; l = l; d = d; p = p; n = n; k = k; ports = ports.now; lengths = lengths.now; bodies = bodies.now }) out.old }
{
    match try_write(base, l, d, p, n, k, ports, lengths, bodies, out) {
        Ok(count) => Written { number: 0, count },
        Err(refusal) => Written {
            number: u32::from(u8::from(refusal)),
            count: 0,
        },
    }
}

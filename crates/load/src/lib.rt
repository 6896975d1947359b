#![tactic(auto)]

// Reads a capture file, in pieces of any length or at once, and gives its header and its entries. No call asks anything of what it is
// lent; what is no capture file is refused with 21.
ghost use Rattle.std.specs.Prelude.{◌≡◌, ◌+◌, ◌≤◌, ◌<◌, unwrap_or};
ghost use Rattle.rtp.specs.Bytes.{byte, be16, be32};
ghost use Rattle.capture.specs.declared.Stage.TheVariants.{Head as head, Line as line, Body as body};
ghost use Rattle.capture.specs.Stage.{enter, start_byte, good_byte, size_after, count_after, feed, run, whole, counts, skipped};
ghost use Rattle.capture.specs.Small.{Small, SmallHead, SmallLine};
ghost use Rattle.capture.specs.Calls.{most_bodies, most_file, head_good, line_good, head_from, line_from, body_from, stage_of, reader_of, read_on, no_header, header_read, no_entry, entry_read};

use capture::{Header, Line, Reader, Reading, Stage};

// The byte of a start at a place of its line, from 4 to 7.
fn start_byte(next: u32, at: u32) -> u32
    ensures { result ≡ start_byte next at }
{
    match at {
        4 => next / 16777216 % 256,
        5 => next / 65536 % 256,
        6 => next / 256 % 256,
        _ => next % 256,
    }
}

// A byte may stand at a place of a line: a port, a zero, a length up to 1,500, and the start that follows from the lengths.
fn good_byte(next: u32, at: u32, size: u32, b: u8) -> bool
    requires { size ≤ 1500 }
    ensures { result ≡ good_byte next at size b }
{
    let b = b as u32;
    match at {
        0 => (0 < b) & (b < 4),
        1 => b == 0,
        2 | 3 => size * 256 + b <= 1500,
        _ => b == start_byte(next, at),
    }
}

// A line's length so far, after a byte at a place.
fn size_after(at: u32, size: u32, b: u8) -> u32
    requires { size ≤ 1500 }
    ensures { result ≡ size_after at size b }
{
    match at {
        2 | 3 => size * 256 + b as u32,
        _ => size,
    }
}

// The entry count so far, after a byte at a place of the header.
fn count_after(at: u32, count: u32, b: u8) -> u32
    requires { count ≤ 512 }
    ensures { result ≡ count_after at count b }
{
    if at < 2 {
        count * 256 + b as u32
    } else {
        count
    }
}

// A further line of the table, or the bodies.
fn enter(left: u32, next: u32, sum: u32) -> Stage
    ensures { result ≡ enter left next sum }
{
    if left == 0 {
        Stage::Body(sum)
    } else {
        Stage::Line(left - 1, next, sum, 0, 0)
    }
}

// One byte of the header more.
fn feed_head(at: u32, count: u32, b: u8) -> Stage
    requires { SmallHead at count }
    ensures { result ≡ feed b (head at count) }
{
    let c = count_after(at, count, b);
    if c > 512 {
        return Stage::Refused;
    }
    if at + 1 < 12 {
        return Stage::Head(at + 1, c);
    }
    enter(c, 12 + 8 * c, 0)
}

// One byte of a line more.
fn feed_line(left: u32, next: u32, sum: u32, at: u32, size: u32, b: u8) -> Stage
    requires { SmallLine left next sum at size }
    ensures { result ≡ feed b (line left next sum at size) }
{
    if !good_byte(next, at, size, b) {
        return Stage::Refused;
    }
    let z = size_after(at, size, b);
    if at + 1 < 8 {
        return Stage::Line(left, next, sum, at + 1, z);
    }
    enter(left, next + z, sum + z)
}

// So many bytes of the bodies more.
fn skip_body(left: u32, n: usize) -> Stage
    requires { left ≤ most_bodies }
    ensures { result ≡ skipped n (body left) }
{
    if n <= left as usize {
        Stage::Body(left - n as u32)
    } else {
        Stage::Refused
    }
}

// One byte more.
fn feed(r: Stage, b: u8) -> Stage
    requires { Small r }
    ensures { result ≡ feed b r }
{
    match r {
        Stage::Head(at, count) => feed_head(at, count, b),
        Stage::Line(left, next, sum, at, size) => feed_line(left, next, sum, at, size, b),
        Stage::Body(left) => skip_body(left, 1),
        Stage::Refused => Stage::Refused,
    }
}

// Bytes are only counted from here on: in the bodies, and once refused.
fn counts(s: Stage) -> bool
    ensures { result ≡ counts s }
{
    matches!(s, Stage::Body(_) | Stage::Refused)
}

// So many bytes more that are only counted.
fn skip(s: Stage, n: usize) -> Stage
    requires { Small s }
    ensures { result ≡ skipped n s }
{
    match s {
        Stage::Body(left) => skip_body(left, n),
        _ => s,
    }
}

// A piece more.
fn feed_all(s: Stage, piece: &[u8]) -> Stage
    requires { Small s }
    ensures { (result ≡ run s piece.now) × Small result }
{
    let mut q = s;
    for (i, &b) in piece.iter().enumerate() {
        if counts(q) {
            return skip(q, piece.len() - i);
        }
        q = feed(q, b);
    }
    q
}

// ---- the calls

// A card's numbers are some that a stage in the header can have.
fn head_good(at: u32, count: u32) -> bool
    ensures { result ≡ head_good at count }
{
    (at < 12) & (count <= 512)
}

// And in a line of the table.
fn line_good(left: u32, next: u32, sum: u32, at: u32, size: u32) -> bool
    ensures { result ≡ line_good left next sum at size }
{
    (left < 512)
        & (next as usize + 1500 * left as usize + 1500 <= 772108)
        & (sum as usize + 1500 * left as usize + 1500 <= 768000)
        & (at < 8)
        & (size <= 1500)
}

// A stage in the header, of a card's numbers.
fn head_from(at: u32, count: u32) -> Stage
    ensures { (result ≡ head_from at count) × Small result }
{
    if head_good(at, count) {
        Stage::Head(at, count)
    } else {
        Stage::Refused
    }
}

// A stage in a line, of a card's numbers.
fn line_from(left: u32, next: u32, sum: u32, at: u32, size: u32) -> Stage
    ensures { (result ≡ line_from left next sum at size) × Small result }
{
    if line_good(left, next, sum, at, size) {
        Stage::Line(left, next, sum, at, size)
    } else {
        Stage::Refused
    }
}

// A stage in the bodies, of a card's numbers.
fn body_from(left: u32) -> Stage
    ensures { (result ≡ body_from left) × Small result }
{
    if left <= 768000 {
        Stage::Body(left)
    } else {
        Stage::Refused
    }
}

// The stage of a card's numbers.
fn stage_of(r: Reader) -> Stage
    ensures { (result ≡ stage_of r) × Small result }
{
    match r.stage {
        0 => head_from(r.at, r.left),
        1 => line_from(r.left, r.next, r.sum, r.at, r.size),
        2 => body_from(r.left),
        _ => Stage::Refused,
    }
}

// The numbers of a stage.
fn reader_of(s: Stage) -> Reader
    ensures { result ≡ reader_of s }
{
    match s {
        Stage::Head(read, count) => Reader {
            stage: 0,
            left: count,
            at: read,
            ..Reader::default()
        },
        Stage::Line(left, next, sum, at, size) => Reader {
            stage: 1,
            left,
            next,
            sum,
            at,
            size,
        },
        Stage::Body(left) => Reader {
            stage: 2,
            left,
            ..Reader::default()
        },
        Stage::Refused => Reader {
            stage: 3,
            ..Reader::default()
        },
    }
}

// A file may end here.
fn is_whole(s: Stage) -> bool
    ensures { result ≡ whole s }
{
    matches!(s, Stage::Body(0))
}

// Reads on: a piece more of a file, of any length and cut anywhere.
pub fn read(r: Reader, piece: &[u8]) -> Reading
    ensures { result ≡ read_on r piece.now }
{
    let s = feed_all(stage_of(r), piece);
    Reading {
        number: if is_whole(s) { 0 } else { 21 },
        reader: reader_of(s),
    }
}

// The two bytes at a place as a number. They are read one by one and not as a slice of two, since a byte past the end counts as zero.
fn at16(front: &[u8], i: usize) -> u16
    requires { i < most_file }
    ensures { result ≡ be16 (byte front.now i) (byte front.now (i + 1)) }
{
    u16::from_be_bytes([rtp::byte_at(front, i), rtp::byte_at(front, i + 1)])
}

// The four bytes at a place as a number, read one by one for the same reason.
fn at32(front: &[u8], i: usize) -> u32
    requires { i < most_file }
    ensures { result ≡ be32 (byte front.now i) (byte front.now (i + 1)) (byte front.now (i + 2)) (byte front.now (i + 3)) }
{
    u32::from_be_bytes([
        rtp::byte_at(front, i),
        rtp::byte_at(front, i + 1),
        rtp::byte_at(front, i + 2),
        rtp::byte_at(front, i + 3),
    ])
}

// The header of a file, of the front of it: none where that is too short, or has too many entries.
fn header(front: &[u8]) -> Option<Header>
    ensures { unwrap_or result no_header ≡ header_read front.now }
{
    if front.len() < 12 {
        return None;
    }
    let count = at16(front, 0) as usize;
    if 512 < count {
        return None;
    }
    Some(Header {
        number: 0,
        base: at16(front, 6),
        count,
        l: rtp::byte_at(front, 2) as usize,
        d: rtp::byte_at(front, 3) as usize,
        p: at16(front, 4) as usize,
        n: at16(front, 8) as usize,
        k: at16(front, 10) as usize,
    })
}

// The header of a file, of the front of it.
pub fn header_of(front: &[u8]) -> Header
    ensures { result ≡ header_read front.now }
{
    header(front).unwrap_or(Header {
        number: 21,
        ..Header::default()
    })
}

// Entry i of a file, of the front of it: none where there is no header, no such entry, or too little of the file.
fn entry(front: &[u8], i: usize) -> Option<Line>
    ensures { unwrap_or result no_entry ≡ entry_read front.now i }
{
    let h = header(front)?;
    if h.count <= i {
        return None;
    }
    if front.len() < 12 + 8 * (i + 1) {
        return None;
    }
    let at = 12 + 8 * i;
    Some(Line {
        number: 0,
        port: rtp::byte_at(front, at),
        start: at32(front, at + 4) as usize,
        length: at16(front, at + 2) as usize,
    })
}

// Entry i of a file, of the front of it.
pub fn entry_of(front: &[u8], i: usize) -> Line
    ensures { result ≡ entry_read front.now i }
{
    entry(front, i).unwrap_or(Line {
        number: 21,
        ..Line::default()
    })
}

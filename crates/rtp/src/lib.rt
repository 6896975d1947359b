#![tactic(auto)]

// RTP and parity headers: every field read and written, big-endian, and what is wrong with a datagram by itself.
// Reading asks nothing of a datagram: a byte past its end reads as 0.
ghost use Rattle.std.specs.Prelude.{◌≡◌, [], ◌∷◌, ◌++◌, ◌+◌, ◌/◌, ◌%◌, ◌<◌, ◌≤◌, eqb, length};
ghost use Rattle.std.proofs.lemmas.List.Edits.{sets};
ghost use Rattle.answer.specs.First.{first};
ghost use Rattle.answer.specs.Refused.{fault_of};
ghost use Rattle.rtp.specs.Bytes.{byte, be16, be32, bytes32};
ghost use Rattle.rtp.specs.Rtp as header;
ghost use Rattle.rtp.specs.Fec as fec;
ghost use Rattle.rtp.specs.Length.{unit, whole_units, good_length};
ghost use Rattle.rtp.specs.Faults.{bad_rtp, bad_fec, bad_recovery, bad_profile, no_row, media_tests, parity_tests};

use answer::Refusal;

pub const RTP_HEADER: usize = 12;

pub const PARITY_HEADERS: usize = 28;

pub const MEDIA_TYPE: u8 = 33;

pub const PARITY_TYPE: u8 = 96;

pub const COLUMN: u8 = 0;

pub const ROW: u8 = 1;

// The byte at a place, 0 past the end.
pub fn byte_at(g: &[u8], i: usize) -> u8
    ensures { result ≡ byte g.now i }
{
    g.get(i).copied().unwrap_or(0)
}

// Two bytes as a number, the first the higher.
pub fn join16(a: u8, b: u8) -> u16
    ensures { result ≡ be16 a b }
{
    u16::from_be_bytes([a, b])
}

// Four bytes as a number, the first the highest.
pub fn join32(a: u8, b: u8, c: u8, d: u8) -> u32
    ensures { result ≡ be32 a b c d }
{
    u32::from_be_bytes([a, b, c, d])
}

// ---- the RTP header

pub fn version(g: &[u8]) -> u8
    ensures { result ≡ header.version g.now }
{
    byte_at(g, 0) / 64
}

pub fn padding(g: &[u8]) -> u8
    ensures { result ≡ header.padding g.now }
{
    byte_at(g, 0) / 32 % 2
}

pub fn extension(g: &[u8]) -> u8
    ensures { result ≡ header.extension g.now }
{
    byte_at(g, 0) / 16 % 2
}

pub fn csrc_count(g: &[u8]) -> u8
    ensures { result ≡ header.csrc_count g.now }
{
    byte_at(g, 0) % 16
}

pub fn marker(g: &[u8]) -> u8
    ensures { result ≡ header.marker g.now }
{
    byte_at(g, 1) / 128
}

pub fn payload_type(g: &[u8]) -> u8
    ensures { result ≡ header.payload_type g.now }
{
    byte_at(g, 1) % 128
}

pub fn sequence_number(g: &[u8]) -> u16
    ensures { result ≡ header.sequence_number g.now }
{
    join16(byte_at(g, 2), byte_at(g, 3))
}

pub fn timestamp(g: &[u8]) -> u32
    ensures { result ≡ header.timestamp g.now }
{
    join32(byte_at(g, 4), byte_at(g, 5), byte_at(g, 6), byte_at(g, 7))
}

pub fn ssrc(g: &[u8]) -> u32
    ensures { result ≡ header.ssrc g.now }
{
    join32(byte_at(g, 8), byte_at(g, 9), byte_at(g, 10), byte_at(g, 11))
}

// ---- the parity header

pub fn snbase(g: &[u8]) -> u16
    ensures { result ≡ fec.snbase g.now }
{
    join16(byte_at(g, 12), byte_at(g, 13))
}

pub fn length_recovery(g: &[u8]) -> u16
    ensures { result ≡ fec.length_recovery g.now }
{
    join16(byte_at(g, 14), byte_at(g, 15))
}

pub fn e_bit(g: &[u8]) -> u8
    ensures { result ≡ fec.e_bit g.now }
{
    byte_at(g, 16) / 128
}

pub fn type_recovery(g: &[u8]) -> u8
    ensures { result ≡ fec.type_recovery g.now }
{
    byte_at(g, 16) % 128
}

pub fn mask(g: &[u8]) -> u32
    ensures { result ≡ fec.mask g.now }
{
    join32(0, byte_at(g, 17), byte_at(g, 18), byte_at(g, 19))
}

pub fn timestamp_recovery(g: &[u8]) -> u32
    ensures { result ≡ fec.timestamp_recovery g.now }
{
    join32(
        byte_at(g, 20),
        byte_at(g, 21),
        byte_at(g, 22),
        byte_at(g, 23),
    )
}

pub fn x_bit(g: &[u8]) -> u8
    ensures { result ≡ fec.x_bit g.now }
{
    byte_at(g, 24) / 128
}

pub fn d_bit(g: &[u8]) -> u8
    ensures { result ≡ fec.d_bit g.now }
{
    byte_at(g, 24) / 64 % 2
}

pub fn fec_type(g: &[u8]) -> u8
    ensures { result ≡ fec.fec_type g.now }
{
    byte_at(g, 24) / 8 % 8
}

pub fn index(g: &[u8]) -> u8
    ensures { result ≡ fec.index g.now }
{
    byte_at(g, 24) % 8
}

pub fn offset(g: &[u8]) -> u8
    ensures { result ≡ fec.offset g.now }
{
    byte_at(g, 25)
}

pub fn na(g: &[u8]) -> u8
    ensures { result ≡ fec.na g.now }
{
    byte_at(g, 26)
}

pub fn snbase_ext(g: &[u8]) -> u8
    ensures { result ≡ fec.snbase_ext g.now }
{
    byte_at(g, 27)
}

// The step from one member of a group to the next: L down a column, 1 along a row.
pub fn offset_of(stream: u8, l: usize) -> usize
    ensures { result ≡ fec.offset_of stream l }
{
    if stream == COLUMN { l } else { 1 }
}

// The number of members of a group: D in a column, L in a row.
pub fn na_of(stream: u8, l: usize, d: usize) -> usize
    ensures { result ≡ fec.na_of stream l d }
{
    if stream == COLUMN { d } else { l }
}

// One value xored over na members.
pub fn by_na(na: usize, v: usize) -> usize
    ensures { result ≡ fec.by_na na v }
{
    if na % 2 == 0 { 0 } else { v }
}

// ---- lengths of payloads

// A length as a size.
pub fn wide(n: u16) -> usize
    ensures { (result ≡ n) × (result < 65536) }
{
    n as usize
}

// Whole units, 188 or 204 as P has it; each division is by a constant.
fn in_units(p: usize, n: usize) -> bool
    ensures { result ≡ eqb (n % unit p) 0 }
{
    if p % 188 == 0 {
        n % 188 == 0
    } else {
        n % 204 == 0
    }
}

// One or more whole units up to a number of bytes.
pub fn whole_units(p: usize, most: usize, n: usize) -> bool
    ensures { result ≡ whole_units p most n }
{
    (1 <= n) & (n <= most) & in_units(p, n)
}

// A length that a payload may have.
pub fn good_length(p: usize, n: usize) -> bool
    ensures { result ≡ good_length p n }
{
    whole_units(p, p, n)
}

// ---- refusals 6 to 12

// 7: version not 2, or P, X, CC or M not zero.
pub fn bad_rtp(g: &[u8]) -> bool
    ensures { result ≡ bad_rtp g.now }
{
    (version(g) != 2)
        | (padding(g) != 0)
        | (extension(g) != 0)
        | (csrc_count(g) != 0)
        | (marker(g) != 0)
}

// 10: E not 1, or mask, X, type, index or SNBase ext not zero.
pub fn bad_fec(g: &[u8]) -> bool
    ensures { result ≡ bad_fec g.now }
{
    (e_bit(g) != 1)
        | (mask(g) != 0)
        | (x_bit(g) != 0)
        | (fec_type(g) != 0)
        | (index(g) != 0)
        | (snbase_ext(g) != 0)
}

// 11: PT recovery not the only value it can have, by the profile's NA.
pub fn bad_recovery(g: &[u8], stream: u8, l: usize, d: usize) -> bool
    ensures { result ≡ bad_recovery stream l d g.now }
{
    let na = na_of(stream, l, d);
    type_recovery(g) as usize != by_na(na, MEDIA_TYPE as usize)
}

// A row where L is below 4.
pub fn no_row(stream: u8, l: usize) -> bool
    ensures { result ≡ no_row stream l }
{
    (stream != COLUMN) & (l < 4)
}

// 12: D bit not that of the port, Offset or NA not the profile's, or a row where L is below 4.
pub fn bad_profile(g: &[u8], stream: u8, l: usize, d: usize) -> bool
    ensures { result ≡ bad_profile stream l d g.now }
{
    (d_bit(g) != stream)
        | (offset(g) as usize != offset_of(stream, l))
        | (na(g) as usize != na_of(stream, l, d))
        | no_row(stream, l)
}

// Refusals 6 to 9 of a media datagram, in this order.
pub fn check_media(g: &[u8], p: usize) -> Result<(), Refusal>
    ensures { fault_of result ≡ first (media_tests p g.now) }
{
    if g.len() < RTP_HEADER {
        return Err(Refusal::NoHeader);
    }
    if bad_rtp(g) {
        return Err(Refusal::BadRtp);
    }
    if payload_type(g) != MEDIA_TYPE {
        return Err(Refusal::OtherType);
    }
    if !good_length(p, g.len() - RTP_HEADER) {
        return Err(Refusal::BadLength);
    }
    Ok(())
}

// Refusals 6 to 12 of a parity datagram on the port of a stream, in this order.
pub fn check_parity(g: &[u8], stream: u8, l: usize, d: usize, p: usize) -> Result<(), Refusal>
    ensures { fault_of result ≡ first (parity_tests stream l d p g.now) }
{
    if g.len() < PARITY_HEADERS {
        return Err(Refusal::NoHeader);
    }
    if bad_rtp(g) {
        return Err(Refusal::BadRtp);
    }
    if payload_type(g) != PARITY_TYPE {
        return Err(Refusal::OtherType);
    }
    if !good_length(p, g.len() - PARITY_HEADERS) {
        return Err(Refusal::BadLength);
    }
    if bad_fec(g) {
        return Err(Refusal::BadFec);
    }
    if bad_recovery(g, stream, l, d) {
        return Err(Refusal::BadRecovery);
    }
    if bad_profile(g, stream, l, d) {
        return Err(Refusal::OtherProfile);
    }
    Ok(())
}

// ---- writing

// The higher byte of a number of 16 bits.
pub fn high(x: u16) -> u8
    ensures { result ≡ x / 256 % 256 }
{
    x.to_be_bytes()[0]
}

// The lower byte of a number of 16 bits.
pub fn low(x: u16) -> u8
    ensures { result ≡ x % 256 }
{
    x.to_be_bytes()[1]
}

// Four bytes from a place on.
pub fn put4(out: &mut [u8], at: usize, a: u8, b: u8, c: u8, d: u8)
    requires { at + 4 ≤ length out.old }
    ensures { out.new ≡ sets out.old at (a ∷ b ∷ c ∷ d ∷ []) }
{
    out[at] = a;
    out[at + 1] = b;
    out[at + 2] = c;
    out[at + 3] = d;
}

// A number of 32 bits from a place on, the highest byte first.
pub fn put32(out: &mut [u8], at: usize, x: u32)
    requires { at + 4 ≤ length out.old }
    ensures { out.new ≡ sets out.old at (bytes32 x) }
{
    put4(
        out,
        at,
        (x / 16777216 % 256) as u8,
        (x / 65536 % 256) as u8,
        (x / 256 % 256) as u8,
        (x % 256) as u8,
    );
}

// An RTP header at the front of a buffer: version 2; P, X, CC and M zero.
pub fn write_rtp(out: &mut [u8], kind: u8, number: u16, stamp: u32, source: u32)
    requires { 12 ≤ length out.old }
    ensures { out.new ≡ sets out.old 0 (header.rtp_header kind number stamp source) }
{
    put4(out, 0, 128, kind, high(number), low(number));
    put32(out, 4, stamp);
    put32(out, 8, source);
}

// A parity header behind the RTP header: E is 1; mask, X, type, index and SNBase ext zero.
pub fn write_fec(
    out: &mut [u8],
    start: u16,
    size: u16,
    kind: u8,
    stamps: u32,
    stream: u8,
    offset: u8,
    na: u8,
)
    requires { (28 ≤ length out.old) × (kind ≤ 127) × (stream ≤ 1) }
    ensures { out.new ≡ sets out.old 12 (fec.fec_bytes start size kind stamps stream offset na) }
{
    put4(out, 12, high(start), low(start), high(size), low(size));
    put4(out, 16, 128 + kind, 0, 0, 0);
    put32(out, 20, stamps);
    put4(out, 24, stream * 64, offset, na, 0);
}

// Both headers of the parity packet of a group of a stream, by the profile, with the recovery of its lengths and timestamps.
pub fn write_parity(
    out: &mut [u8],
    stream: u8,
    l: usize,
    d: usize,
    snbase: u16,
    size: u16,
    stamps: u32,
    sequence: u16,
    timestamp: u32,
    ssrc: u32,
)
    requires { (28 ≤ length out.old) × (stream ≤ 1) × (l ≤ 255) × (d ≤ 255) }
    ensures { out.new ≡ sets out.old 0 (header.rtp_header header.parity_type sequence timestamp ssrc ++ fec.fec_header stream l d snbase size stamps) }
{
    let na = na_of(stream, l, d);
    let offset = offset_of(stream, l) as u8;
    let kind = by_na(na, MEDIA_TYPE as usize) as u8;
    write_rtp(out, PARITY_TYPE, sequence, timestamp, ssrc);
    write_fec(out, snbase, size, kind, stamps, stream, offset, na as u8);
}

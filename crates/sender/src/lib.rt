#![tactic(auto)]

// A sender that keeps up (request 4): media datagrams come in one by one, and with each the row and the column parity that is due
// goes out. It keeps running sums in lent room, two for each column and one for the row, and never the matrix. Every call ends on
// every input; a refused one changes nothing.
//
// A packet costs two passes over its payload, into the sum of its row and into that of its column; a parity packet costs one
// copy of its payload.
ghost use Rattle.std.specs.Prelude.{◌≡◌, ◌||◌, ◌+◌, ◌*◌, ◌≤◌, ◌<◌, leb, length, get_or, take};
ghost use Rattle.answer.specs.First.{first};
ghost use Rattle.answer.specs.Refused.{refusal_number, fault_of};
ghost use Rattle.sequence.specs.Lists.{all};
ghost use Rattle.schedule.specs.Schedule.{matrices};
ghost use Rattle.sender.specs.Sums.{lent, room_of, slots, alone, join};
ghost use Rattle.sender.specs.Call.{short_room, short_output, astray, cleared, fresh, opened, packet, column_out, row_out, absorbed, next_sender, offered, set_up_tests, open_tests, standing_tests, offer_tests};
ghost use Rattle.sender.specs.Ready.{out_of_turn, SetUp, Roomy, Ready, Slot, Payload};

use answer::Refusal;
use schedule::Arrangement;

// A sender's value: its set-up numbers, and where it stands.
#[repr(C)]
#[derive(Clone, Copy, Default)]
pub struct Sender {
    // number of the first packet
    pub first: u16,
    // packets taken, modulo 65,536
    pub taken: u16,
    // 0 aligned, any other number staggered
    pub arrangement: u8,
    // columns and rows of the parity matrix
    pub l: usize,
    pub d: usize,
    // most bytes of a payload
    pub p: usize,
    // the packets taken, as a number below three matrices
    pub at: usize,
}

// What a parity packet takes from the caller.
#[repr(C)]
#[derive(Clone, Copy)]
pub struct Outer {
    pub sequence: u16,
    pub timestamp: u32,
    pub ssrc: u32,
}

// 0, how many bytes were written to the row and to the column output, and the next sender value; or the refusal, with none written.
#[repr(C)]
#[derive(Clone, Copy)]
pub struct Sent {
    pub number: u32,
    pub row: usize,
    pub column: usize,
    pub sender: Sender,
}

// The sums of a sender's room, lent to be read. Where they are written the four slices stand by themselves: a struct lent with slices lent
// inside would put both loans into each clause.
#[derive(Clone, Copy)]
struct Sums<'a> {
    payloads: &'a [u8],
    timestamps: &'a [u32],
    lengths: &'a [u16],
    longest: &'a [u16],
}

// ---- one packet into one sum

// A packet comes into the sum of a slot, as the first of its group or as a later one.
fn join(
    payloads: &mut [u8],
    timestamps: &mut [u32],
    lengths: &mut [u16],
    longest: &mut [u16],
    slot: usize,
    first: bool,
    datagram: &[u8],
    p: usize,
)
    requires { Slot slot p (lent payloads.old timestamps.old lengths.old longest.old) × Payload p (length datagram.now) }
    ensures { lent payloads.new timestamps.new lengths.new longest.new
        ≡ join p (lent payloads.old timestamps.old lengths.old longest.old) slot first (alone p datagram.now) }
{
    let at = slot * p;
    let payload = &datagram[rtp::RTP_HEADER..];
    let size = payload.len() as u16;
    let stamp = rtp::timestamp(datagram);
    if first {
        xor::lay(&mut payloads[at..at + p], payload);
        timestamps[slot] = stamp;
        lengths[slot] = size;
        longest[slot] = size;
    } else {
        xor::xor_into(&mut payloads[at..at + p], payload);
        timestamps[slot] ^= stamp;
        lengths[slot] ^= size;
        longest[slot] = longest[slot].max(size);
    }
}

// ---- refusals

// 4: a part of the room is shorter than the sender needs.
fn short_room(s: Sender, sums: Sums) -> bool
    requires { SetUp s }
    ensures { result ≡ short_room s (room_of sums.entry) }
{
    let n = 2 * s.l + 1;
    (sums.payloads.len() < n * s.p)
        | (sums.timestamps.len() < n)
        | (sums.lengths.len() < n)
        | (sums.longest.len() < n)
}

// 4: a part of the room, or an output by its length, is shorter than the sender needs.
fn is_short(s: Sender, sums: Sums, row: usize, column: usize) -> bool
    requires { SetUp s }
    ensures { result ≡ (short_room s (room_of sums.entry) || short_output s row || short_output s column) }
{
    let need = rtp::PARITY_HEADERS + s.p;
    short_room(s, sums) | (row < need) | (column < need)
}

// Each of the first n lengths is p at most.
fn all_within(longest: &[u16], n: usize, p: u16) -> bool
    requires { n ≤ length longest.now }
    ensures { result ≡ all (λ i. leb i p) (take n longest.now) }
{
    longest[..n].iter().all(|&size| size <= p)
}

// 5: the counter past the profile, or a longest length past P.
fn is_astray(s: Sender, longest: &[u16]) -> bool
    requires { SetUp s × (slots s.l ≤ length longest.now) }
    ensures { result ≡ astray s longest.now }
{
    (s.at >= schedule::MATRICES * (s.l * s.d)) | !all_within(longest, 2 * s.l + 1, s.p as u16)
}

// Refusals 1 and 2, in this order.
fn check_set_up(s: Sender) -> Result<(), Refusal>
    ensures { fault_of result ≡ first (set_up_tests s) }
{
    if window::bad_profile(s.l, s.d) {
        return Err(Refusal::BadMatrix);
    }
    if window::bad_payload(s.p) {
        return Err(Refusal::BadPayload);
    }
    Ok(())
}

// Refusals 1, 2, 4 and 5, in this order.
fn check_standing(s: Sender, sums: Sums, row: usize, column: usize) -> Result<(), Refusal>
    ensures { fault_of result ≡ first (standing_tests s (room_of sums.entry) row column) }
{
    check_set_up(s)?;
    if is_short(s, sums, row, column) {
        return Err(Refusal::TooShort);
    }
    if is_astray(s, sums.longest) {
        return Err(Refusal::Disorder);
    }
    Ok(())
}

// 13: another number than the next.
fn out_of_turn(s: Sender, datagram: &[u8]) -> bool
    ensures { result ≡ out_of_turn s datagram.now }
{
    rtp::sequence_number(datagram) != sequence::next(s.first, s.taken)
}

// Refusals 1 to 9 and 13 of an offer, in this order.
fn check_offer(
    s: Sender,
    datagram: &[u8],
    sums: Sums,
    row: usize,
    column: usize,
) -> Result<(), Refusal>
    ensures { fault_of result ≡ first (offer_tests s datagram.now (room_of sums.entry) row column) }
{
    check_standing(s, sums, row, column)?;
    rtp::check_media(datagram, s.p)?;
    if out_of_turn(s, datagram) {
        return Err(Refusal::Outside);
    }
    Ok(())
}

// ---- what goes out

// The parity packet of the group of a stream that starts `back` packets before the next one, of the sum in a slot, written to
// the front of `out`; how many bytes that were.
fn send(
    s: Sender,
    o: Outer,
    stream: u8,
    back: usize,
    slot: usize,
    sums: Sums,
    out: &mut [u8],
) -> usize
    requires { SetUp s × (stream ≤ 1) × (back < 300) × Slot slot s.p (room_of sums) × (get_or sums.longest.now slot 0 ≤ s.p) × (28 + s.p ≤ length out.old) }
    ensures { record { bytes = result; out = out.new } ≡ packet s o stream back slot (room_of sums.entry) out.old }
{
    let from = slot * s.p;
    let to = rtp::PARITY_HEADERS;
    let size = sums.longest[slot] as usize;
    let snbase = sequence::position(back as u16, sequence::next(s.first, s.taken));
    out[to..to + size].copy_from_slice(&sums.payloads[from..from + size]);
    rtp::write_parity(
        out,
        stream,
        s.l,
        s.d,
        snbase,
        sums.lengths[slot],
        sums.timestamps[slot],
        o.sequence,
        o.timestamp,
        o.ssrc,
    );
    to + size
}

// The column that goes out with the next packet, if one does; how many bytes that are.
fn send_column(s: Sender, o: Outer, sums: Sums, out: &mut [u8]) -> usize
    requires { Ready s (room_of sums) × (28 + s.p ≤ length out.old) }
    ensures { record { bytes = result; out = out.new } ≡ column_out s o (room_of sums.entry) out.old }
{
    match schedule::column_out(Arrangement::from(s.arrangement), s.l, s.d, s.at) {
        Some(c) => send(s, o, rtp::COLUMN, c.back, c.slot, sums, out),
        None => 0,
    }
}

// The row that goes out with the packet that came last into the sums, if one does; how many bytes that are.
fn send_row(s: Sender, o: Outer, sums: Sums, out: &mut [u8]) -> usize
    requires { Ready s (room_of sums) × (28 + s.p ≤ length out.old) }
    ensures { record { bytes = result; out = out.new } ≡ row_out s o (room_of sums.entry) out.old }
{
    let l = s.l;
    if rtp::no_row(rtp::ROW, l) | (s.at % l + 1 != l) {
        return 0;
    }
    send(s, o, rtp::ROW, l - 1, 2 * l, sums, out)
}

// The next packet comes into the sum of its row and into that of its column. The row comes first: the processor works out the
// column meanwhile.
fn absorb(
    s: Sender,
    datagram: &[u8],
    payloads: &mut [u8],
    timestamps: &mut [u32],
    lengths: &mut [u16],
    longest: &mut [u16],
)
    requires { Ready s (lent payloads.old timestamps.old lengths.old longest.old) × Payload s.p (length datagram.now) }
    ensures { lent payloads.new timestamps.new lengths.new longest.new
        ≡ absorbed s datagram.now (lent payloads.old timestamps.old lengths.old longest.old) }
{
    let l = s.l;
    let c = schedule::column_in(Arrangement::from(s.arrangement), l, s.d, s.at);
    join(
        payloads,
        timestamps,
        lengths,
        longest,
        2 * l,
        s.at % l == 0,
        datagram,
        s.p,
    );
    join(
        payloads, timestamps, lengths, longest, c.slot, c.first, datagram, s.p,
    );
}

// ---- opening

// Refusals 1, 2 and 4 of an opening, in this order.
fn check_open(s: Sender, sums: Sums) -> Result<(), Refusal>
    ensures { fault_of result ≡ first (open_tests s (room_of sums.entry)) }
{
    check_set_up(s)?;
    if short_room(s, sums) {
        return Err(Refusal::TooShort);
    }
    Ok(())
}

// All slots that a sender needs set to zero.
fn clear(
    s: Sender,
    payloads: &mut [u8],
    timestamps: &mut [u32],
    lengths: &mut [u16],
    longest: &mut [u16],
)
    requires { SetUp s × Roomy s (lent payloads.old timestamps.old lengths.old longest.old) }
    ensures { lent payloads.new timestamps.new lengths.new longest.new
        ≡ cleared s (lent payloads.old timestamps.old lengths.old longest.old) }
{
    let n = 2 * s.l + 1;
    payloads[..n * s.p].fill(0);
    timestamps[..n].fill(0);
    lengths[..n].fill(0);
    longest[..n].fill(0);
}

// The answer to a refused call, by the number that the C interface gives the refusal: nothing written, and the next sender value.
fn refused(refusal: Refusal, sender: Sender) -> Sent
    ensures { result ≡ record { number = refusal_number refusal; row = 0; column = 0; sender = sender } }
{
    Sent {
        number: u32::from(u8::from(refusal)),
        row: 0,
        column: 0,
        sender,
    }
}

impl Sender {
    // A sender over lent room: cleared, with nothing taken; or a refusal, and the room as it was.
    pub fn open(
        first: u16,
        arrangement: u8,
        l: usize,
        d: usize,
        p: usize,
        payloads: &mut [u8],
        timestamps: &mut [u32],
        lengths: &mut [u16],
        longest: &mut [u16],
    ) -> Sent
        ensures { record { sent = result; room = lent payloads.new timestamps.new lengths.new longest.new }
            ≡ opened (fresh first arrangement l d p) (lent payloads.old timestamps.old lengths.old longest.old) }
    {
        let s = Sender {
            first,
            taken: 0,
            arrangement,
            l,
            d,
            p,
            at: 0,
        };
        let sums = Sums {
            payloads,
            timestamps,
            lengths,
            longest,
        };
        if let Err(refusal) = check_open(s, sums) {
            return refused(refusal, Sender::default());
        }
        clear(s, payloads, timestamps, lengths, longest);
        Sent {
            number: 0,
            row: 0,
            column: 0,
            sender: s,
        }
    }

    // The sender value after a packet.
    fn onward(self) -> Sender
        requires { SetUp self × (self.at < matrices * (self.l * self.d)) }
        ensures { result ≡ next_sender self }
    {
        Sender {
            taken: sequence::next(self.taken, 1),
            at: schedule::next_at(self.l * self.d, self.at),
            ..self
        }
    }

    // A media datagram is offered. With it goes out, to the front of an output each, the column that is due, before the packet
    // comes into the sums, and the row that it ends.
    pub fn media(
        self,
        datagram: &[u8],
        row: Outer,
        column: Outer,
        payloads: &mut [u8],
        timestamps: &mut [u32],
        lengths: &mut [u16],
        longest: &mut [u16],
        row_out: &mut [u8],
        column_out: &mut [u8],
    ) -> Sent
        ensures { record { sent = result; room = lent payloads.new timestamps.new lengths.new longest.new; row = row_out.new; column = column_out.new }
            ≡ offered self datagram.now row column (lent payloads.old timestamps.old lengths.old longest.old) row_out.old column_out.old }
    {
        let before = Sums {
            payloads,
            timestamps,
            lengths,
            longest,
        };
        if let Err(refusal) = check_offer(self, datagram, before, row_out.len(), column_out.len()) {
            return refused(refusal, self);
        }
        let columns = send_column(self, column, before, column_out);
        absorb(self, datagram, payloads, timestamps, lengths, longest);
        let after = Sums {
            payloads,
            timestamps,
            lengths,
            longest,
        };
        let rows = send_row(self, row, after, row_out);
        Sent {
            number: 0,
            row: rows,
            column: columns,
            sender: self.onward(),
        }
    }
}

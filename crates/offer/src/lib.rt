#![tactic(auto)]

// Offers: a media or a parity datagram taken in, or refused, over the rows of a hand.
ghost use Rattle.std.specs.Prelude.{◌≡◌, true, false, List, [], ◌∷◌, ℕ, ◌+◌, ◌*◌, ◌≤◌, ◌<◌, length, get_or, drop, IfOk};
ghost use Rattle.answer.specs.First.{first};
ghost use Rattle.answer.specs.Refused.{fault_of};
ghost use Rattle.sequence.specs.Lists.{up_to, any};
ghost use Rattle.rtp.specs.Rtp.{rtp_header_size, sequence_number};
ghost use Rattle.rtp.specs.Fec.{parity_header_size};
ghost use Rattle.rtp.specs.Fec as fec;
ghost use Rattle.window.specs.declared.Record.{Record};
ghost use Rattle.window.specs.Limits.{most_records, most_counted};
ghost use Rattle.window.specs.Store.{stored};
ghost use Rattle.window.specs.Bounds.{SetUp};
ghost use Rattle.window.specs.Group.{position, group, is_missing, missing};
ghost use Rattle.window.specs.Look.{look};
ghost use Rattle.window.specs.Order.{used};
ghost use Rattle.window.specs.Plain.{Inside};
ghost use Rattle.calls.specs.Accept.{accept_media, accept_parity};
ghost use Rattle.calls.specs.Call.{begun, media_place_tests, contradicts, offered_media, offered_parity};
ghost use Rattle.table.specs.View.{slot_at, it_at};
ghost use Rattle.table.specs.Hold.{gap_from};
ghost use Rattle.order.specs.Stands.{Stood};
ghost use Rattle.engine.specs.Round.{Serves};
ghost use Rattle.offer.specs.Rows.{Fitting, row_holds, row_same, Found};
ghost use Rattle.offer.specs.Offer.{Went, Accepted, Kept, Offer};

use answer::{Counts, Refusal};
use group::Recovery;
use table::Row;
use window::{Look, Record, Sizes, Window};

// What a packet that is taken in gives back: the counts and the next window value; whether the records differ from what they were;
// and the record that is still to go into the hand, if one is held.
#[derive(Clone, Copy)]
pub struct Offered {
    pub counts: Counts,
    pub window: Window,
    pub changed: bool,
    pub held: Option<Record>,
}

// A packet taken in that goes into no record.
fn taken(window: Window, rebuilt: usize, spoilt: usize, changed: bool) -> Offered
    ensures { result ≡ record { counts = record { count = rebuilt; spoilt = spoilt }; window = window; changed = changed; held = None } }
{
    Offered {
        counts: Counts {
            count: rebuilt,
            spoilt,
        },
        window,
        changed,
        held: None,
    }
}

// Refusals 1 to 5, in this order. The table has len records.
fn check_standing(
    w: Window,
    media: &[u8],
    timestamps: &[u32],
    lengths: &[u16],
    marks: &[u8],
    parity: &[u8],
    rows: &mut [Row],
    len: usize,
) -> Result<(), Refusal>
    ensures { Stood w (record { media = length media.now; timestamps = length timestamps.now; lengths = length lengths.now; marks = length marks.now; parity = length parity.now; records = len }) false lengths.now marks.now rows.old rows.new (fault_of result) }
{
    let z = Sizes::of(media, timestamps, lengths, marks, parity, len);
    order::check_standing(w, z, false, lengths, marks, rows)
}

// A packet was taken in, with its own counts: what it makes ready rebuilds.
fn go_on(
    v: Window,
    rebuilt: usize,
    spoilt: usize,
    media: &mut [u8],
    timestamps: &mut [u32],
    lengths: &mut [u16],
    marks: &mut [u8],
    parity: &mut [u8],
    rows: &mut [Row],
) -> Offered
    requires { Serves v (record { media = media.old; timestamps = timestamps.old; lengths = lengths.old; marks = marks.old; parity = parity.old; rows = rows.old }) × (v.present + v.in_use ≤ most_counted) × (rebuilt ≤ 1) × (spoilt ≤ 1) }
    ensures { Went v (record { media = media.old; timestamps = timestamps.old; lengths = lengths.old; marks = marks.old; parity = parity.old; rows = rows.old }) rebuilt spoilt result
        (record { media = media.new; timestamps = timestamps.new; lengths = lengths.new; marks = marks.new; parity = parity.new; rows = rows.new }) }
{
    let r = engine::settle(v, media, timestamps, lengths, marks, parity, rows);
    let window = r.window;
    taken(
        window,
        rebuilt + r.rebuilt,
        spoilt + r.spoilt,
        r.rebuilt + r.spoilt != 0,
    )
}

// ---- media

// Refusals 13 to 15 of a media datagram, or the position that it has, which is missing.
fn check_media_place(
    w: Window,
    datagram: &[u8],
    media: &[u8],
    timestamps: &[u32],
    lengths: &[u16],
    marks: &[u8],
) -> Result<usize, Refusal>
    requires { SetUp w × Fitting rtp_header_size w.p datagram.now × (w.n * w.p ≤ length media.now) × (w.n ≤ length timestamps.now) × (w.n ≤ length lengths.now) × (w.n ≤ length marks.now) }
    ensures fault { (parity : List ℕ) (t : List Record) → fault_of result ≡ first (media_place_tests w datagram.now (stored media.now timestamps.now lengths.now marks.now parity t)) }
    ensures place { IfOk result (λ i. (i ≡ position w (sequence_number datagram.now)) × (i < w.n) × (get_or marks.now i 0 ≡ 0)) }
{
    let i = sequence::position(w.base, rtp::sequence_number(datagram)) as usize;
    if w.n <= i {
        return Err(Refusal::Outside);
    }
    if marks[i] == 0 {
        return Ok(i);
    }
    let payload = &datagram[rtp::RTP_HEADER..];
    let size = payload.len();
    if rtp::wide(lengths[i]) != size {
        return Err(Refusal::Differs);
    }
    let at = i * w.p;
    if (timestamps[i] == rtp::timestamp(datagram)) & xor::same(&media[at..at + size], payload) {
        return Err(Refusal::Repeated);
    }
    Err(Refusal::Differs)
}

// A media packet that no refusal applies to becomes present, and what it makes ready rebuilds. With no record in use, as it is most of
// the time, there is nothing to settle, and the window value is not handed on through memory.
fn accept_media(
    w: Window,
    i: usize,
    datagram: &[u8],
    media: &mut [u8],
    timestamps: &mut [u32],
    lengths: &mut [u16],
    marks: &mut [u8],
    parity: &mut [u8],
    rows: &mut [Row],
) -> Offered
    requires { Serves w (record { media = media.old; timestamps = timestamps.old; lengths = lengths.old; marks = marks.old; parity = parity.old; rows = rows.old }) × Fitting rtp_header_size w.p datagram.now
        × (i ≡ position w (sequence_number datagram.now)) × (i < w.n) × (get_or marks.old i 0 ≡ 0) × (w.present ≤ w.n) × (w.in_use ≤ most_records) }
    ensures { Accepted (λ s. accept_media datagram.now (begun w s)) w.k (record { media = media.old; timestamps = timestamps.old; lengths = lengths.old; marks = marks.old; parity = parity.old; rows = rows.old }) result
        (record { media = media.new; timestamps = timestamps.new; lengths = lengths.new; marks = marks.new; parity = parity.new; rows = rows.new }) × (result.held ≡ None) }
{
    let at = i * w.p;
    let payload = &datagram[rtp::RTP_HEADER..];
    xor::lay(&mut media[at..at + w.p], payload);
    timestamps[i] = rtp::timestamp(datagram);
    lengths[i] = payload.len() as u16;
    marks[i] = 1;
    if w.in_use == 0 {
        return taken(engine::recounted(w, w.present + 1, w.in_use), 0, 0, false);
    }
    let v = engine::recounted(w, w.present + 1, w.in_use);
    engine::look_again(v, i, marks, rows);
    go_on(v, 0, 0, media, timestamps, lengths, marks, parity, rows)
}

// ---- parity

// Row i is in use and holds the group of a stream that starts at SNBase.
fn row_holds(rows: &[Row], i: usize, stream: u8, snbase: u16) -> bool
    requires { i < length rows.now }
    ensures { result ≡ row_holds rows.now stream snbase i }
{
    let v = rows[i].it;
    (v.in_use == 1) & ((v.stream == stream) & (v.snbase == snbase))
}

// One of the rows holds the group.
fn any_holds(rows: &[Row], stream: u8, snbase: u16) -> bool
    ensures { result ≡ any (row_holds rows.now stream snbase) (up_to (length rows.now)) }
{
    let mut found = false;
    for i in 0..rows.len() {
        found |= row_holds(rows, i, stream, snbase);
    }
    found
}

// Row i holds the group of a parity datagram with the same recovery.
fn row_same(w: Window, stream: u8, datagram: &[u8], parity: &[u8], rows: &[Row], i: usize) -> bool
    requires { (i < length rows.now) × (used (it_at rows.now i) ≡ true → slot_at rows.now i < w.k) × (w.k * w.p ≤ length parity.now) × Fitting parity_header_size w.p datagram.now }
    ensures { result ≡ row_same w.p parity.now rows.now stream datagram.now i }
{
    if !row_holds(rows, i, stream, rtp::snbase(datagram)) {
        return false;
    }
    let v = rows[i].it;
    if v.timestamp_recovery != rtp::timestamp_recovery(datagram) {
        return false;
    }
    if v.length_recovery != rtp::length_recovery(datagram) {
        return false;
    }
    let payload = &datagram[rtp::PARITY_HEADERS..];
    let size = payload.len();
    if rtp::wide(v.payload_length) != size {
        return false;
    }
    let at = rows[i].slot as usize * w.p;
    xor::same(&parity[at..at + size], payload)
}

// One of the rows holds the group of a parity datagram with the same recovery.
fn any_same(w: Window, stream: u8, datagram: &[u8], parity: &[u8], rows: &[Row]) -> bool
    requires { ((i : ℕ) → i < length rows.now → used (it_at rows.now i) ≡ true → slot_at rows.now i < w.k) × (w.k * w.p ≤ length parity.now) × Fitting parity_header_size w.p datagram.now }
    ensures { result ≡ any (row_same w.p parity.now rows.now stream datagram.now) (up_to (length rows.now)) }
{
    let mut found = false;
    for i in 0..rows.len() {
        found |= row_same(w, stream, datagram, parity, rows, i);
    }
    found
}

// What a parity datagram carries.
fn recovery_of(datagram: &[u8]) -> Recovery<'_>
    requires { parity_header_size ≤ length datagram.now }
    ensures { (result.timestamp ≡ fec.timestamp_recovery datagram.now) × (result.length ≡ fec.length_recovery datagram.now) × (result.payload.now ≡ drop parity_header_size datagram.now) }
{
    Recovery {
        timestamp: rtp::timestamp_recovery(datagram),
        length: rtp::length_recovery(datagram),
        payload: &datagram[rtp::PARITY_HEADERS..],
    }
}

// The group of a parity datagram is found whole, and defines another recovery. Never inlined: the sum of the group lies on the
// stack only while it is compared, and not below all that an offer does then.
#[inline(never)]
fn contradicts(
    w: Window,
    stream: u8,
    datagram: &[u8],
    found: Look,
    media: &[u8],
    timestamps: &[u32],
    lengths: &[u16],
    marks: &[u8],
) -> bool
    requires { SetUp w × Inside w stream (fec.snbase datagram.now) × (found ≡ look marks.now (group w stream (fec.snbase datagram.now))) × Fitting parity_header_size w.p datagram.now
        × (w.n * w.p ≤ length media.now) × (w.n ≤ length timestamps.now) × (w.n ≤ length lengths.now) × (w.n ≤ length marks.now) × ((i : ℕ) → i < w.n → is_missing marks.now i ≡ false → get_or lengths.now i 0 ≤ w.p) }
    ensures { (parity : List ℕ) (t : List Record) → result ≡ contradicts w stream datagram.now (stored media.now timestamps.now lengths.now marks.now parity t) }
{
    if window::lacks(found) {
        return false;
    }
    !group::defines(
        w,
        stream,
        rtp::snbase(datagram),
        recovery_of(datagram),
        media,
        timestamps,
        lengths,
        marks,
    )
}

// Refusals 13 to 15, 18 and 16 of a parity datagram, or what a look at its group finds.
fn check_parity_place(
    w: Window,
    stream: u8,
    datagram: &[u8],
    media: &[u8],
    timestamps: &[u32],
    lengths: &[u16],
    marks: &[u8],
    parity: &[u8],
    rows: &[Row],
) -> Result<Look, Refusal>
    requires { SetUp w × (w.n ≤ length marks.now) × (w.k * w.p ≤ length parity.now) × ((i : ℕ) → i < length rows.now → used (it_at rows.now i) ≡ true → slot_at rows.now i < w.k) × Fitting parity_header_size w.p datagram.now
        × (w.n * w.p ≤ length media.now) × (w.n ≤ length timestamps.now) × (w.n ≤ length lengths.now) × ((i : ℕ) → i < w.n → is_missing marks.now i ≡ false → get_or lengths.now i 0 ≤ w.p) }
    ensures { Found w stream datagram.now media.now timestamps.now lengths.now marks.now parity.now rows.now result }
{
    let snbase = rtp::snbase(datagram);
    if !w.group_inside(stream, snbase) {
        return Err(Refusal::Outside);
    }
    if any_same(w, stream, datagram, parity, rows) {
        return Err(Refusal::Repeated);
    }
    if any_holds(rows, stream, snbase) {
        return Err(Refusal::Differs);
    }
    let found = group::look(w, marks, stream, snbase);
    if contradicts(
        w, stream, datagram, found, media, timestamps, lengths, marks,
    ) {
        return Err(Refusal::Contradicts);
    }
    if window::waits(found) & !(w.in_use < w.k) {
        return Err(Refusal::NoRecord);
    }
    Ok(found)
}

// A parity packet that finds one packet missing, at position i, rebuilds it, and what that makes ready rebuilds; or it is spoilt, and
// is not held.
fn accept_last(
    w: Window,
    stream: u8,
    i: usize,
    datagram: &[u8],
    media: &mut [u8],
    timestamps: &mut [u32],
    lengths: &mut [u16],
    marks: &mut [u8],
    parity: &mut [u8],
    rows: &mut [Row],
) -> Offered
    requires { Serves w (record { media = media.old; timestamps = timestamps.old; lengths = lengths.old; marks = marks.old; parity = parity.old; rows = rows.old }) × Fitting parity_header_size w.p datagram.now
        × Inside w stream (fec.snbase datagram.now) × (missing marks.old (group w stream (fec.snbase datagram.now)) ≡ i ∷ []) × (w.present ≤ w.n) × (w.in_use ≤ most_records) }
    ensures { Accepted (λ s. accept_parity stream datagram.now (begun w s)) w.k (record { media = media.old; timestamps = timestamps.old; lengths = lengths.old; marks = marks.old; parity = parity.old; rows = rows.old }) result
        (record { media = media.new; timestamps = timestamps.new; lengths = lengths.new; marks = marks.new; parity = parity.new; rows = rows.new }) }
{
    let snbase = rtp::snbase(datagram);
    let good = group::rebuild_at(
        w,
        stream,
        snbase,
        i,
        recovery_of(datagram),
        media,
        timestamps,
        lengths,
        marks,
    );
    if !good {
        return go_on(w, 0, 1, media, timestamps, lengths, marks, parity, rows);
    }
    let v = engine::recounted(w, w.present + 1, w.in_use);
    engine::look_again(v, i, marks, rows);
    go_on(v, 1, 0, media, timestamps, lengths, marks, parity, rows)
}

// A parity packet that finds more missing is held: its payload at the first free record, the record for the caller to put there.
fn accept_held(w: Window, stream: u8, datagram: &[u8], parity: &mut [u8], rows: &[Row]) -> Offered
    requires { (w.k * w.p ≤ length parity.old) × (gap_from 0 rows.now < w.k) × Fitting parity_header_size w.p datagram.now × (w.in_use ≤ most_records) × (w.p ≤ 1428) }
    ensures { Kept w stream datagram.now parity.old rows.now result parity.new }
{
    let at = table::first_free(rows) * w.p;
    let held = &datagram[rtp::PARITY_HEADERS..];
    xor::lay(&mut parity[at..at + w.p], held);
    let window = engine::recounted(w, w.present, w.in_use + 1);
    Offered {
        counts: Counts {
            count: 0,
            spoilt: 0,
        },
        window,
        changed: true,
        held: Some(Record {
            stream,
            in_use: 1,
            snbase: rtp::snbase(datagram),
            timestamp_recovery: rtp::timestamp_recovery(datagram),
            length_recovery: rtp::length_recovery(datagram),
            payload_length: held.len() as u16,
        }),
    }
}

// ---- offers

// A media datagram is offered. The table has len records.
pub fn offer_media(
    w: Window,
    datagram: &[u8],
    media: &mut [u8],
    timestamps: &mut [u32],
    lengths: &mut [u16],
    marks: &mut [u8],
    parity: &mut [u8],
    rows: &mut [Row],
    len: usize,
) -> Result<Offered, Refusal>
    requires { length rows.old ≤ most_records }
    ensures offer { Offer (offered_media w datagram.now) w len (record { media = media.old; timestamps = timestamps.old; lengths = lengths.old; marks = marks.old; parity = parity.old; rows = rows.old }) result
        (record { media = media.new; timestamps = timestamps.new; lengths = lengths.new; marks = marks.new; parity = parity.new; rows = rows.new }) }
    ensures held { IfOk result (λ r. r.held ≡ None) }
{
    check_standing(w, media, timestamps, lengths, marks, parity, rows, len)?;
    rtp::check_media(datagram, w.p)?;
    let i = check_media_place(w, datagram, media, timestamps, lengths, marks)?;
    Ok(accept_media(
        w, i, datagram, media, timestamps, lengths, marks, parity, rows,
    ))
}

// A parity datagram is offered on the port of a stream. The table has len records.
pub fn offer_parity(
    w: Window,
    stream: u8,
    datagram: &[u8],
    media: &mut [u8],
    timestamps: &mut [u32],
    lengths: &mut [u16],
    marks: &mut [u8],
    parity: &mut [u8],
    rows: &mut [Row],
    len: usize,
) -> Result<Offered, Refusal>
    requires { length rows.old ≤ most_records }
    ensures { Offer (offered_parity stream w datagram.now) w len (record { media = media.old; timestamps = timestamps.old; lengths = lengths.old; marks = marks.old; parity = parity.old; rows = rows.old }) result
        (record { media = media.new; timestamps = timestamps.new; lengths = lengths.new; marks = marks.new; parity = parity.new; rows = rows.new }) }
{
    check_standing(w, media, timestamps, lengths, marks, parity, rows, len)?;
    rtp::check_parity(datagram, stream, w.l, w.d, w.p)?;
    let found = check_parity_place(
        w, stream, datagram, media, timestamps, lengths, marks, parity, rows,
    )?;
    let offered = match found {
        Look::None(_) => taken(w, 0, 0, false),
        Look::One(i, _) => accept_last(
            w, stream, i, datagram, media, timestamps, lengths, marks, parity, rows,
        ),
        Look::More(_) => accept_held(w, stream, datagram, parity, rows),
    };
    Ok(offered)
}

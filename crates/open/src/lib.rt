#![tactic(auto)]

// Opening a window: its numbers are tested, and all of the lent store that it needs is set to zero; the records, which are not
// in sight here, are set free by the caller.
ghost use Rattle.std.specs.Prelude.{◌≡◌, List, [], ◌∷◌, ◌++◌, ◌*◌, ◌≤◌, length};
ghost use Rattle.answer.specs.First.{first};
ghost use Rattle.answer.specs.Refused.{fault_of, answer_of};
ghost use Rattle.window.specs.declared.Record.{Record};
ghost use Rattle.window.specs.Limits.{set_up_tests};
ghost use Rattle.window.specs.Store.{stored, short_sizes};
ghost use Rattle.calls.specs.Call.{no_window, wiped, asked, cleared, opened};

use answer::{Counts, Refusal};
use window::{Sizes, Window};

// What opening gives back; the window of a refusal is all zeros, which C gets as well. The caller has to set free the first `records`
// of the table.
#[derive(Clone, Copy)]
pub struct Opened {
    pub answer: Result<Counts, Refusal>,
    pub window: Window,
    pub records: usize,
}

// Refusals 1 to 4, in this order.
fn check_open(w: Window, z: Sizes) -> Result<(), Refusal>
    ensures { fault_of result ≡ first (set_up_tests w ++ ((4, short_sizes w z) ∷ [])) }
{
    w.check_set_up()?;
    if w.short_store(z) {
        return Err(Refusal::TooShort);
    }
    Ok(())
}

// The window that a card asks for, with nothing present and nothing in hand.
fn fresh(base: u16, ssrc: u32, l: usize, d: usize, p: usize, n: usize, k: usize) -> Window
    ensures { result ≡ asked base ssrc l d p n k }
{
    Window {
        base,
        ssrc,
        l,
        d,
        p,
        n,
        k,
        present: 0,
        in_use: 0,
    }
}

// The answer to a refused opening, with a window that no later call takes; no record is to be set free.
fn refused(refusal: Refusal) -> Opened
    ensures { result ≡ record { answer = Err refusal; window = no_window; records = 0 } }
{
    Opened {
        answer: Err(refusal),
        window: Window::default(),
        records: 0,
    }
}

// All that a window needs of the lent store but for the records set to zero: every position missing.
fn clear(
    w: Window,
    media: &mut [u8],
    timestamps: &mut [u32],
    lengths: &mut [u16],
    marks: &mut [u8],
    parity: &mut [u8],
)
    requires { (w.n * w.p ≤ length media.old) × (w.n ≤ length timestamps.old) × (w.n ≤ length lengths.old) × (w.n ≤ length marks.old) × (w.k * w.p ≤ length parity.old) }
    ensures { (t : List Record) → stored media.new timestamps.new lengths.new marks.new parity.new (wiped w.k t)
        ≡ cleared w (stored media.old timestamps.old lengths.old marks.old parity.old t) }
{
    let n = w.n;
    media[..n * w.p].fill(0);
    timestamps[..n].fill(0);
    lengths[..n].fill(0);
    marks[..n].fill(0);
    parity[..w.k * w.p].fill(0);
}

// A window over a lent store: cleared, with nothing present and nothing in hand; or a refusal, and the store as it was.
// The lent table has `len` records.
pub fn open(
    base: u16,
    ssrc: u32,
    l: usize,
    d: usize,
    p: usize,
    n: usize,
    k: usize,
    media: &mut [u8],
    timestamps: &mut [u32],
    lengths: &mut [u16],
    marks: &mut [u8],
    parity: &mut [u8],
    len: usize,
) -> Opened
    ensures { (result.records ≤ len)
        × ((t : List Record) → length t ≡ len → record {
          answer = answer_of result.answer;
          window = result.window;
          store = stored media.new timestamps.new lengths.new marks.new parity.new (wiped result.records t);
        } ≡ opened (asked base ssrc l d p n k) (stored media.old timestamps.old lengths.old marks.old parity.old t)) }
{
    let w = fresh(base, ssrc, l, d, p, n, k);
    let z = Sizes::of(media, timestamps, lengths, marks, parity, len);
    if let Err(refusal) = check_open(w, z) {
        return refused(refusal);
    }
    clear(w, media, timestamps, lengths, marks, parity);
    Opened {
        answer: Ok(Counts {
            count: 0,
            spoilt: 0,
        }),
        window: w,
        records: w.k,
    }
}

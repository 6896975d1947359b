#![tactic(auto)]

// Replays a capture file (02, request 2): what each offer was answered and how many packets it rebuilt, and how many packets are
// there in the end. A file that is none prints 21 alone, a set-up that no window has its number, 1 to 3, and one that the buffers are
// too small for "too big". Where what is printed cannot be written, the error ends the program.
mod input;
mod play;

ghost use Rattle.std.specs.Prelude.{◌≡◌, ◌≤◌, IfOk};

use answer::{Answer, Counts, Refusal};
use capture::Header;
use std::io;
use std::io::{Cursor, Read, Write};
use window::Window;

// Why a file is not replayed.
#[derive(Clone, Copy)]
enum Stop {
    // it is no capture file, or no window has its numbers
    Refused(Refusal),
    // the buffers are too small for it
    TooBig,
}

impl From<Refusal> for Stop {
    fn from(r: Refusal) -> Stop {
        Stop::Refused(r)
    }
}

// What a replay comes to: how many offers there were, and how many packets are present in the end, of how many.
#[derive(Clone, Copy)]
struct Played {
    offers: usize,
    present: usize,
    positions: usize,
}

// The window that a header asks for.
fn window_of(h: Header) -> Window
    ensures { result ≡ record { base = h.base; ssrc = 0; l = h.l; d = h.d; p = h.p; n = h.n; k = h.k; present = 0; in_use = 0 } }
{
    Window {
        base: h.base,
        l: h.l,
        d: h.d,
        p: h.p,
        n: h.n,
        k: h.k,
        ..Window::default()
    }
}

// What stands in the way of a header's numbers, or how many bytes its media need: media and parity share 40,960.
fn judge(h: Header) -> Result<usize, Stop>
    ensures { IfOk result (λ bytes. bytes ≤ 40960) }
{
    window_of(h).check_set_up()?;
    if 40960 < (h.n + h.k) * h.p {
        return Err(Stop::TooBig);
    }
    Ok(h.n * h.p)
}

// Header and table are read; what comes after is read as it is offered, or where something stands in the way as far as it has to be to
// know that it is a capture file.
fn replay(
    file: &mut impl Read,
    answers: &mut [Result<Counts, Refusal>; 512],
) -> Result<Played, Stop> {
    let mut front = [0; 4108];
    let (h, reading) = input::read_front(file, &mut front)?;
    match judge(h) {
        Ok(for_media) => Ok(Played {
            offers: h.count,
            present: play::play(file, &front, h, reading, for_media, answers)?,
            positions: h.n,
        }),
        Err(stop) => {
            input::rest(file, reading)?;
            Err(stop)
        }
    }
}

// The line of each offer: its answer, and how many packets it rebuilt. They go out in one write; a line has seven bytes at most.
fn say_answers(rt: &impl Print, answers: &[Result<Counts, Refusal>]) -> io::Result<()> {
    let mut text = Cursor::new([0; 3584]);
    for a in answers {
        let a = Answer::from(*a);
        writeln!(text, "{} {}", answer::number(a), answer::count(a))?;
    }
    let end = text.position() as usize;
    rt.write_all(&text.get_ref()[..end.min(3584)])
}

// What became of a file.
fn say(
    rt: &impl Print,
    played: Result<Played, Stop>,
    answers: &[Result<Counts, Refusal>; 512],
) -> io::Result<()> {
    match played {
        Ok(p) => {
            say_answers(rt, &answers[..p.offers.min(512)])?;
            println!(rt; "present {} of {}", p.present, p.positions)
        }
        Err(Stop::Refused(r)) => println!(rt; "{}", u8::from(r)),
        Err(Stop::TooBig) => println!(rt; "too big"),
    }
}

fn main(rt: HostRuntime) -> io::Result<()> {
    // the lines are held back until the last byte of the file was read
    let mut answers = [Err(Refusal::NoCapture); 512];
    let played = match input::open_argument(&rt) {
        Some(mut file) => replay(&mut file, &mut answers),
        None => Err(Stop::Refused(Refusal::NoCapture)),
    };
    say(&rt, played, &answers)
}

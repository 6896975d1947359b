// What comes in: the file that the first argument names, read in pieces.
ghost use Rattle.std.specs.Prelude.{◌≤◌, length, IfOk};

use answer::Refusal;
use capture::{Header, Reader, Reading};
use std::io::Read;
use std::rt::{Env, Files};
use std::{fs, str};

// Opens the file that the first argument names, where there is one that can be opened. A path has 4,095 bytes at most.
pub fn open_argument<R: Env + Files>(rt: &R) -> Option<R::File> {
    let mut path = [0; 4096];
    let length = rt.arg(1, &mut path).ok()?;
    let name = str::from_utf8(&path[..length]).ok()?;
    fs::open(rt, name).ok()
}

// Reads on: a piece of which so many bytes were due. Where fewer came the file ended or a read failed, and it is no capture file.
pub fn read_due(reader: Reader, piece: &[u8], due: usize) -> Result<Reading, Refusal> {
    if piece.len() < due {
        return Err(Refusal::NoCapture);
    }
    Ok(load::read(reader, piece))
}

// Reads until buf is full, the file ends or a read fails, and answers how many bytes came. A `while`: each read says how far it came.
pub fn fill(file: &mut impl Read, buf: &mut [u8]) -> usize
    ensures { result ≤ length buf.old }
{
    let mut at = 0;
    while at < buf.len() {
        let got = file.read(&mut buf[at..]).unwrap_or(0);
        if got == 0 {
            return at;
        }
        at += got;
    }
    at
}

// Reads header and table to the front of a file.
pub fn read_front(
    file: &mut impl Read,
    front: &mut [u8; 4108],
) -> Result<(Header, Reading), Refusal>
    ensures { IfOk result (λ r. r.0.count ≤ 512) }
{
    let head = fill(file, &mut front[..12]);
    let h = load::header_of(front);
    if head < 12 || h.number != 0 {
        return Err(Refusal::NoCapture);
    }
    let due = 12 + 8 * h.count;
    let end = 12 + fill(file, &mut front[12..due]);
    let reading = read_due(Reader::default(), &front[..end], due)?;
    Ok((h, reading))
}

// The file ends where a reading stands. Its number and its stage are numbers, since the C interface has them.
fn end(r: Reading) -> Result<(), Refusal> {
    if r.number == 0 {
        Ok(())
    } else {
        Err(Refusal::NoCapture)
    }
}

// Reads the rest of the file, which may be nothing, and refuses it where all of it is no capture file. Each read brings a byte or is
// the last one, and a file is refused, and not read on, after 772,108 bytes at the latest.
pub fn rest(file: &mut impl Read, before: Reading) -> Result<(), Refusal> {
    let mut piece = [0; 1500];
    let mut r = before;
    for _ in 0..1000000u32 {
        if r.reader.stage == 3 {
            return Err(Refusal::NoCapture);
        }
        match file.read(&mut piece) {
            Err(_) => return Err(Refusal::NoCapture),
            Ok(0) => return end(r),
            Ok(n) => r = load::read(r.reader, &piece[..n]),
        }
    }
    Err(Refusal::NoCapture)
}

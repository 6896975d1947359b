#![tactic(auto)]

// Capture files (request 2): what the calls on them take and give back. The format, the calls as definitions and what they promise
// are in specs/; reading is in the crate `load`, writing in `save`.

// Where the reading of a file stands, as the numbers that a card keeps between two pieces. A reading starts with zeros.
#[repr(C)]
#[derive(Clone, Copy, Default)]
pub struct Reader {
    // 0 in the header, 1 in a line, 2 in the bodies, 3 refused: a number, since the C interface has one here
    pub stage: u32,
    pub left: u32,
    pub next: u32,
    pub sum: u32,
    pub at: u32,
    pub size: u32,
}

// 0 where the bytes read so far are a whole capture file, else 21; and where the reading stands.
#[repr(C)]
#[derive(Clone, Copy)]
pub struct Reading {
    pub number: u32,
    pub reader: Reader,
}

// What a header says: 0, the base and the other numbers, or 21 and zeros.
#[repr(C)]
#[derive(Clone, Copy, Default)]
pub struct Header {
    pub number: u32,
    pub base: u16,
    pub count: usize,
    pub l: usize,
    pub d: usize,
    pub p: usize,
    pub n: usize,
    pub k: usize,
}

// What a line of the table says: 0, the port of the entry, where its body starts in the file and how long it is, or 21 and zeros.
#[repr(C)]
#[derive(Clone, Copy, Default)]
pub struct Line {
    pub number: u32,
    pub port: u8,
    pub start: usize,
    pub length: usize,
}

// 0 and how many bytes were written, or the refusal and 0.
#[repr(C)]
#[derive(Clone, Copy)]
pub struct Written {
    pub number: u32,
    pub count: usize,
}

// Where a file is read: bytes of the header and the count so far; in a line, the lines after it, where its body
// must start, all lengths before it, bytes of it read, its length so far; bytes of bodies to come; refused.
// The fields have places and no names: what specs/ says of a stage gives them in this order.
#[derive(Clone, Copy)]
pub enum Stage {
    Head(u32, u32),
    Line(u32, u32, u32, u32, u32),
    Body(u32),
    Refused,
}

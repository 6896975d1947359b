#![tactic(auto)]

// What a call answers: carried out, with its counts, or refused, for one of the reasons of document 01.
ghost use Rattle.std.specs.Prelude.{◌≡◌};
ghost use Rattle.answer.specs.Number.{number_of, count_of, spoilt_of};
ghost use Rattle.answer.specs.Refused.{refusal_number, answer_of};

// Why a call is refused, each reason with the number that document 01 gives it; nothing lent was altered.
#[derive(Clone, Copy, Debug, PartialEq, Eq)]
pub enum Refusal {
    // L, D or the matrix out of its limits
    BadMatrix = 1,
    // P not one to seven transport stream packets
    BadPayload = 2,
    // the matrix does not fit the window, or too many positions, or too few or too many records
    BadRoom = 3,
    // a part of the lent store, or the output, is too short
    TooShort = 4,
    // the store is out of order
    Disorder = 5,
    // a datagram shorter than its headers
    NoHeader = 6,
    // version not 2, or P, X, CC or M not zero
    BadRtp = 7,
    // another payload type
    OtherType = 8,
    // a payload that is not one or more whole transport stream packets up to P
    BadLength = 9,
    // E not 1, or mask, X, type, index or SNBase ext not zero
    BadFec = 10,
    // PT recovery not the only value it can have
    BadRecovery = 11,
    // D bit, Offset or NA not the profile's, or a row where there are none
    OtherProfile = 12,
    // outside the window, or not the next packet of a sender
    Outside = 13,
    // already there, the same
    Repeated = 14,
    // already there, and it differs
    Differs = 15,
    // no record is free
    NoRecord = 16,
    // a packet that is to be read is missing
    Missing = 17,
    // parity that contradicts its group, which is present
    Contradicts = 18,
    // not a capture file, or not the content of one
    NoCapture = 21,
    // a move by none, or by more than the window has
    BadMove = 22,
}

// What a call counts that was carried out: packets rebuilt by an offer, or bytes written, and parity packets that an offer released
// as spoilt.
#[derive(Clone, Copy, Debug, PartialEq, Eq)]
pub struct Counts {
    pub count: usize,
    pub spoilt: usize,
}

impl From<Refusal> for u8 {
    ghost from_gives = { λ r n. n ≡ refusal_number r };

    fn from(r: Refusal) -> u8 {
        r as u8
    }
}

// What a call answers, by document 01's number and counts.
#[derive(Clone, Copy)]
pub enum Answer {
    // Done; the first count is of packets rebuilt by an offer, or of bytes written, the second of parity packets that an offer
    // released as spoilt.
    Done(usize, usize),
    // Refused by this number; nothing lent was altered.
    Refused(u8),
}

impl From<Result<Counts, Refusal>> for Answer {
    ghost from_gives = { λ r a. a ≡ answer_of r };

    fn from(r: Result<Counts, Refusal>) -> Answer {
        match r {
            Ok(c) => Answer::Done(c.count, c.spoilt),
            Err(reason) => Answer::Refused(u8::from(reason)),
        }
    }
}

// The number that document 01 gives the answer: 0, or that of the refusal.
pub fn number(a: Answer) -> u8
    ensures { result ≡ number_of a }
{
    match a {
        Answer::Done(_, _) => 0,
        Answer::Refused(k) => k,
    }
}

// The count that document 01 gives beside the number: 0 for a refusal.
pub fn count(a: Answer) -> usize
    ensures { result ≡ count_of a }
{
    match a {
        Answer::Done(n, _) => n,
        Answer::Refused(_) => 0,
    }
}

// How many parity packets an offer released as spoilt: 0 for a refusal.
pub fn spoilt(a: Answer) -> usize
    ensures { result ≡ spoilt_of a }
{
    match a {
        Answer::Done(_, n) => n,
        Answer::Refused(_) => 0,
    }
}

#![tactic(auto)]

// The night at ten past three: a burst across the wrap of the numbers, and what the parity brings back.
mod side;

ghost use Rattle.std.specs.Prelude.{◌≤◌};

use answer::{Answer, Counts, Refusal};
use side::{Port, Side};
use std::io;

// ---- what is sent, and what is lost

// The number of packet i of the feed.
fn number_of(i: u8) -> u16 {
    sequence::next(side::BASE, i as u16)
}

// The packets lost on the way: of the first matrix a burst of four that crosses the wrap, and two alone; of the second a burst of
// four, of the third four at the corners of a rectangle, which parity cannot give back.
fn lost(i: u8) -> bool {
    matches!(i, 2 | 4..=7 | 13 | 20..=23 | 32 | 34 | 40 | 42)
}

// The media packet i of the feed: its payload starts with the sync byte and goes on in steps of its own.
fn media_packet(i: u8) -> [u8; 200] {
    let mut packet = [0; 200];
    rtp::write_rtp(
        &mut packet,
        rtp::MEDIA_TYPE,
        number_of(i),
        900000 + i as u32 * 1234,
        side::SOURCE,
    );
    let step = i.wrapping_add(i.wrapping_add(1));
    let mut value: u8 = 71;
    for byte in &mut packet[12..] {
        *byte = value;
        value = value.wrapping_add(step);
    }
    packet
}

// The sixteen of the matrix that begins with packet `from` are offered, the last first, but for those that are lost. What they are
// answered is not shown.
fn deliver_all(to: &mut Side, from: u8, lossy: bool)
    requires { from ≤ 64 }
{
    for i in (from..from + 16).rev() {
        if !(lossy && lost(i)) {
            let _ = to.offer(Port::Media, &media_packet(i));
        }
    }
}

// ---- the grid on the screen

// What became of position i.
fn mark_of(i: u8, mark: u8) -> char {
    if mark == 0 {
        '.'
    } else if lost(i) {
        '*'
    } else {
        '+'
    }
}

// A position, with the end of its line behind the last of a row.
fn print_cell(rt: &impl Print, i: u8, mark: u8) -> io::Result<()> {
    print!(rt; "  {:>5} {}", number_of(i), mark_of(i, mark))?;
    if i % 4 == 3 {
        println!(rt)?;
    }
    Ok(())
}

// The positions, as a grid.
fn print_side(rt: &impl Print, side: &Side) -> io::Result<()> {
    for i in 0..16u8 {
        print_cell(rt, i, side.marks[i as usize])?;
    }
    Ok(())
}

// ---- parity

// The SNBase of column or row j.
fn start_of(port: Port, j: u8) -> u16 {
    if port == Port::Column {
        number_of(j)
    } else {
        sequence::member_at(side::BASE, 4, j)
    }
}

// What a parity packet was answered.
fn print_answer(
    rt: &impl Print,
    port: Port,
    start: u16,
    a: Result<Counts, Refusal>,
) -> io::Result<()> {
    let a = Answer::from(a);
    let name = if port == Port::Column {
        "column"
    } else {
        "row"
    };
    println!(rt;
        "  {name:<6} {start:>5}: answer {}, rebuilt {}",
        answer::number(a),
        answer::count(a)
    )
}

// The parity packet of the column or the row that starts at a number, as the sender writes it.
fn parity_packet(sender: &Side, port: Port, start: u16, sequence: u16) -> [u8; 216] {
    if port == Port::Column {
        return sender.column(start, sequence);
    }
    sender.row(start, sequence)
}

// A parity packet is offered, and its answer printed.
fn offer_one(
    rt: &impl Print,
    to: &mut Side,
    port: Port,
    start: u16,
    packet: &[u8],
) -> io::Result<()> {
    let a = to.offer(port, packet);
    print_answer(rt, port, start, a)
}

// The four columns or the four rows go from the sender to the receiver.
fn pass_parity(rt: &impl Print, sender: &Side, to: &mut Side, port: Port) -> io::Result<()> {
    for j in 0..4u8 {
        let start = start_of(port, j);
        let packet = parity_packet(sender, port, start, j as u16);
        offer_one(rt, to, port, start, &packet)?;
    }
    Ok(())
}

// A column that starts so late that its last member, 10, lies outside the window.
fn offer_outside(rt: &impl Print, to: &mut Side) -> io::Result<()> {
    let mut packet = [0; 216];
    rtp::write_rtp(&mut packet, rtp::PARITY_TYPE, 8, 0, 0);
    rtp::write_fec(&mut packet, 65534, 0, 0, 0, rtp::COLUMN, 4, 4);
    offer_one(rt, to, Port::Column, 65534, &packet)
}

// ---- whether the rebuilt packets are the sent ones

// How many of the lost packets are there now.
fn count_rebuilt(to: &Side) -> usize {
    (0..16u8)
        .filter(|i| lost(*i) && to.marks[*i as usize] == 1)
        .count()
}

// The packet of a position, read out on both sides, is the same.
fn same_packet(sender: &Side, to: &Side, i: u8) -> bool {
    let sent = sender.packet(number_of(i));
    sent[0] == 128 && sent == to.packet(number_of(i))
}

// How many of the lost packets are there again, and the same.
fn count_equal(sender: &Side, to: &Side) -> usize {
    (0..16u8)
        .filter(|i| lost(*i) && same_packet(sender, to, *i))
        .count()
}

// ---- the feed goes on, and the window moves

// How many packets of the matrix that begins with packet `from` are lost.
fn count_lost(from: u8) -> usize
    requires { from ≤ 64 }
    ensures { result ≤ 16 }
{
    (from..from + 16).filter(|i| lost(*i)).count()
}

// The four columns or rows of the matrix that begins with packet `from` go from the sender to the receiver: they start `step`
// packets apart.
fn pass_matrix(sender: &Side, to: &mut Side, from: u8, port: Port, step: u8)
    requires { (from ≤ 64) × (step ≤ 4) }
{
    for j in 0..4u8 {
        let packet = parity_packet(sender, port, number_of(from + j * step), 0);
        let _ = to.offer(port, &packet);
    }
}

// The receiver's window moves on by the matrix that begins with packet `from`: how many of its packets were lost, how many of these
// were rebuilt, and how many were missing when they left.
fn move_on(rt: &impl Print, to: &mut Side, from: u8) -> io::Result<()>
    requires { from ≤ 64 }
{
    let missing = count_lost(from);
    let left = answer::count(Answer::from(to.advance()));
    let rebuilt = left.saturating_sub(16usize.saturating_sub(missing));
    let given_up = 16usize.saturating_sub(left);
    println!(rt;
        "  matrix from {:>5}: lost {missing}, rebuilt {rebuilt}, given up {given_up}",
        number_of(from)
    )
}

// Both windows move on by the matrix that begins with packet `from`, and the next one is sent, lost in part, and its parity after it.
fn next_matrix(rt: &impl Print, sender: &mut Side, to: &mut Side, from: u8) -> io::Result<()>
    requires { from ≤ 48 }
{
    let _ = sender.advance();
    deliver_all(sender, from + 16, false);
    move_on(rt, to, from)?;
    deliver_all(to, from + 16, true);
    pass_matrix(sender, to, from + 16, Port::Column, 1);
    pass_matrix(sender, to, from + 16, Port::Row, 4);
    Ok(())
}

// Four matrices leave, one after the other.
fn go_on(rt: &impl Print, sender: &mut Side, to: &mut Side) -> io::Result<()> {
    for matrix in 0..4u8 {
        next_matrix(rt, sender, to, matrix * 16)?;
    }
    Ok(())
}

// ---- the night

fn print_title(rt: &impl Print) -> io::Result<()> {
    println!(rt;
        "The night at ten past three: 4 columns, 4 rows, 16 packets from 65530 on, across 65535 to 0"
    )?;
    println!(rt; "Lost on the way: a burst of four (65534 65535 0 1) and two alone (65532 and 7)")?;
    println!(rt; "  + received   * rebuilt   . lost")
}

fn print_rounds(rt: &impl Print) -> io::Result<()> {
    println!(rt;
        "Columns 65531 and 65532 each lack two, and wait: row 65530 rebuilds 65532, and column 65532 then 0;"
    )?;
    println!(rt; "row 65534 rebuilds 65535, and column 65531 then 7")
}

fn main(rt: HostRuntime) -> io::Result<()> {
    print_title(&rt)?;
    let mut sender = Side::open();
    let mut to = Side::open();
    deliver_all(&mut sender, 0, false);
    deliver_all(&mut to, 0, true);
    println!(rt; "\nBefore parity, as the packets came, the last first:")?;
    print_side(&rt, &to)?;
    println!(rt; "\nParity, the columns and then the rows:")?;
    pass_parity(&rt, &sender, &mut to, Port::Column)?;
    pass_parity(&rt, &sender, &mut to, Port::Row)?;
    print_rounds(&rt)?;
    println!(rt; "\nAfter parity:")?;
    print_side(&rt, &to)?;
    println!(rt; "\nA column with a member, 10, outside the window is refused:")?;
    offer_outside(&rt, &mut to)?;
    let equal = count_equal(&sender, &to);
    let rebuilt = count_rebuilt(&to);
    println!(rt; "\nrebuilt packets equal to the sent ones: {equal} of {rebuilt}")?;
    println!(rt; "\nThe feed goes on, and the window moves by a matrix at a time:")?;
    go_on(&rt, &mut sender, &mut to)
}

// The printed lines of a row of event records.
#![tactic(auto)]

ghost use Rattle.std.specs.Prelude.{◌≡◌, ◌++◌, ◌+◌, ◌*◌, ◌/◌, ◌%◌, ◌<◌, ◌≤◌, length, drop};
ghost use Rattle.numbers.specs.Numbers.{pick};
ghost use Rattle.damper.specs.Step.{step_of};
ghost use Rattle.damper.specs.Carry.{outcomes, drive_after};
ghost use Rattle.printer.specs.Session.{given, kept};
ghost use Rattle.printer.specs.Page.{counted, count_after, lines_after, page_after, answered};

use damper::Drive;

// The drive after the records that were answered, how many it was given by then, and how many bytes their lines have.
// Kept: lengths, here and below, of what is used of a lent buffer: a slice of it would lend it on.
#[derive(Clone, Copy)]
pub struct Printed {
    pub drive: Drive,
    pub count: u64,
    pub used: usize,
}

// Gives the records of s, six bytes each and a shorter rest, to a drive that was given `given` of them before, and writes a line
// for each: as many as the buffer has room for. Bytes after the last line keep their content.
// Kept: a loop of its own, beside replay's. One for both would need a trait for what takes an answer, with a relation that both loops
// prove: more than the two loops are.
pub fn print_answers(mut d: Drive, given: u64, s: &[u8], out: &mut [u8]) -> Printed
    ensures drive { result.drive ≡ drive_after d (outcomes step_of d (answered s.now out.old)) }
    ensures count { result.count ≡ count_after given (outcomes step_of d (answered s.now out.old)) }
    ensures used { result.used ≡ length (lines_after given (outcomes step_of d (answered s.now out.old))) }
    ensures bytes { out.new ≡ page_after given (outcomes step_of d (answered s.now out.old)) out.old }
    ensures within { result.used ≤ length out.new }
{
    let formed = d.well_formed();
    let mut count = given;
    let mut used = 0;
    for record in s.chunks(event::LENGTH).take(out.len() / line::ROOM) {
        let o = d.step_if(formed, record);
        count = count.saturating_add(1);
        used = line::put_line(out, used, count, o.answer);
        d = o.drive;
    }
    Printed {
        drive: d,
        count,
        used,
    }
}

// How many bytes wait for the rest of their record: none where the input has ended.
fn waiting(ended: bool, have: usize) -> usize
    ensures value { result ≡ pick ended 0 (have % 6) }
    ensures bound { (result ≤ have) × (result < 6) }
{
    if ended { 0 } else { have % event::LENGTH }
}

// The program between two reads: the drive, how many records it was given, and how many bytes of the next one stand at the front of
// the input.
#[derive(Clone, Copy)]
pub struct Session {
    pub drive: Drive,
    pub count: u64,
    pub kept: usize,
}

// What a piece of the input leaves, and how many bytes its lines have.
#[derive(Clone, Copy)]
pub struct Turned {
    pub next: Session,
    pub used: usize,
}

// One piece of the input: the bytes kept from before, and those that came. Every record that is whole is answered, and a shorter
// rest where the input has ended; what waits for more bytes is moved to the front. Asked for: room for 64 bytes of output for every
// six of input.
pub fn turn(s: Session, input: &mut [u8], ended: bool, out: &mut [u8]) -> Turned
    requires room { length input.old ≤ 6 * (length out.old / 64) }
    ensures drive { result.next.drive ≡ drive_after s.drive (given ended s.drive input.old) }
    ensures count { result.next.count ≡ count_after s.count (given ended s.drive input.old) }
    ensures kept { result.next.kept ≡ length (kept ended input.old) }
    ensures few { result.next.kept < 6 }
    ensures input { input.new ≡ kept ended input.old ++ drop result.next.kept input.old }
    ensures used { result.used ≡ length (lines_after s.count (given ended s.drive input.old)) }
    ensures lines { out.new ≡ page_after s.count (given ended s.drive input.old) out.old }
    ensures within { result.used ≤ length out.new }
{
    let part = waiting(ended, input.len());
    let whole = input.len() - part;
    let p = print_answers(s.drive, s.count, &input[..whole], out);
    // What waits moves to the front.
    input.copy_within(whole.., 0);
    Turned {
        next: Session {
            drive: p.drive,
            count: p.count,
            kept: part,
        },
        used: p.used,
    }
}

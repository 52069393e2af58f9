// A printed line of the drive program, written into a buffer.
#![tactic(auto)]

ghost use Rattle.std.specs.Prelude.{◌≡◌, ◌++◌, ◌+◌, ◌*◌, ◌≤◌, length};
ghost use Rattle.line.specs.Line.{decimal, spaced_values, text_of, put_line, end_of, room};
ghost use Rattle.line.specs.Writing.{Fits, Wrote};

use answer::Answer;

mod writer;

pub use writer::Writer;

// A line is written only where this many bytes are free: more than any line has.
pub const ROOM: usize = 64;

// How many digits a byte has in decimal.
#[tactic(auto, using(crate::specs::Laws::digits_one, crate::specs::Laws::digits_more))]
pub fn digits(n: u8) -> usize
    ensures { result ≡ length (decimal n) }
{
    match n {
        0..10 => 1,
        10..100 => 2,
        _ => 3,
    }
}

// Values, each after a space.
#[tactic(auto, using(crate::specs::Laws::value_digits))]
fn put_values(w: &mut Writer, values: &[u16])
    requires { Fits w.old (6 * length values.now) }
    ensures wrote { Wrote w.old w.new (spaced_values values.now) }
    ensures short { w.new.at ≤ w.old.at + 6 * length values.now }
{
    for value in values {
        w.put_byte(b' ');
        w.put_decimal(*value as u64);
    }
}

// A word, values, each after a space, and what ends the text.
fn put_text(w: &mut Writer, word: &[u8], values: &[u16], end: &[u8])
    requires { Fits w.old (length word.now + 6 * length values.now + length end.now) }
    ensures wrote { Wrote w.old w.new (word.now ++ (spaced_values values.now ++ end.now)) }
    ensures short { w.new.at ≤ w.old.at + (length word.now + 6 * length values.now + length end.now) }
{
    w.put_bytes(word);
    put_values(w, values);
    w.put_bytes(end);
}

// An answer's word and values, and `-` where a tick sends no report: at most 29 bytes, ` tick` and four values.
// Kept: no Display. `write!` says what it wrote for an Ok alone, and never that it gives one, so `put_line` could not be proved.
#[tactic(auto, unfolding(crate::specs::Line::text_of))]
fn put_answer(w: &mut Writer, answer: Answer)
    requires { Fits w.old 29 }
    ensures wrote { Wrote w.old w.new (text_of answer) }
    ensures short { w.new.at ≤ w.old.at + 29 }
{
    match answer {
        Answer::No(n) => put_text(w, b" no", &[n as u16], b""),
        Answer::Done => put_text(w, b" ok", &[], b""),
        Answer::Par(v) => put_text(w, b" par", &[v], b""),
        Answer::At {
            position,
            percent,
            status,
        } => put_text(
            w,
            b" at",
            &[position as u16, percent as u16, status as u16],
            b"",
        ),
        Answer::Tick {
            position,
            rank,
            motor,
        } => put_text(
            w,
            b" tick",
            &[position as u16, rank as u16, motor as u16],
            b" -",
        ),
        Answer::Report {
            position,
            rank,
            motor,
            status,
        } => put_text(
            w,
            b" tick",
            &[position as u16, rank as u16, motor as u16, status as u16],
            b"",
        ),
    }
}

// Writes an answer's line from `at` on and answers the place after it, or answers `at` and writes nothing where fewer than
// ROOM bytes are free from there on.
// Kept: buffer and place, and `at` where nothing is written, since the definitions `put_line` and `end_of` are about these.
#[tactic(auto, using(crate::specs::Laws::count_digits), unfolding(crate::specs::Line::put_line, crate::specs::Line::end_of))]
pub fn put_line(out: &mut [u8], at: usize, count: u64, answer: Answer) -> usize
    ensures end { result ≡ end_of out.old at count answer }
    ensures short { result ≤ at + room }
    ensures bytes { out.new ≡ put_line out.old at count answer }
{
    if out.len().saturating_sub(at) < ROOM {
        return at;
    }
    let mut w = Writer { out, at };
    w.put_decimal(count);
    put_answer(&mut w, answer);
    w.put_byte(b'\n');
    w.at
}

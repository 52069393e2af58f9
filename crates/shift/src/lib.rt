// The shift page's lines, written into a buffer.
// Kept: no `write!` with columns and binary digits, for the reason that stands at line's put_answer.
#![tactic(auto)]

ghost use Rattle.std.specs.Prelude.{◌≡◌, [], ◌∷◌, ◌++◌, ◌+◌, ◌<◌, ◌≤◌, length};
ghost use Rattle.answer.specs.Refusal.{refused_by};
ghost use Rattle.line.specs.Line.{decimal, spaced, Written};
ghost use Rattle.line.specs.Writing.{Fits, Wrote};
ghost use Rattle.rules.specs.Rank.{source_at};
ghost use Rattle.shift.specs.Shift.{blanks, right, left, binary, name_of, fields, drive_line, page_refusal};

use answer::{Refusal, refuse};
use damper::{Drive, Rank};
use line::Writer;

// Bytes of a line.
const LINE: usize = 29;

// Refused by 14, then by 17 where the page has fewer bytes than the lines of so many drives.
#[tactic(auto, unfolding(crate::specs::Shift::page_refusal))]
pub fn page_refusal(drives: usize, bytes: usize) -> Result<(), Refusal>
    ensures { refused_by result ≡ page_refusal drives bytes }
{
    refuse(hall::bad_row(drives), Refusal::Row)?;
    refuse(bytes < LINE * drives, Refusal::Page)
}

// At most two blanks.
// Kept: three lengths and no loop, which would be a call of memset or memcpy, and an archive calls nothing outside.
fn put_blanks(w: &mut Writer, count: usize)
    requires few { count ≤ 2 }
    requires room { Fits w.old count }
    ensures { Wrote w.old w.new (blanks count) }
{
    match count {
        0 => {}
        1 => w.put_byte(b' '),
        _ => w.put_bytes(b"  "),
    }
}

// A number to the right in at most three columns, of no more digits than these.
#[tactic(auto, using(line::specs::Laws::digits_some, line::specs::Writing::wrote_both, crate::specs::Laws::right_is))]
fn put_right(w: &mut Writer, columns: usize, n: u8)
    requires digits { (length (decimal n) ≤ columns) × (columns ≤ 3) }
    requires room { Fits w.old columns }
    ensures { Wrote w.old w.new (right columns (decimal n)) }
{
    put_blanks(w, columns - line::digits(n));
    w.put_decimal(n as u64);
}

// A blank and a byte in three columns.
#[tactic(auto, using(line::specs::Laws::byte_digits))]
fn put_number(w: &mut Writer, n: u8)
    requires { Fits w.old 4 }
    ensures { Wrote w.old w.new (32 ∷ right 3 (decimal n)) }
{
    w.put_byte(b' ');
    put_right(w, 3, n);
}

// A blank and the name of the source at a rank.
#[tactic(auto, unfolding(crate::specs::Shift::left))]
fn name(rank: Rank) -> &'static [u8; 9]
    ensures { result.now ≡ 32 ∷ left 8 (name_of (source_at rank.number)) }
{
    match rank.number {
        Drive::FAULT => b" fault   ",
        Drive::FORCING => b" forced  ",
        Drive::RUN => b" run     ",
        Drive::HAND => b" hand    ",
        Drive::TOOL => b" tool    ",
        Drive::BUS => b" bus     ",
        _ => b" backup  ",
    }
}

// Eight binary digits, the highest bit first.
fn put_binary(w: &mut Writer, v: u8)
    requires { Fits w.old 8 }
    ensures { Wrote w.old w.new (binary 8 v) }
{
    for bit in (0..8u8).rev() {
        w.put_byte(b'0' + (v >> bit) % 2);
    }
}

// The fields behind the number, and the line feed.
#[tactic(auto, using(crate::specs::Laws::right_length, crate::specs::Laws::left_length, crate::specs::Laws::binary_length))]
fn put_fields(w: &mut Writer, position: u8, rank: Rank, status: u8)
    requires { Fits w.old 27 }
    ensures { Wrote w.old w.new (spaced (fields position (source_at rank.number) status) ++ (10 ∷ [])) }
{
    put_number(w, position);
    put_number(w, motion::to_percent(position));
    w.put_bytes(name(rank));
    w.put_byte(b' ');
    put_binary(w, status);
    w.put_byte(b'\n');
}

// The line of a drive by its number, from `at` on; the answer is the place after it.
// Kept: buffer and place, and no writer, since what it promises, `Written`, is about these, and a writer would have to be made by the call.
#[tactic(auto, using(crate::specs::Laws::right_length))]
pub fn put_drive(out: &mut [u8], at: usize, number: usize, d: Drive) -> usize
    requires { (number < 64) × (at + 29 ≤ length out.old) }
    ensures { Written out.old out.new at result (drive_line number d) }
{
    let mut w = Writer { out, at };
    put_right(&mut w, 2, number as u8);
    if !d.well_formed() {
        w.put_bytes(b" --- --- -------- --------\n");
        return w.at;
    }
    put_fields(&mut w, d.position, d.ruling(), d.status());
    w.at
}

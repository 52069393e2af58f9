// Document 01's program: event records from standard input, a printed line for each to standard output. What is printed, and what is
// kept from one read to the next, is `printer::turn`; here is read, call, write.
#![tactic(auto)]

ghost use Rattle.std.specs.Prelude.{◌≤◌, length};
ghost use Rattle.std.specs.Io.{ReadsAtMost};

use damper::Drive;
use printer::Session;
use std::io::{ErrorKind, Read, Write};
use std::{fmt, io, thread};

// How many records are answered with one write, and the bytes that they and their lines need.
const RECORDS: usize = 1024;

const INPUT: usize = RECORDS * event::LENGTH;

const OUTPUT: usize = RECORDS * line::ROOM;

// What ends the program before its input ends.
#[derive(Drop)]
enum Failure {
    Input(io::Error),
    Output(io::Error),
}

// The line on standard error, behind `Error: `.
impl fmt::Debug for Failure {
    fn fmt<W: fmt::Write>(&self, f: &mut fmt::Formatter<W>) -> fmt::Result {
        match self {
            Failure::Input(error) => write!(f, "standard input: {error}"),
            Failure::Output(error) => write!(f, "standard output: {error}"),
        }
    }
}

// Whether a call that failed is made again: it was interrupted, or its descriptor does not wait and is not ready yet.
fn again(error: &io::Error) -> bool {
    match error.kind() {
        ErrorKind::WouldBlock => {
            thread::yield_now();
            true
        }
        ErrorKind::Interrupted => true,
        _ => false,
    }
}

// How many bytes one read gives; 0 at the end of the input. More calls than any input outlasts: every function is proved to return.
fn get<R: Read>(input: &mut R, buffer: &mut [u8]) -> io::Result<usize>
    ensures { ReadsAtMost result buffer.new }
{
    for _ in 0..u64::MAX {
        match input.read(buffer) {
            Ok(got) => return Ok(got),
            Err(error) => {
                if !again(&error) {
                    return Err(error);
                }
            }
        }
    }
    input.read(buffer)
}

// Writes all of the text, or stops at a write that fails.
fn put<W: Write>(output: &mut W, text: &[u8]) -> io::Result<()> {
    let mut done: usize = 0;
    for _ in 0..u64::MAX {
        if done == text.len() {
            return Ok(());
        }
        match output.write(&text[done..]) {
            Ok(taken) => done += taken,
            Err(error) => {
                if !again(&error) {
                    return Err(error);
                }
            }
        }
    }
    output.write_all(&text[done..])
}

fn main(rt: HostRuntime) -> Result<(), Failure> {
    let mut stdin = rt.stdin();
    let mut stdout = rt.stdout();
    let mut input = [0u8; INPUT];
    let mut out = [0u8; OUTPUT];
    let mut s = Session {
        drive: Drive::fresh(),
        count: 0,
        kept: 0,
    };
    for _ in 0..u64::MAX {
        let kept = s.kept;
        let got = get(&mut stdin, &mut input[kept..]).map_err(Failure::Input)?;
        let t = printer::turn(s, &mut input[..kept + got], got == 0, &mut out);
        let used = t.used;
        put(&mut stdout, &out[..used]).map_err(Failure::Output)?;
        if got == 0 {
            return Ok(());
        }
        s = t.next;
    }
    Ok(())
}

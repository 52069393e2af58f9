// What a host in C or Rust is handed: a slice passes as a pointer and a length, the record by value. `host_c` exports it.
#![tactic(auto)]

ghost use Rattle.std.specs.Prelude.{◌≡◌};
ghost use Rattle.answer.specs.Refusal.{refused_by};
ghost use Rattle.event.specs.Event.{event, decoded, read_of, write_refusal, written_to};
ghost use Rattle.damper.specs.Record.{fresh_drive};
ghost use Rattle.damper.specs.WellFormed.{well_formed};
ghost use Rattle.damper.specs.Step.{step_of};
ghost use Rattle.host.specs.Host.{stepped, found};

use answer::Refusal;
use damper::{Drive, Outcome};
use event::Event;

// The drive after an event, and the answer: its word (0 `no`, 1 `ok`, 2 `par`, 3 `at`, 4 `tick` with no report, 5 `tick` with one)
// and its values, each but the first a digit of base 256 behind the one before.
#[repr(C)]
#[derive(Clone, Copy)]
pub struct Stepped {
    pub drive: Drive,
    pub word: u8,
    pub code: u32,
}

// An event that was read, or a refusal from 2 to 8 and zeros.
// Kept: no Result here, since the C interface has this struct.
#[repr(C)]
#[derive(Clone, Copy)]
pub struct Found {
    pub refusal: u8,
    pub kind: u8,
    pub a: u8,
    pub b: u8,
    pub c: u8,
}

impl From<Outcome> for Stepped {
    ghost from_gives = { λ o s. s ≡ stepped o };

    fn from(o: Outcome) -> Stepped {
        let drive = o.drive;
        let answer = o.answer;
        Stepped {
            drive,
            word: answer.word(),
            code: answer.code(),
        }
    }
}

impl From<Result<Event, Refusal>> for Found {
    ghost from_gives = { λ r f. f ≡ found (decoded r) };

    fn from(read: Result<Event, Refusal>) -> Found {
        match read {
            Ok(e) => Found {
                refusal: 0,
                kind: e.kind,
                a: e.a,
                b: e.b,
                c: e.c,
            },
            Err(refusal) => Found {
                refusal: refusal.number(),
                kind: 0,
                a: 0,
                b: 0,
                c: 0,
            },
        }
    }
}

pub fn damper_fresh_layout3() -> Drive
    ensures { result ≡ fresh_drive }
{
    Drive::fresh()
}

pub fn damper_well_formed_layout3(d: Drive) -> bool
    ensures { result ≡ well_formed d }
{
    d.well_formed()
}

pub fn damper_step_layout3(d: Drive, s: &[u8]) -> Stepped
    ensures { result ≡ stepped (step_of d s.now) }
{
    Stepped::from(d.step(s))
}

pub fn damper_read_layout3(s: &[u8]) -> Found
    ensures { result ≡ found (read_of s.now) }
{
    Found::from(event::read(s))
}

// Kept: four bytes side by side, as the C interface has them.
pub fn damper_write_layout3(buf: &mut [u8], kind: u8, a: u8, b: u8, c: u8) -> Result<(), Refusal>
    ensures answer { refused_by result ≡ write_refusal buf.old (event kind a b c) }
    ensures bytes { buf.new ≡ written_to buf.old (event kind a b c) }
{
    event::write(buf, Event { kind, a, b, c })
}

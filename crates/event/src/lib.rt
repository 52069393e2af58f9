// The event record: six bytes, the mark, the kind and the data bytes a, b, c.
#![tactic(auto)]

ghost use Rattle.std.specs.Prelude.{◌≡◌, length};
ghost use Rattle.answer.specs.Refusal.{refused_by};
ghost use Rattle.event.specs.Event.{event, event_in, data_refusal, read_of, decoded, kind_in, write_refusal, written_to, value_of};
ghost use Rattle.event.specs.Kinds.{number, kind_found};

use answer::{Refusal, refuse};

mod kind;

pub use kind::Kind;

// How many bytes a record has.
pub const LENGTH: usize = 6;

// The commands of kind 3, in byte c.
// Kept: numbers, since the definitions `bad_command` and `commanded` compare byte c, and two edits are about these comparisons.
pub const NORMAL: u8 = 0;

pub const OVERRIDE: u8 = 1;

pub const RELEASE: u8 = 2;

// Kind and data bytes of a record, of any values.
// Kept: the kind is a byte, since the definition `data_refusal`, refusal 4, and so the writer are about any byte.
#[derive(Clone, Copy)]
pub struct Event {
    pub kind: u8,
    pub a: u8,
    pub b: u8,
    pub c: u8,
}

impl Event {
    // The kind of an event that none of 4 to 8 fits.
    pub fn kind_admitted(self) -> Kind
        requires { data_refusal self ≡ 0 }
        ensures { number result ≡ self.kind }
    {
        let Ok(kind) = Kind::try_from(self.kind) else {
            unreachable!()
        };
        kind
    }
}

// The first of the refusals 4 to 8 that fits.
#[tactic(auto, unfolding(crate::specs::Event::data_refusal, crate::specs::Event::form_of))]
fn data_refusal(e: &Event) -> Result<(), Refusal>
    ensures { refused_by result ≡ data_refusal e.now }
{
    let a = e.a;
    let b = e.b;
    let c = e.c;
    let bc = (b != 0) | (c != 0);
    let abc = (a != 0) | bc;
    let kind = Kind::try_from(e.kind)?;
    match kind {
        Kind::Tick | Kind::Restart | Kind::ReadPosition => refuse(abc, Refusal::Unused),
        Kind::Setpoint => refuse(bc, Refusal::Unused),
        Kind::LteSetpoint => {
            refuse(!((51 <= a) & (a <= 54)), Refusal::Value)?;
            refuse(RELEASE < c, Refusal::Command)?;
            refuse((c <= OVERRIDE) & (100 < b), Refusal::Percent)
        }
        Kind::Forcing => {
            refuse(bc, Refusal::Unused)?;
            refuse(3 < a, Refusal::Value)
        }
        Kind::Hand => {
            refuse(c != 0, Refusal::Unused)?;
            refuse(1 < a, Refusal::Value)
        }
        Kind::Calibration | Kind::Fault => {
            refuse(bc, Refusal::Unused)?;
            refuse(1 < a, Refusal::Value)
        }
        // One arm: of two calls of the search none is inlined, and each kind of event took longer to judge.
        Kind::Write | Kind::ReadParameter => {
            refuse((kind != Kind::Write) & bc, Refusal::Unused)?;
            refuse(!table::known(a), Refusal::Value)
        }
    }
}

// The event in the bytes handed in, or the first of the refusals 2 to 8 that fits.
// Kept: byte by byte, here and in write, about which the edits reads_seven, buffer_of_seven and mark_exchanged are.
#[tactic(auto, unfolding(crate::specs::Event::read_of, crate::specs::Event::record_refusal))]
pub fn read(s: &[u8]) -> Result<Event, Refusal>
    ensures { decoded result ≡ read_of s.now }
{
    refuse(s.len() != LENGTH, Refusal::Length)?;
    refuse((s[0] != 0x5A) | (s[1] != 0xC3), Refusal::Mark)?;
    let e = event_in(s);
    data_refusal(&e)?;
    Ok(e)
}

// Kind and data bytes of six bytes.
pub fn event_in(s: &[u8]) -> Event
    requires { length s.now ≡ 6 }
    ensures { result ≡ event_in s.now }
{
    Event {
        kind: s[2],
        a: s[3],
        b: s[4],
        c: s[5],
    }
}

// The kind of a record that the reader accepts.
#[tactic(auto, unfolding(crate::specs::Event::read_of))]
pub fn kind_in(s: &[u8]) -> Option<Kind>
    ensures { kind_found result ≡ kind_in s.now }
{
    match read(s) {
        Ok(e) => Kind::try_from(e.kind).ok(),
        Err(_) => None,
    }
}

// Writes the six bytes of an event to the front of buf, or answers the first of the refusals 2 and 4 to 8 that fits and writes nothing.
#[tactic(auto, unfolding(crate::specs::Event::write_refusal, crate::specs::Event::written_to))]
pub fn write(buf: &mut [u8], e: Event) -> Result<(), Refusal>
    ensures answer { refused_by result ≡ write_refusal buf.old e }
    ensures bytes { buf.new ≡ written_to buf.old e }
{
    refuse(buf.len() < LENGTH, Refusal::Length)?;
    data_refusal(&e)?;
    buf[0] = 0x5A;
    buf[1] = 0xC3;
    buf[2] = e.kind;
    buf[3] = e.a;
    buf[4] = e.b;
    buf[5] = e.c;
    Ok(())
}

// The value that a parameter write carries.
pub fn value_of(e: Event) -> u16
    ensures { result ≡ value_of e }
{
    u16::from_be_bytes([e.b, e.c])
}

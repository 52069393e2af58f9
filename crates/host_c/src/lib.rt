// The functions of `host` as an archive that a host in C or Rust links.
// Kept: each function and its contract a second time, and a number for the writer's refusal, since the C interface has these functions.
#![tactic(auto)]

ghost use Rattle.std.specs.Prelude.{◌≡◌};
ghost use Rattle.event.specs.Event.{event, read_of, write_refusal, written_to};
ghost use Rattle.damper.specs.Record.{fresh_drive};
ghost use Rattle.damper.specs.WellFormed.{well_formed};
ghost use Rattle.damper.specs.Step.{step_of};
ghost use Rattle.host.specs.Host.{stepped, found};

use damper::Drive;
use host::{Found, Stepped};

#[unsafe(no_mangle)]
pub extern "C" fn damper_fresh_layout3() -> Drive
    ensures { result ≡ fresh_drive }
{
    host::damper_fresh_layout3()
}

#[unsafe(no_mangle)]
pub extern "C" fn damper_well_formed_layout3(d: Drive) -> bool
    ensures { result ≡ well_formed d }
{
    host::damper_well_formed_layout3(d)
}

#[unsafe(no_mangle)]
pub extern "C" fn damper_step_layout3(d: Drive, s: &[u8]) -> Stepped
    ensures { result ≡ stepped (step_of d s.now) }
{
    host::damper_step_layout3(d, s)
}

#[unsafe(no_mangle)]
pub extern "C" fn damper_read_layout3(s: &[u8]) -> Found
    ensures { result ≡ found (read_of s.now) }
{
    host::damper_read_layout3(s)
}

#[unsafe(no_mangle)]
pub extern "C" fn damper_write_layout3(buf: &mut [u8], kind: u8, a: u8, b: u8, c: u8) -> u8
    ensures answer { result ≡ write_refusal buf.old (event kind a b c) }
    ensures bytes { buf.new ≡ written_to buf.old (event kind a b c) }
{
    answer::refused_by(host::damper_write_layout3(buf, kind, a, b, c))
}

// The outlook and the audit for a host in C or Rust. An archive of its own, in which the step has one call site.
// Kept: contracts a second time, since the C interface needs an archive, and no crate can use one.
#![tactic(auto)]

ghost use Rattle.std.specs.Prelude.{◌≡◌};
ghost use Rattle.answer.specs.Answer.{answer_of};
ghost use Rattle.outlook.specs.Outlook.{outlook_of};
ghost use Rattle.audit.specs.Audit.{fresh_audit, audit_of};

use answer::Answer;
use audit::{Audit, Audited};
use damper::Drive;
use outlook::Outlook;

#[unsafe(no_mangle)]
pub extern "C" fn damper_look_ahead_layout3(d: Drive) -> Outlook
    ensures { result ≡ outlook_of d }
{
    outlook::ahead(d)
}

#[unsafe(no_mangle)]
pub extern "C" fn damper_audit_fresh_layout3() -> Audit
    ensures { result ≡ fresh_audit }
{
    Audit::fresh()
}

// The answer is given by its word and its values, as `damper_step_layout3` gives it.
#[unsafe(no_mangle)]
pub extern "C" fn damper_audit_hear_layout3(a: Audit, s: &[u8], word: u8, code: u32) -> Audited
    ensures { result ≡ audit_of a s.now (answer_of word code) }
{
    a.hear(s, Answer::of(word, code))
}

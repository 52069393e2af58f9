// The replay for a host in C or Rust. An archive of its own, in which the step has one call site.
// Kept: contracts a second time, since the C interface needs an archive, and no crate can use one.
#![tactic(auto)]

ghost use Rattle.std.specs.Prelude.{◌≡◌, length};
ghost use Rattle.answer.specs.Answer.{word_of, code_of};
ghost use Rattle.damper.specs.Step.{step_of};
ghost use Rattle.damper.specs.Carry.{outcomes, drive_after, answers_in};
ghost use Rattle.replay.specs.Replay.{carried};

use damper::Drive;
use replay::Replayed;

#[unsafe(no_mangle)]
pub extern "C" fn damper_replay_layout3(
    d: Drive,
    s: &[u8],
    words: &mut [u8],
    codes: &mut [u32],
) -> Replayed
    ensures drive { result.drive ≡ drive_after d (outcomes step_of d (carried s.now words.old codes.old)) }
    ensures count { result.count ≡ length (carried s.now words.old codes.old) }
    ensures words { words.new ≡ answers_in word_of (outcomes step_of d (carried s.now words.old codes.old)) words.old }
    ensures codes { codes.new ≡ answers_in code_of (outcomes step_of d (carried s.now words.old codes.old)) codes.old }
{
    replay::replay(d, s, words, codes)
}

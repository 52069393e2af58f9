// A drive carried over a row of event records.
#![tactic(auto)]

ghost use Rattle.std.specs.Prelude.{◌≡◌, length};
ghost use Rattle.answer.specs.Answer.{word_of, code_of};
ghost use Rattle.damper.specs.Step.{step_of};
ghost use Rattle.damper.specs.Carry.{outcomes, drive_after, answers_in};
ghost use Rattle.replay.specs.Replay.{carried};

use damper::Drive;

// The drive after the records that were carried out, and how many these are.
#[repr(C)]
#[derive(Clone, Copy)]
pub struct Replayed {
    pub drive: Drive,
    pub count: usize,
}

// Gives the records of s, six bytes each and a shorter rest, to the drive one after the other, as many as both rows have room
// for, and writes each answer's word and its values to the rows. Further places of the rows keep their content.
// Kept: two rows, since the C interface has them, and their places by number, as in hall_event.
pub fn replay(mut d: Drive, s: &[u8], words: &mut [u8], codes: &mut [u32]) -> Replayed
    ensures drive { result.drive ≡ drive_after d (outcomes step_of d (carried s.now words.old codes.old)) }
    ensures count { result.count ≡ length (carried s.now words.old codes.old) }
    ensures words { words.new ≡ answers_in word_of (outcomes step_of d (carried s.now words.old codes.old)) words.old }
    ensures codes { codes.new ≡ answers_in code_of (outcomes step_of d (carried s.now words.old codes.old)) codes.old }
{
    let room = words.len().min(codes.len());
    let formed = d.well_formed();
    for (k, record) in s.chunks(event::LENGTH).take(room).enumerate() {
        let o = d.step_if(formed, record);
        words[k] = o.answer.word();
        codes[k] = o.answer.code();
        d = o.drive;
    }
    Replayed {
        drive: d,
        count: s.len().div_ceil(event::LENGTH).min(room),
    }
}

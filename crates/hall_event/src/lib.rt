// The event call of a hall for a host in C or Rust. An archive of its own, in which the step has one call site.
#![tactic(auto)]

ghost use Rattle.std.specs.Prelude.{◌≡◌, length};
ghost use Rattle.answer.specs.Answer.{number_of};
ghost use Rattle.damper.specs.Step.{step_of};
ghost use Rattle.hall.specs.Hall.{give, call_refusal};
ghost use Rattle.hall.specs.Turns.{turns_of, row_after, answers_after, hall_step};

use answer::Answer;
use damper::Drive;

// 0, or the refusal.
fn number_of(answer: Answer) -> u8
    ensures { result ≡ number_of answer }
{
    match answer {
        Answer::No(number) => number,
        _ => 0,
    }
}

// One drive's turn: the number of its answer.
fn give_one(drive: &mut Drive, s: &[u8]) -> u8
    ensures drive { drive.new ≡ (step_of drive.old s.now).drive }
    ensures number { result ≡ number_of (step_of drive.old s.now).answer }
{
    let outcome = drive.step(s);
    *drive = outcome.drive;
    number_of(outcome.answer)
}

// Gives the bytes of an event other than a tick to the drives that the list names, in its order, and fills one answer number for
// each entry. Refused by 14, 15, 16 or 19, it changes nothing.
// Kept: numbers, here and of each answer, since the C interface has them.
#[unsafe(no_mangle)]
pub extern "C" fn damper_hall_event_layout3(
    row: &mut [Drive],
    list: &[u32],
    s: &[u8],
    answers: &mut [u8],
) -> u8
    ensures { (result ≡ call_refusal (length row.old) (give list.now s.now (length answers.old)))
        × (row.new ≡ row_after hall_step row.old (turns_of row.old (give list.now s.now (length answers.old))))
        × (answers.new ≡ answers_after hall_step row.old (give list.now s.now (length answers.old)) answers.old) }
{
    if let Err(refusal) = hall::event_refusal(row.len(), list, s, answers.len()) {
        return refusal.number();
    }
    // Kept: the answers by their place. Of a loop over a `zip` with `answers.iter_mut()` the proof did not close.
    for (k, number) in list.iter().enumerate() {
        answers[k] = give_one(&mut row[*number as usize], s);
    }
    0
}

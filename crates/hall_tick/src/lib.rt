// The hall tick for a host in C or Rust. `hall_tick_c` exports it, in an archive in which each part of a drive's tick has one call site.
#![tactic(auto)]

ghost use Rattle.std.specs.Prelude.{◌≡◌, false, ◌+◌, ◌*◌, ◌<◌, length};
ghost use Rattle.answer.specs.Refusal.{refused_by};
ghost use Rattle.damper.specs.Record.{with_wait};
ghost use Rattle.damper.specs.Tick.{reported, status_of};
ghost use Rattle.hall.specs.Hall.{tick, call_refusal};
ghost use Rattle.hall.specs.Quota.{hall_ticked};
ghost use Rattle.hall.specs.Turns.{turns_of, row_after, answers_after, hall_step};
ghost use Rattle.hall_tick.specs.Chosen.{held_number};

use answer::Refusal;
use damper::Drive;
use numbers::{next, pick};

// One drive's turn, as if its report were held: what stands for it in the row of numbers. Where one is due, that is the key that the drive
// is compared by.
fn hold_one(drive: &mut Drive, place: usize) -> u32
    requires { place < 64 }
    ensures drive { drive.new ≡ (hall_ticked false drive.old).drive }
    ensures number { result ≡ held_number drive.old place }
{
    let Some(formed) = drive.formed() else {
        return Refusal::Record as u32;
    };
    let after = formed.advance().drive;
    let due = after.due(after.status());
    let wait = pick(due, next(drive.wait), 0);
    let key = choice::key(due, drive.wait, place);
    *drive = after.with_wait(wait);
    key
}

// The report that was held goes out, and its number takes the place of the key.
// Kept: the number of a report, since the C interface has it.
fn send_one(drive: &mut Drive) -> u32
    ensures drive { drive.new ≡ with_wait (reported drive.old) 0 }
    ensures number { result ≡ 65536 + 256 * drive.old.position + status_of drive.old }
{
    let status = drive.status();
    *drive = drive.with_report(status).with_wait(0);
    65536 + 256 * (drive.position as u32) + (status as u32)
}

// Ticks each drive of the row and fills one number for each. Of those that are due it sends as many as the quota, or all, the longest wait
// first and the lower number among equals. Refused by 14, 16 or 18, it changes nothing.
// Kept: one row of numbers, for reports and for drives that have none, since the C interface has it.
#[tactic(auto, unfolding(hall::specs::Hall::call_refusal))]
pub fn damper_hall_tick_layout3(
    row: &mut [Drive],
    quota: u32,
    numbers: &mut [u32],
) -> Result<(), Refusal>
    ensures refusal { refused_by result ≡ call_refusal (length row.old) (tick quota (length numbers.old)) }
    ensures row { row.new ≡ row_after hall_step row.old (turns_of row.old (tick quota (length numbers.old))) }
    ensures numbers { numbers.new ≡ answers_after hall_step row.old (tick quota (length numbers.old)) numbers.old }
{
    hall::tick_refusal(row.len(), quota, numbers.len())?;
    let numbers = &mut numbers[..row.len()];
    // Kept: the numbers by their place. Of a loop over a `zip` with `iter_mut`, tried in hall_event, the proof did not close.
    for (place, drive) in row.iter_mut().enumerate() {
        numbers[place] = hold_one(drive, place);
    }
    // Kept: from one to the next. A loop over every drive that stores it again where it goes takes half the time more.
    let mut next = choice::choose(numbers, quota);
    while let Some(place) = next {
        numbers[place] = send_one(&mut row[place]);
        next = choice::next_sent(numbers, place + 1);
    }
    Ok(())
}

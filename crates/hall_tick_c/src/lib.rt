// The function of `hall_tick` as an archive that a host in C or Rust links.
// Kept: its contract a second time, and a number for the refusal, since the C interface has this function.
#![tactic(auto)]

ghost use Rattle.std.specs.Prelude.{◌≡◌, length};
ghost use Rattle.hall.specs.Hall.{tick, call_refusal};
ghost use Rattle.hall.specs.Turns.{turns_of, row_after, answers_after, hall_step};

use damper::Drive;

#[unsafe(no_mangle)]
pub extern "C" fn damper_hall_tick_layout3(row: &mut [Drive], quota: u32, numbers: &mut [u32]) -> u8
    ensures { (result ≡ call_refusal (length row.old) (tick quota (length numbers.old)))
        × (row.new ≡ row_after hall_step row.old (turns_of row.old (tick quota (length numbers.old))))
        × (numbers.new ≡ answers_after hall_step row.old (tick quota (length numbers.old)) numbers.old) }
{
    answer::refused_by(hall_tick::damper_hall_tick_layout3(row, quota, numbers))
}

// The shift page for a host in C or Rust. `hall_page_c` exports it.
#![tactic(auto)]

ghost use Rattle.std.specs.Prelude.{◌≡◌, length};
ghost use Rattle.answer.specs.Refusal.{refused_by};
ghost use Rattle.shift.specs.Shift.{page_refusal, page_after};

use answer::Refusal;
use damper::Drive;

// Writes a line for each drive of the row, in order. Refused by 14 or 17, it changes nothing.
pub fn damper_hall_page_layout3(row: &[Drive], page: &mut [u8]) -> Result<(), Refusal>
    ensures refusal { refused_by result ≡ page_refusal (length row.now) (length page.old) }
    ensures page { page.new ≡ page_after row.now page.old }
{
    shift::page_refusal(row.len(), page.len())?;
    let mut at = 0;
    for (number, drive) in row.iter().enumerate() {
        at = shift::put_drive(page, at, number, *drive);
    }
    Ok(())
}

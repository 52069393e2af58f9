// The function of `hall_page` as an archive that a host in C or Rust links.
// Kept: its contract a second time, and a number for the refusal, since the C interface has this function.
#![tactic(auto)]

ghost use Rattle.std.specs.Prelude.{◌≡◌, length};
ghost use Rattle.shift.specs.Shift.{page_refusal, page_after};

use damper::Drive;

#[unsafe(no_mangle)]
pub extern "C" fn damper_hall_page_layout3(row: &[Drive], page: &mut [u8]) -> u8
    ensures { (result ≡ page_refusal (length row.now) (length page.old))
        × (page.new ≡ page_after row.now page.old) }
{
    answer::refused_by(hall_page::damper_hall_page_layout3(row, page))
}

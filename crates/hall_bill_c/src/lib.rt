// The function of `hall_bill` as an archive that a host in C or Rust links.
// Kept: its contract a second time, and a number for the refusal, since the C interface has this function.
#![tactic(auto)]

ghost use Rattle.std.specs.Prelude.{◌≡◌, length};
ghost use Rattle.hall_bill.specs.HallBill.{bill_refusal, shares_after};

use damper::Drive;

#[unsafe(no_mangle)]
pub extern "C" fn damper_hall_bill_layout3(row: &[Drive], bill: u64, shares: &mut [u32]) -> u8
    ensures { (result ≡ bill_refusal row.now bill (length shares.old))
        × (shares.new ≡ shares_after row.now bill shares.old) }
{
    answer::refused_by(hall_bill::damper_hall_bill_layout3(row, bill, shares))
}

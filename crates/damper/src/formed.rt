// A drive record that is well formed, as far as what is done with it counts on that.
ghost use Rattle.std.specs.Prelude.{◌≡◌, is_some, IfSome};
ghost use Rattle.table.specs.Laws.{Ranges};
ghost use Rattle.rules.specs.CommandsLaws.{Flags};
ghost use Rattle.damper.specs.WellFormed.{well_formed};

use crate::Drive;
use table::Params;

#[derive(Clone, Copy)]
pub struct Formed {
    pub drive: Drive,
    // The parameters that are counted with are in range, and a flag that is counted with is 0 or 1.
    pub ghost ranges: { Ranges drive.params },
    pub ghost flags: { Flags drive.commands },
}

impl Formed {
    pub fn params(self) -> Params
        ensures { result.values ≡ self.drive.params }
    {
        let values = self.drive.params;
        Params { values }
    }
}

impl Drive {
    // The record with what well-formedness gives, if it is well formed.
    // Kept: an Option and no TryFrom, since who asks tells the refusal in a form of its own, or none.
    pub fn formed(self) -> Option<Formed>
        ensures formed { is_some result ≡ well_formed self }
        ensures drive { IfSome result (λ f. f.drive ≡ self) }
    {
        if self.well_formed() {
            Some(Formed { drive: self })
        } else {
            None
        }
    }
}

// Who commands: the active byte, the ruling rank and the target at each rank.
ghost use Rattle.std.specs.Prelude.{◌≡◌, ◌<◌, ◌≤◌};
ghost use Rattle.table.specs.Laws.{Ranges};
ghost use Rattle.rules.specs.CommandsLaws.{Flags};
ghost use Rattle.rules.specs.Rank.{active_byte};
ghost use Rattle.damper.specs.Tick.{target_at, bus_on, ruling};

use crate::Drive;
use numbers::{bit, pick};
use rules::Commands;
use table::Params;

// A rank's number, 0 to 6.
#[derive(Clone, Copy)]
pub struct Rank {
    pub number: u8,
    pub ghost bound: { number < 7 },
}

// The active ranks as one byte, rank r at bit r. A flag of 0 or 1 is its own bit.
fn active(c: Commands, run: u8, bus: bool) -> u8
    requires { Flags c }
    ensures value { result ≡ active_byte c run bus }
    ensures bound { (1 ≤ result) × (result < 128) }
{
    bit(true, 1 << Drive::BACKUP)
        + bit(bus, 1 << Drive::BUS)
        + c.tool * (1 << Drive::TOOL)
        + c.hand * (1 << Drive::HAND)
        + bit(run != rules::NO_RUN, 1 << Drive::RUN)
        + bit(rules::forced(c.forcing), 1 << Drive::FORCING)
        + c.fault * (1 << Drive::FAULT)
}

impl Drive {
    pub fn bus_on(self) -> bool
        ensures { result ≡ bus_on self }
    {
        let params = self.params;
        rules::bus_active(self.commands, self.age, params[table::TIMEOUT])
    }

    // The ruling rank of the record as it is.
    pub fn ruling(self) -> Rank
        requires { Flags self.commands }
        ensures { result.number ≡ ruling self }
    {
        let number = rules::ruling_rank(active(self.commands, self.run.kind, self.bus_on()));
        Rank { number }
    }

    // The target at a rank.
    #[tactic(auto, unfolding(crate::specs::Tick::target_at, rules::specs::Rank::targets))]
    pub fn target(self, rank: Rank) -> u8
        requires { Ranges self.params }
        ensures { result ≡ target_at self rank.number }
    {
        let values = self.params;
        let params = Params { values };
        match rank.number {
            Drive::FAULT => self.position,
            Drive::FORCING => pick(self.commands.forcing == 2, 0, 255),
            Drive::RUN => pick(self.run.kind == rules::SYNC_OPEN, 255, 0),
            Drive::HAND => rules::limited(params, self.commands.handpos),
            Drive::TOOL => rules::limited(params, self.commands.toolpos),
            Drive::BUS => rules::limited(params, self.commands.setpoint),
            _ => rules::backup_target(self.commands, self.position, params),
        }
    }
}

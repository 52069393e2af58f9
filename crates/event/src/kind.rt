// Document 01's eleven kinds of event.
ghost use Rattle.std.specs.Prelude.{◌≡◌};
ghost use Rattle.event.specs.Kinds.{IsKind, number};

use answer::Refusal;

#[derive(Clone, Copy, Debug, PartialEq, Eq)]
pub enum Kind {
    Tick = 1,
    Setpoint = 2,
    LteSetpoint = 3,
    Forcing = 4,
    Hand = 5,
    Calibration = 6,
    Fault = 7,
    Write = 8,
    Restart = 9,
    ReadPosition = 10,
    ReadParameter = 11,
}

// By its number; any other is refused.
impl TryFrom<u8> for Kind {
    type Error = Refusal;

    ghost try_from_gives = { IsKind };

    fn try_from(number: u8) -> Result<Kind, Refusal> {
        match number {
            1 => Ok(Kind::Tick),
            2 => Ok(Kind::Setpoint),
            3 => Ok(Kind::LteSetpoint),
            4 => Ok(Kind::Forcing),
            5 => Ok(Kind::Hand),
            6 => Ok(Kind::Calibration),
            7 => Ok(Kind::Fault),
            8 => Ok(Kind::Write),
            9 => Ok(Kind::Restart),
            10 => Ok(Kind::ReadPosition),
            11 => Ok(Kind::ReadParameter),
            _ => Err(Refusal::Kind),
        }
    }
}

impl Kind {
    pub fn number(self) -> u8
        ensures { result ≡ number self }
    {
        self as u8
    }
}

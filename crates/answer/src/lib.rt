// What an event is answered with.
#![tactic(auto)]

ghost use Rattle.std.specs.Prelude.{◌≡◌, ◌%◌};
ghost use Rattle.answer.specs.declared.Answer.TheVariants.{No};
ghost use Rattle.answer.specs.Refusal.{number};
ghost use Rattle.answer.specs.Answer.{word_of, code_of, answer_of};

mod refusal;

pub use refusal::{Refusal, refuse, refused_by};

#[derive(Clone, Copy)]
pub enum Answer {
    // Refused, by this number.
    // Kept: no Refusal, since an audit hears the answers of any drive, and the definition `answer_of` takes any byte.
    No(u8),
    Done,
    // A parameter's value.
    Par(u16),
    At {
        position: u8,
        percent: u8,
        status: u8,
    },
    // A tick with no report.
    Tick {
        position: u8,
        rank: u8,
        motor: u8,
    },
    // A tick with a report.
    Report {
        position: u8,
        rank: u8,
        motor: u8,
        status: u8,
    },
}

impl Answer {
    // The word of the answer's printed line as a number.
    // Kept: word, code and of, with two numbers side by side, since these are what crosses to C, which no enum does.
    pub fn word(self) -> u8
        ensures { result ≡ word_of self }
    {
        match self {
            Answer::No(_) => 0,
            Answer::Done => 1,
            Answer::Par(_) => 2,
            Answer::At { .. } => 3,
            Answer::Tick { .. } => 4,
            Answer::Report { .. } => 5,
        }
    }

    // The values of the answer's printed line as one number.
    pub fn code(self) -> u32
        ensures { result ≡ code_of self }
    {
        match self {
            Answer::No(n) => n as u32,
            Answer::Done => 0,
            Answer::Par(v) => v as u32,
            Answer::At {
                position,
                percent,
                status,
            } => 256 * (256 * (position as u32) + (percent as u32)) + (status as u32),
            Answer::Tick {
                position,
                rank,
                motor,
            } => 256 * (256 * (position as u32) + (rank as u32)) + (motor as u32),
            Answer::Report {
                position,
                rank,
                motor,
                status,
            } => {
                256 * (256 * (256 * (position as u32) + (rank as u32)) + (motor as u32))
                    + (status as u32)
            }
        }
    }

    // The answer with this word and these values.
    pub fn of(word: u8, code: u32) -> Answer
        ensures { result ≡ answer_of word code }
    {
        match word {
            0 => Answer::No(byte(code)),
            1 => Answer::Done,
            2 => Answer::Par((code % 65536) as u16),
            3 => Answer::At {
                position: byte(code / 65536),
                percent: byte(code / 256),
                status: byte(code),
            },
            4 => Answer::Tick {
                position: byte(code / 65536),
                rank: byte(code / 256),
                motor: byte(code),
            },
            _ => Answer::Report {
                position: byte(code / 16777216),
                rank: byte(code / 65536),
                motor: byte(code / 256),
                status: byte(code),
            },
        }
    }
}

// The last digit of base 256.
// Kept: no to_be_bytes here and no from_be_bytes in code, since the edit percent_in_base_255 is about the base of the digits.
fn byte(code: u32) -> u8
    ensures { result ≡ code % 256 }
{
    (code % 256) as u8
}

// A refusal as an answer.
impl From<Refusal> for Answer {
    ghost from_gives = { λ r a. a ≡ No (number r) };

    fn from(refusal: Refusal) -> Answer {
        Answer::No(refusal.number())
    }
}

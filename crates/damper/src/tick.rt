// A tick: advance (steps 1 to 3), due and, as `with_report`, the report of step 4.
ghost use Rattle.std.specs.Prelude.{◌≡◌, ◌<◌};
ghost use Rattle.table.specs.Laws.{Ranges};
ghost use Rattle.damper.specs.Tick.{aged, moved, ran_down, advance, status_of, due_with};
ghost use Rattle.damper.specs.Step.{ticked};

use crate::{Advanced, Drive, Formed, NO_RUN, Outcome, Rank, Run};
use answer::Answer;
use numbers::{next, pick};

impl Run {
    // Step 3.
    #[tactic(auto, unfolding(crate::specs::Tick::ran_down))]
    fn ran_down(self) -> Run
        ensures { result ≡ ran_down self }
    {
        let left = self.left;
        if left <= 1 {
            NO_RUN
        } else {
            Run {
                kind: self.kind,
                left: left - 1,
            }
        }
    }
}

impl Drive {
    // Step 1.
    #[tactic(auto, unfolding(crate::specs::Tick::aged))]
    pub fn aged(self) -> Drive
        ensures { result ≡ aged self }
    {
        self.with_counts(
            pick(self.commands.stored == 1, next(self.age), self.age),
            next(self.since),
        )
    }

    // Step 2.
    #[tactic(auto, unfolding(crate::specs::Tick::moved))]
    fn moved(self, rank: Rank) -> Drive
        requires { Ranges self.params }
        ensures { result ≡ moved self rank.number }
    {
        let params = self.params;
        self.with_move(motion::toward(self.position, self.target(rank), params[table::RATE] as u8))
    }

    // The status of the record as it is.
    pub fn status(self) -> u8
        ensures { result ≡ status_of self }
    {
        rules::status(self.commands, self.run.kind, self.bus_on())
    }

    // Whether a report is due after steps 1 to 3, which left this status.
    #[tactic(auto, unfolding(crate::specs::Tick::due_with))]
    pub fn due(self, status: u8) -> bool
        ensures { result ≡ due_with self status }
    {
        let params = self.params;
        let changed = rules::changed(
            params[table::ACT_POS_COV],
            self.position,
            self.last.position,
        );
        (params[table::MIN_REP_TIME] <= self.since)
            & ((self.last.reported != 1)
                | changed
                | (status != self.last.status)
                | (params[table::REP_PER] <= self.since))
    }
}

impl Formed {
    // Steps 1 to 3.
    #[tactic(auto, unfolding(crate::specs::Tick::advance, crate::specs::Tick::aged))]
    pub fn advance(self) -> Advanced
        ensures { result ≡ advance self.drive }
    {
        let d = self.drive;
        let a = d.aged();
        let rank = a.ruling();
        let drive = a.moved(rank).with_run(d.run.ran_down());
        let params = d.params;
        let motor = motion::motor(
            params[table::OPEN_CLOSE_DIRECTION],
            d.position,
            drive.position,
        );
        Advanced {
            drive,
            rank: rank.number,
            motor,
        }
    }

    // Kind 1.
    #[tactic(auto, unfolding(crate::specs::Step::ticked, crate::specs::Step::tick_with))]
    pub(crate) fn tick(self) -> Outcome
        ensures { result ≡ ticked self.drive }
    {
        let Advanced { drive, rank, motor } = self.advance();
        let status = drive.status();
        let position = drive.position;
        if drive.due(status) {
            Outcome {
                drive: drive.with_report(status),
                answer: Answer::Report {
                    position,
                    rank,
                    motor,
                    status,
                },
            }
        } else {
            Outcome {
                drive,
                answer: Answer::Tick {
                    position,
                    rank,
                    motor,
                },
            }
        }
    }
}

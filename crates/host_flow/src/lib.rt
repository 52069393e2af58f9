// The flow box for hosts in C or Rust: the record by value, a reading as a kind and a float, since an enum does not cross. `host_flow_c`
// exports it.
#![tactic(auto)]

ghost use Rattle.std.specs.Prelude.{◌≡◌};
ghost use Rattle.flow.specs.Flow.{fresh_record, well_formed, hear_of, heard};
ghost use Rattle.host_flow.specs.Host.{reading_of};

use flow::{FlowHeard, FlowRecord, FlowRefusal, Reading};

// Kind 0 is a flow, 1 a share, 2 broken, whose value is not looked at. Any other is read as -1 m³/h, which 23 refuses.
// Kept: a function, since the C interface has a kind and a float, and the definition `reading_of` makes a reading of every kind.
#[tactic(auto, using(flow::specs::Literals::is_1))]
fn reading_of(kind: u32, value: f32) -> Reading
    ensures { result ≡ reading_of kind value }
{
    match kind {
        0 => Reading::Flow(value),
        1 => Reading::Share(value),
        2 => Reading::Broken,
        _ => Reading::Flow(-1.0),
    }
}

pub fn damper_flow_fresh_layout3(nominal: f32, cov: f32, time: u32) -> FlowRecord
    ensures { result ≡ fresh_record nominal cov time }
{
    FlowRecord::fresh(nominal, cov, time)
}

pub fn damper_flow_well_formed_layout3(flow: FlowRecord) -> bool
    ensures { result ≡ well_formed flow }
{
    flow.well_formed()
}

#[tactic(auto, using(flow::specs::Laws::record_refused))]
pub fn damper_flow_hear_layout3(flow: FlowRecord, kind: u32, value: f32) -> FlowHeard
    ensures { result ≡ heard (hear_of flow (reading_of kind value)) }
{
    let Some(mut taken) = flow.checked() else {
        return FlowHeard::of(flow, Err(FlowRefusal::Record));
    };
    let answer = taken.hear(reading_of(kind, value));
    FlowHeard::of(taken.state, answer)
}

// The functions of `host_flow` as an archive that a host in C or Rust links.
// Kept: each function and its contract a second time, since the C interface needs an archive, and no crate can use one.
#![tactic(auto)]

ghost use Rattle.std.specs.Prelude.{◌≡◌};
ghost use Rattle.flow.specs.Flow.{fresh_record, well_formed, hear_of, heard};
ghost use Rattle.host_flow.specs.Host.{reading_of};

use flow::{FlowHeard, FlowRecord};

#[unsafe(no_mangle)]
pub extern "C" fn damper_flow_fresh_layout3(nominal: f32, cov: f32, time: u32) -> FlowRecord
    ensures { result ≡ fresh_record nominal cov time }
{
    host_flow::damper_flow_fresh_layout3(nominal, cov, time)
}

#[unsafe(no_mangle)]
pub extern "C" fn damper_flow_well_formed_layout3(flow: FlowRecord) -> bool
    ensures { result ≡ well_formed flow }
{
    host_flow::damper_flow_well_formed_layout3(flow)
}

#[unsafe(no_mangle)]
pub extern "C" fn damper_flow_hear_layout3(flow: FlowRecord, kind: u32, value: f32) -> FlowHeard
    ensures { result ≡ heard (hear_of flow (reading_of kind value)) }
{
    host_flow::damper_flow_hear_layout3(flow, kind, value)
}

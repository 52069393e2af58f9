// No code: specs/ proves what each event does to each field of a record, that every event keeps a record well formed, and that a percent
// reads back as itself.
#![tactic(auto)]

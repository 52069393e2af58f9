// No code: specs/ reads a list of events, states demand 3 over it and proves it of the drive.
#![tactic(auto)]

// No code: specs/ proves that each drive of a hall has the drive and the answers of its own share of the calls, and
// that it arrives at the target that rules in its share, and stays.
#![tactic(auto)]

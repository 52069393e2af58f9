// No code: specs/ proves that a drive arrives at the target of the source that rules, and stays there.
#![tactic(auto)]

// No code: specs/ says what a recording of a drive's answers is, and proves that the audit finds in it the sentences of demand 3 that fail.
#![tactic(auto)]

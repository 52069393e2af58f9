// No code: specs/ shows by computation that the claim of demand 3 refuses wrong drives, and that no sentence of it is empty.
#![tactic(auto)]

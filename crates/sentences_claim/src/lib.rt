// No code: specs/ says demand 3, the findings of the audit and W-207 a second time, and proves that the definitions agree for every input.
#![tactic(auto)]

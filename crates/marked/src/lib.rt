// No code: specs/ states the marked rows of document 01 and rows of our own, and proves them by computation.
#![tactic(auto)]

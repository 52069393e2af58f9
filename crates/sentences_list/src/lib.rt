// No code: specs/ says a second time what document 01 reads off the list of events, and proves that the definitions agree for every list.
#![tactic(auto)]

// No code: specs/ says document 02's requests on halls a second time, sentence by sentence, and proves that the definitions agree.
#![tactic(auto)]

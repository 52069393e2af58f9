// No code: specs/ says document 02's W-209 a second time, sentence by sentence, and proves that the definitions agree with it.
#![tactic(auto)]

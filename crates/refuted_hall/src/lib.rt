// No code: specs/ shows by computation, on small halls, what refuses wrong definitions of a hall, its quota, its shift page and its bill.
#![tactic(auto)]

// Lists and loops, for the definitions and the laws: no code.
#![tactic(auto)]

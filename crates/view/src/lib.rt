// What the columns of the work list stand for, in specs/, and laws about it, in proofs/. There is no code here.
#![tactic(auto)]

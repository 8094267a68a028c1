// What the user is promised: statements in specs/, their proofs in proofs/. There is no code here.
#![tactic(auto)]

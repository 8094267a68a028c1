// Laws about the definition, in proofs/: what the steps and the promises cite of it. There is no code here.
#![tactic(auto)]

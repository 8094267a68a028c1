// What is asked of somebody else's links, groups and orientations (request E10): definitions and laws, no code.
#![tactic(auto)]

// The marked examples. There is no code here.
#![tactic(auto)]

// The mathematics of locating and repairing damaged columns. There is no code here.
#![tactic(auto)]

// The mathematics of registers: what the shortest one is, and Algorithm 4, which finds it. There is no code here.
#![tactic(auto)]

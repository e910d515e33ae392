// Mathematics alone: rings and fields, sums, polynomials and their roots. There is no code here.
#![tactic(auto)]

// Eight jobs that locate in slices by turns: what is owed of them, and its proof. There are no functions here (SPECIFICATION.md, "Eight jobs").
#![tactic(auto)]

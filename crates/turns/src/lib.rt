// Turns among eight jobs, whatever a job is: definitions and mathematics alone. There are no functions here (SPECIFICATION.md, "Eight jobs").
#![tactic(auto)]

// What the program writes for a whole input, and what is owed of records and lines. There is no code here.
#![tactic(auto)]

// The cases that document 01 marks P, as one table that one proof covers. There is no code here.
#![tactic(auto)]

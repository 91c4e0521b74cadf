// Demand 3 over the definitions: a list of calls does on the book what it does on paper. There is no code here.
#![tactic(auto)]

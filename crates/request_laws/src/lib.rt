// What the steps of kinds 6, 7 and 8 keep: a sound book, the bonds, the amounts. There is no code here.
#![tactic(auto)]

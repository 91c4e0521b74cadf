// What a settlement keeps: a sound book, each participant's bonds, the exposures' amounts. There is no code here.
#![tactic(auto)]

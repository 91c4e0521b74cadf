// What the set-up kinds keep: a sound book, each participant's bonds, the exposures' amounts. There is no code here.
#![tactic(auto)]

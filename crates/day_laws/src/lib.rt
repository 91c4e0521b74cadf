// What the next day (kind 12) keeps, stage by stage and as a whole. There is no code here.
#![tactic(auto)]

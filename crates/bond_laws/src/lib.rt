// What moves of bonds keep: each participant's holding, whole lots, a sound book. There is no code here.
#![tactic(auto)]

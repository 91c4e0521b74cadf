// Soundness as facts: each clause of the sentence, from the test and back. There is no code here.
#![tactic(auto)]

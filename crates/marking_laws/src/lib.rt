// What a mark and a recall keep, and what the code of both counts on. There is no code here.
#![tactic(auto)]

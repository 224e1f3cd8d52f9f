// Definitions and lemmas that belong to no layer. There is no code here.
#![tactic(auto)]

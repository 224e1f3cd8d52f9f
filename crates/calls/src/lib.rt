// Definitions and theorems that table stands on. There is no code here.
#![tactic(auto)]

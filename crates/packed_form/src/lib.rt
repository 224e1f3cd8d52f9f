// Definitions and theorems that packed stands on. There is no code here.
#![tactic(auto)]

// Definitions and theorems that holdfile stands on. There is no code here.
#![tactic(auto)]

// Document 01's starred examples, as one list with one theorem. There is no code here.
#![tactic(auto)]

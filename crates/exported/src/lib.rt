// What lists of exported calls mean, as lists of the documents' calls: no code, only definitions and theorems.
#![tactic(auto)]

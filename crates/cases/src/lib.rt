// The cases of the rules: a table of questions with their answers, and one proof over it.
#![tactic(auto)]

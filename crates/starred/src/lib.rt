// No code: specs/ holds document 01's starred cases as one table, and proofs/ the theorem that every row holds.

#![tactic(auto)]

// No code: specs/ holds what the program `walk` prints, line by line and page by page, and proofs/ the theorem that its
// pages are the output that document 01 asks for. The code is in `pages`.

#![tactic(auto)]

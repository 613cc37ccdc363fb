// Samples of documents 01 and 02: what the definitions give, beside what the documents say. Tables in specs/, proofs in proofs/; no programs.
#![tactic(auto)]

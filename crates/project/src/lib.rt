// Projection of the saved blocks: definitions in specs/, theorems in proofs/. The code is in `saved`, `landing`, `put`, `sample` and `source`.
#![tactic(auto)]

// The layout of a block memory: words in bytes, blocks with their checks, the image of a model.
// It is all in specs/, and the laws of it in proofs/; the code is in the crates above.
#![tactic(auto)]

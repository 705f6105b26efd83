// Semantic signatures and what is said of them, as plain trees (semantic_sigs has them in code): parts, root paths, well
// formed and ordered explicit signatures, environments, encoding, subtyping, matching, look-up, lifting, and the order of a
// package's quantifiers.
// Stands on omega_terms.
// Nothing is proved here: the laws stand in crates of their own above, sig_laws the lowest of them.
#![tactic(auto)]

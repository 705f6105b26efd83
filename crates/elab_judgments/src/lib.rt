// The judgments of elaboration: what each phrase means in an environment, and how it is refused.
// Stands on the crates of the single rules (core_judgments, sig_judgments, module_judgments, functor_judgments and
// package_judgments), whose relations the judgments cite, on refusal_reasons and fing_syntax.
// Nothing is proved here: the laws stand in elab_laws and elab_exact, worked programs in elab_examples.
#![tactic(auto)]

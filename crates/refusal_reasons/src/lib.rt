// Why a program is refused, and where: definitions only (fing_refusals has them in code).
// Stands on sig_definitions and fing_syntax.
// Nothing is proved here: the refusals are cited by the rules of elaboration.
#![tactic(auto)]

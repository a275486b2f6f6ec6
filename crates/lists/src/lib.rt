// Definitions and laws of lists, of loops that read them, and of rules that are put to use again and again. No code: what a
// contract cites stands in specs/, what a proof cites in proofs/.
#![tactic(auto)]

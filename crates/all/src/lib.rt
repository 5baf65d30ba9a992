// No code: proofs/All.antt passes on, for every public function, that its contract leaves no choice.
#![tactic(auto)]

// No code: specs/Tight.antt says when a written contract leaves no choice, and has the law by which a contract of facts does.
#![tactic(auto)]

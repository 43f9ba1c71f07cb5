// The order, sentence by sentence, as theorems about the definitions that the contracts cite. It has no function of its own.
#![tactic(auto)]

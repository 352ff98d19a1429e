// Lemmas that know nothing of laboratories. No function is here.

#![tactic(auto)]

// Pure theory: an end, and what its six calls make of it. All of it stands in specs/.
#![tactic(auto)]

// Pure theory: counting over ticks, and the bounds that it gives. All of it stands in specs/.
#![tactic(auto)]

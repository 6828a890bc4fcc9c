// Pure theory: fair networks, and the ticks in which things arrive. All of it stands in specs/.
#![tactic(auto)]

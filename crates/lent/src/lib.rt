// Pure theory: statement B, of the lent buffers that the six calls change. All of it stands in specs/.
#![tactic(auto)]

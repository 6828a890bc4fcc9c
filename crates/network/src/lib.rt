// Pure theory: two ends and any network, and what is delivered is true. All of it stands in specs/.
#![tactic(auto)]

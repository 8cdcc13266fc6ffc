#![tactic(auto)]

// The limits that every state of the rules keeps to: laws alone, in specs/.

// NO GROUND IS LOST (RULES 7.5, 13.3): in a file that keeps stages 2 and 4 to 6, every layer's areas
// measure as much as its outside sum. Definitions and laws; the calls that report these figures are the
// judge's.
#![tactic(auto)]

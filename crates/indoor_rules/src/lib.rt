// What the indoor end does, as definitions and laws, without code (01, The indoor end's phases). The code that meets them is in indoor_decide
// and indoor.
#![tactic(auto)]

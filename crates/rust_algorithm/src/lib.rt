// No code: the algorithms of rangemap 1.8.0, transcribed as definitions, and the proof that they answer what `outcomes` defines.
#![tactic(auto)]

// No code: what rangemap answers on small maps, computed by the transcription of its algorithms and compared with the answers of rangemap itself.
#![tactic(auto)]

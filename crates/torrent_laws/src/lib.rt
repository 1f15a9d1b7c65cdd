// What a torrent is, that exactly these are read, and when each refusal is given: definitions (specs/) and laws (proofs/) about `torrent_metainfo`'s outcome, and no code.
#![tactic(auto)]

// An integer's decimal text: its definition and rows, in specs/ and proofs/. The crate `decimal` computes it.
#![tactic(auto)]

//! Sets as numbers: what operators on truths, one after another, do to the number that has them as its binary digits. Laws
//! alone, for the proofs of the crates above.

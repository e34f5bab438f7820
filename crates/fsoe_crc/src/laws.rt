//! What the CRC always detects, and how it is made of the CRCs of parts.

ghost use Rattle.std.specs.Prelude.{◌≡◌, ◌≢◌, ◌<◌, ◌≤◌, ℕ, ◌+◌, ◌*◌, ◌^◌, List, [], ◌∷◌, ◌++◌, length, replicate, bit_xor};
ghost use Rattle.fsoe_crc.specs.Remainder.{rem};
ghost use Rattle.fsoe_crc.specs.Turned.{turned_bits};
ghost use Rattle.fsoe_crc.specs.Weights.{bits_turned_by, cases_passing};

/// Two lists of bytes of one length that differ only within two adjacent bytes, or within one byte, have different
/// CRCs. The call does nothing: the law is its contract.
pub fn adjacent_bytes()
    ensures two { (before after : List ℕ) (a b c d : ℕ) → a < 256 → b < 256 → c < 256 → d < 256 → rem (before ++ a ∷ b ∷ after) ≡ rem (before ++ c ∷ d ∷ after) → (a ≡ c) × (b ≡ d) }
    ensures one { (before after : List ℕ) (a c : ℕ) → a < 256 → c < 256 → rem (before ++ a ∷ after) ≡ rem (before ++ c ∷ after) → a ≡ c }
{}

/// The CRC is linear: that of two parts is the exclusive-or of two CRCs. One is that of the first part with zeros in
/// place of the second, the other that of the second part only. So each part can be computed by itself.
pub fn two_parts()
    ensures { (first second : List ℕ) → rem (first ++ second) ≡ bit_xor (rem (first ++ replicate (length second) 0)) (rem second) }
{}

/// Two data bytes with their CRC are 32 bits. Two other data bytes with theirs differ from these in at least six bits,
/// whatever comes before both; and so do one data byte and another. Three zeros follow the data, as in a frame's cover.
/// Some reach six.
#[tactic(auto, using(crate::proofs::Weight::pair_turned, crate::proofs::Weight::byte_turned, crate::proofs::Weight::six_reached))]
pub fn six_turned_bits()
    ensures pair { (before : List ℕ) (a b c d : ℕ) → a < 256 → b < 256 → c < 256 → d < 256 → (a ≡ c → b ≢ d) → 6 ≤ turned_bits a c + turned_bits b d + turned_bits (rem (before ++ a ∷ b ∷ 0 ∷ 0 ∷ 0 ∷ [])) (rem (before ++ c ∷ d ∷ 0 ∷ 0 ∷ 0 ∷ [])) }
    ensures one { (before : List ℕ) (a c : ℕ) → a < 256 → c < 256 → a ≢ c → 6 ≤ turned_bits a c + turned_bits (rem (before ++ a ∷ 0 ∷ 0 ∷ 0 ∷ [])) (rem (before ++ c ∷ 0 ∷ 0 ∷ 0 ∷ [])) }
    ensures reached { turned_bits 0x2C 0 + turned_bits 4 0 + turned_bits (rem (0x2C ∷ 4 ∷ 0 ∷ 0 ∷ 0 ∷ [])) (rem (0 ∷ 0 ∷ 0 ∷ 0 ∷ 0 ∷ [])) ≡ 6 }
{}

/// What the counted changes stand for: if two lists of data bytes differ by a change, whatever comes before both, they
/// and their CRCs differ in as many bits as the change turns. Of one byte the change is below 256.
#[tactic(auto, using(crate::proofs::Weight::pair_change, crate::proofs::Weight::byte_change))]
pub fn counted_changes()
    ensures two { (before : List ℕ) (a b c d : ℕ) → a < 256 → b < 256 → c < 256 → d < 256 → turned_bits a c + turned_bits b d + turned_bits (rem (before ++ a ∷ b ∷ 0 ∷ 0 ∷ 0 ∷ [])) (rem (before ++ c ∷ d ∷ 0 ∷ 0 ∷ 0 ∷ [])) ≡ bits_turned_by (bit_xor a c * 256 + bit_xor b d) }
    ensures one { (before : List ℕ) (a c : ℕ) → a < 256 → c < 256 → turned_bits a c + turned_bits (rem (before ++ a ∷ 0 ∷ 0 ∷ 0 ∷ [])) (rem (before ++ c ∷ 0 ∷ 0 ∷ 0 ∷ [])) ≡ bits_turned_by (bit_xor a c) }
{}

/// Let each bit be turned in one case of three, whatever befalls the others. Then a change of one data byte passes in
/// 4,728,320 of the 3^24 cases of it and its CRC, and of two in 27,924,317,168 of 3^32. If it is one case of two, as many
/// cases pass as there are changes. So at one of three a greater share passes with one data byte, above 1 of 2^16, and
/// a smaller share with two.
#[tactic(auto, using(crate::proofs::Cases::byte_third, crate::proofs::Cases::pair_third, crate::proofs::Cases::each_once, crate::proofs::Cases::byte_falls, crate::proofs::Cases::pair_rises, crate::proofs::Cases::byte_above))]
pub fn shares_that_pass()
    ensures one_of_three { cases_passing 255 24 1 2 ≡ 4728320 }
    ensures two_of_three { cases_passing 65535 32 1 2 ≡ 27924317168 }
    ensures one_of_two { (most bits : ℕ) → cases_passing most bits 1 1 ≡ most }
    ensures one_falls { cases_passing 255 24 1 1 * 3 ^ 24 < cases_passing 255 24 1 2 * 2 ^ 24 }
    ensures two_rises { cases_passing 65535 32 1 2 * 2 ^ 32 < cases_passing 65535 32 1 1 * 3 ^ 32 }
    ensures one_above { 3 ^ 24 < cases_passing 255 24 1 2 * 2 ^ 16 }
{}

//! What the chain always detects. The calls do nothing: each law is a contract. The extra increment is that of the
//! number for an equal CRC_0.

ghost use Rattle.std.specs.Prelude.{◌≡◌, ◌≢◌, ◌<◌, ◌≤◌, ◌⊎◌, ℕ, List, [], ◌∷◌, length, take, Option, Some, None, IfSome, IsTrue, false, bit_xor};
ghost use Rattle.fsoe_crc.specs.Remainder.{rem};
ghost use Rattle.fsoe_base.specs.Lengths.{is_length, frame_len};
ghost use Rattle.fsoe_frame.specs.Parts.{Frame, AreBytes, frame_of};
ghost use Rattle.seq_chain.specs.declared.chain.Chain.{Chain};
ghost use Rattle.seq_chain.specs.declared.link.Link.{Link};
ghost use Rattle.seq_chain.specs.Chain.{fresh, sealed_by, after_sent, after_taken, turned};
ghost use Rattle.seq_chain.specs.Session.{fits_next};
ghost use Rattle.seq_chain.specs.Cover.{cover, crc_0, first_of};
ghost use Rattle.seq_chain.specs.Numbers.{next, number_of};
ghost use Rattle.seq_chain.specs.Sealing.{sealed, noted, fits};
ghost use Rattle.seq_chain.specs.BothFit.{noted_before, stepped_frame, other_frame};
ghost use Rattle.seq_chain.specs.Differences.{CancelsOut, DifferAsData, DifferEverywhere, DifferInCommand, DifferInConnection, DifferInGroup, DifferInCrc, DifferInGroups, turned_in_frames, SteppedAlike};
ghost use Rattle.seq_chain.specs.FreshIds.{first_number, SteppedAlikeAfter, step_in_last, step_in_load};

/// If two covers (inputs of a CRC) differ in one part only, their CRCs differ. A part is the CRC_0 taken last, the
/// connection id, the number, the command, or the data of the group, one byte or two in both.
#[tactic(auto, using(crate::proofs::ToldApart::last_told, crate::proofs::ToldApart::connection_told, crate::proofs::ToldApart::number_told, crate::proofs::ToldApart::command_told, crate::proofs::ToldApart::data_told))]
pub fn covers()
    ensures last { (last last' conn number cmd i : ℕ) (group : List ℕ) → last < 65536 → last' < 65536 → last ≢ last' → rem (cover last conn number cmd i group) ≢ rem (cover last' conn number cmd i group) }
    ensures connection { (last conn conn' number cmd i : ℕ) (group : List ℕ) → conn < 65536 → conn' < 65536 → conn ≢ conn' → rem (cover last conn number cmd i group) ≢ rem (cover last conn' number cmd i group) }
    ensures number { (last conn number number' cmd i : ℕ) (group : List ℕ) → number < 65536 → number' < 65536 → number ≢ number' → rem (cover last conn number cmd i group) ≢ rem (cover last conn number' cmd i group) }
    ensures command { (last conn number cmd cmd' i : ℕ) (group : List ℕ) → cmd < 256 → cmd' < 256 → cmd ≢ cmd' → rem (cover last conn number cmd i group) ≢ rem (cover last conn number cmd' i group) }
    ensures group_data { (last conn number cmd i : ℕ) (group group' : List ℕ) → length group ≤ 2 → length group ≡ length group' → AreBytes group → AreBytes group' → group ≢ group' → rem (cover last conn number cmd i group) ≢ rem (cover last conn number cmd i group') }
{}

/// One extra increment is always enough: under two consecutive numbers a frame has different CRC_0. The number after a
/// 16-bit one is from 1 to 65,535, and after 65,535 comes 1.
#[tactic(auto, using(crate::proofs::Steps::one_step, crate::proofs::Steps::number_within))]
pub fn numbers()
    ensures goes_around { next 65535 ≡ 1 }
    ensures one_step { (last conn number cmd : ℕ) (load : List ℕ) → number < 65536 → 0 < length load → crc_0 last conn number cmd load ≢ crc_0 last conn (next number) cmd load }
    ensures within { (last conn cmd : ℕ) (before : Option Link) (load : List ℕ) → IfSome before (λ link. link.number < 65536) → (0 < number_of last before conn cmd load) × (number_of last before conn cmd load < 65536) }
{}

/// Consecutive frames of one end in a session have different CRC_0. The CRC_0 of the frame that is sealed after a
/// `Link` differs from the one in this `Link`, and so from that of the previous frame.
#[tactic(auto, using(crate::proofs::Steps::after_link))]
pub fn consecutive()
    ensures after_link { (last conn cmd : ℕ) (link : Link) (load : List ℕ) → link.number < 65536 → 0 < length load → first_of (sealed last (Some link) conn cmd load).crcs ≢ link.crc }
    ensures after_frame { (last last' conn cmd : ℕ) (before : Option Link) (frame : Frame) (load : List ℕ) → IfSome before (λ link. link.number < 65536) → 0 < length load → first_of (sealed last' (Some (noted last before frame)) conn cmd load).crcs ≢ first_of frame.crcs }
{}

/// Let frame A fit. If frame B differs from A only in the data of one group after the first, or only in one CRC field,
/// B doesn't fit.
#[tactic(auto, using(crate::proofs::OneChange::later_data_refused, crate::proofs::OneChange::crc_refused))]
pub fn one_change()
    ensures later_data { (last : ℕ) (before : Option Link) (f g : Frame) (k : ℕ) → 0 < k → AreBytes f.load → AreBytes g.load → IsTrue (fits last before f) → DifferInGroup k f g → fits last before g ≡ false }
    ensures crc_field { (last : ℕ) (before : Option Link) (f g : Frame) (k : ℕ) → IsTrue (fits last before f) → DifferInCrc k f g → fits last before g ≡ false }
{}

/// Let frame A fit, and let frame B differ from A only in the command, only in the connection id field, or only in the
/// data of the first group. Then B doesn't fit, provided that the extra increment comes for both or for neither.
#[tactic(auto, using(crate::proofs::OneChange::command_refused, crate::proofs::OneChange::connection_refused, crate::proofs::OneChange::first_data_refused))]
pub fn one_change_stepped_alike()
    ensures command { (last : ℕ) (before : Option Link) (f g : Frame) → f.cmd < 256 → g.cmd < 256 → 0 < length f.load → IsTrue (fits last before f) → DifferInCommand f g → SteppedAlike last before f g → fits last before g ≡ false }
    ensures connection { (last : ℕ) (before : Option Link) (f g : Frame) → f.conn < 65536 → g.conn < 65536 → 0 < length f.load → IsTrue (fits last before f) → DifferInConnection f g → SteppedAlike last before f g → fits last before g ≡ false }
    ensures first_data { (last : ℕ) (before : Option Link) (f g : Frame) → AreBytes f.load → AreBytes g.load → IsTrue (fits last before f) → DifferInGroup 0 f g → SteppedAlike last before f g → fits last before g ≡ false }
{}

/// Let frame A fit, and let frame B differ from A only in data and CRC fields, in one to five bits. Then B doesn't fit,
/// provided that there are two groups or more, that the data of the first group are equal, or that the extra increment
/// comes for both or for neither. Where they differ in one or two bits, no condition is needed. With the last condition
/// no frame fits that differs from A in one to three bits anywhere.
#[tactic(auto, using(crate::proofs::FewTurned::groups_refused, crate::proofs::FewTurned::first_refused, crate::proofs::StepTurned::two_refused, crate::proofs::StepTurned::any_refused))]
pub fn few_turned_bits()
    ensures two_groups { (last : ℕ) (before : Option Link) (f g : Frame) → IfSome before (λ link. link.number < 65536) → 4 ≤ length f.load → AreBytes f.load → AreBytes g.load → IsTrue (fits last before f) → DifferInGroups f g → turned_in_frames f g < 6 → fits last before g ≡ false }
    ensures any_groups { (last : ℕ) (before : Option Link) (f g : Frame) → IfSome before (λ link. link.number < 65536) → 0 < length f.load → AreBytes f.load → AreBytes g.load → IsTrue (fits last before f) → DifferInGroups f g → turned_in_frames f g < 3 → fits last before g ≡ false }
    ensures later_groups { (last : ℕ) (before : Option Link) (f g : Frame) → AreBytes f.load → AreBytes g.load → IsTrue (fits last before f) → DifferInGroups f g → take 2 f.load ≡ take 2 g.load → turned_in_frames f g < 6 → fits last before g ≡ false }
    ensures groups { (last : ℕ) (before : Option Link) (f g : Frame) → AreBytes f.load → AreBytes g.load → IsTrue (fits last before f) → DifferInGroups f g → SteppedAlike last before f g → turned_in_frames f g < 6 → fits last before g ≡ false }
    ensures anywhere { (last : ℕ) (before : Option Link) (f g : Frame) → f.cmd < 256 → g.cmd < 256 → f.conn < 65536 → g.conn < 65536 → 0 < length f.load → length f.load ≡ length g.load → AreBytes f.load → AreBytes g.load → IsTrue (fits last before f) → f ≢ g → SteppedAlike last before f g → turned_in_frames f g < 4 → fits last before g ≡ false }
{}

/// In state Data an end takes only data frames (ProcessData, FailSafeData) of its connection id. Let A and B be such
/// frames that differ in one to five bits, wherever these are, and let A fit. Then B doesn't fit, provided that there
/// are two groups or more. With one group it doesn't fit if they differ in one or two bits.
#[tactic(auto, using(crate::proofs::StepTurned::two_refused_as_data, crate::proofs::StepTurned::any_refused_as_data))]
pub fn few_turned_bits_in_data()
    ensures two_groups { (last : ℕ) (before : Option Link) (f g : Frame) → IfSome before (λ link. link.number < 65536) → 4 ≤ length f.load → AreBytes f.load → AreBytes g.load → IsTrue (fits last before f) → DifferAsData f g → turned_in_frames f g < 6 → fits last before g ≡ false }
    ensures any_groups { (last : ℕ) (before : Option Link) (f g : Frame) → IfSome before (λ link. link.number < 65536) → 0 < length f.load → AreBytes f.load → AreBytes g.load → IsTrue (fits last before f) → DifferAsData f g → turned_in_frames f g < 3 → fits last before g ≡ false }
{}

/// The condition on the extra increment is needed: there are two frames that differ only in the data of the first group
/// and both fit after the same frames. Only one of their numbers is incremented once more.
#[tactic(auto, using(crate::proofs::BothFit::stepped_fits, crate::proofs::BothFit::other_fits))]
pub fn proviso_is_needed()
    ensures one_fits { IsTrue (fits 0x672D noted_before stepped_frame) }
    ensures another_fits { IsTrue (fits 0x672D noted_before other_frame) }
    ensures differ { DifferInGroup 0 stepped_frame other_frame }
{}

/// A frame that fits after one CRC_0 of the receiver's last frame doesn't fit after another, provided that the extra
/// increment comes for both or for neither. For the first frame of a session this is always so. For the second no
/// condition is needed, unless the exclusive-or of the two CRC_0 is 72B6h.
#[tactic(auto, using(crate::proofs::AnotherLast::another_refused, crate::proofs::AnotherLast::first_refused, crate::proofs::AnotherLast::second_refused))]
pub fn another_last()
    ensures stepped_alike { (last last' : ℕ) (before : Option Link) (f : Frame) → last < 65536 → last' < 65536 → last ≢ last' → 0 < length f.load → SteppedAlikeAfter last last' before f → IsTrue (fits last before f) → fits last' before f ≡ false }
    ensures first { (last last' : ℕ) (f : Frame) → last < 65536 → last' < 65536 → last ≢ last' → 0 < length f.load → IsTrue (fits last None f) → fits last' None f ≡ false }
    ensures second { (last last' crc : ℕ) (f : Frame) → last < 65536 → last' < 65536 → last ≢ last' → bit_xor last last' ≢ step_in_last → 0 < length f.load → IsTrue (fits last (Some (record { number = 1; crc = crc })) f) → fits last' (Some (record { number = 1; crc = crc })) f ≡ false }
{}

/// A frame that fitted at one time fits at another in every group or in none: all its CRCs are right, or none is. And
/// for each two numbers exactly one exclusive-or of the CRC_0 taken last, of 65,536, makes a frame fit under both.
#[tactic(auto, using(crate::proofs::Misplaced::every_or_none, crate::proofs::Misplaced::one_cancels))]
pub fn misplaced_frames()
    ensures every_group_or_none { (last last' : ℕ) (before before' : Option Link) (f : Frame) → IsTrue (fits last before f) → IsTrue (fits last' before' f) ⊎ DifferEverywhere f.crcs (sealed last' before' f.conn f.cmd f.load).crcs }
    ensures one_exclusive_or { (number number' : ℕ) → (change : ℕ) × CancelsOut change number number' }
{}

/// Loads of one length with different first groups have different CRC_0 under the same number. So have two candidates
/// for the next frame, if the extra increment comes for both or for neither, as always at the first frame of a session.
/// The exclusive-or of their CRC_0 is 72B6h only if that of their first groups is 9985h.
#[tactic(auto, using(crate::proofs::FirstGroups::first_told, crate::proofs::FirstGroups::differ_in_load))]
pub fn first_groups()
    ensures loads { (last conn number cmd : ℕ) (load load' : List ℕ) → length load ≡ length load' → AreBytes load → AreBytes load' → first_number load ≢ first_number load' → crc_0 last conn number cmd load ≢ crc_0 last conn number cmd load' }
    ensures frames { (last conn cmd : ℕ) (before : Option Link) (load load' : List ℕ) → length load ≡ length load' → AreBytes load → AreBytes load' → first_number load ≢ first_number load' → SteppedAlike last before (sealed last before conn cmd load) (sealed last before conn cmd load') → first_of (sealed last before conn cmd load).crcs ≢ first_of (sealed last before conn cmd load').crcs }
    ensures by_step { (last conn number cmd : ℕ) (load load' : List ℕ) → length load ≡ length load' → AreBytes load → AreBytes load' → bit_xor (crc_0 last conn number cmd load) (crc_0 last conn number cmd load') ≡ step_in_last → bit_xor (first_number load) (first_number load') ≡ step_in_load }
{}

/// 72B6h is the CRC of the bytes 85 99 00 00 00. The CRC of B6 72 00 00 01 00 is 0; here 00 00 is a connection id, and
/// 01 00 is the exclusive-or of the numbers 2 and 3.
#[tactic(auto, using(crate::proofs::FirstGroups::step_is, crate::proofs::AnotherLast::step_is_nothing))]
pub fn steps()
    ensures in_load { rem (0x85 ∷ 0x99 ∷ 0 ∷ 0 ∷ 0 ∷ []) ≡ step_in_last }
    ensures in_last { rem (0xB6 ∷ 0x72 ∷ 0 ∷ 0 ∷ 1 ∷ 0 ∷ []) ≡ 0 }
{}

/// A frame that is read from bytes of its length fulfils the conditions of these laws: its load has at least one byte,
/// and its parts are within their widths.
#[tactic(auto, using(fsoe_frame::proofs::Places::frame_at, crate::proofs::Received::received_connection, crate::proofs::Received::received_load, crate::proofs::Received::received_some))]
pub fn received()
    ensures command { (l : ℕ) (bytes : List ℕ) → IsTrue (is_length l) → length bytes ≡ frame_len l → AreBytes bytes → (frame_of l bytes).cmd < 256 }
    ensures connection { (l : ℕ) (bytes : List ℕ) → IsTrue (is_length l) → length bytes ≡ frame_len l → AreBytes bytes → (frame_of l bytes).conn < 65536 }
    ensures load { (l : ℕ) (bytes : List ℕ) → IsTrue (is_length l) → length bytes ≡ frame_len l → AreBytes bytes → AreBytes (frame_of l bytes).load }
    ensures some_load { (l : ℕ) (bytes : List ℕ) → IsTrue (is_length l) → length bytes ≡ frame_len l → 0 < length (frame_of l bytes).load }
{}

/// Both ends begin with a new chain. As long as each end takes all frames of the other, its chain is that of the other,
/// mirrored. Then the next frame that an end seals fits at the peer, and their chains are mirrored again.
#[tactic(auto, using(crate::proofs::Turned::next_fits))]
pub fn both_chains()
    ensures begun { turned fresh ≡ fresh }
    ensures twice { (chain : Chain) → turned (turned chain) ≡ chain }
    ensures fits { (chain : Chain) (conn cmd : ℕ) (load : List ℕ) → IsTrue (fits_next (turned chain) (sealed_by chain conn cmd load)) }
    ensures after { (chain : Chain) (frame : Frame) → turned (after_sent chain frame) ≡ after_taken (turned chain) frame }
{}

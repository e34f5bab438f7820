//! What is written is read again, and what inputs say.
ghost use Rattle.std.specs.Prelude.{◌≡◌, ◌<◌, ◌≤◌, ℕ, Some, All, List, [], ◌∷◌, ◌++◌, None, IfSome, codes, length, map, true};
ghost use Rattle.std.specs.declared.result.Result.TheVariants.{Err, Ok};
ghost use Rattle.fsoe_base.specs.declared.command.End.{End};
ghost use Rattle.param_load.specs.declared.master_settings.MasterSettings.{MasterSettings};
ghost use Rattle.param_load.specs.declared.profile.Profile.{Profile};
ghost use Rattle.param_load.specs.declared.slave_settings.SlaveSettings.{SlaveSettings};
ghost use Rattle.schedule_file.specs.declared.event.Event.{Event};
ghost use Rattle.schedule_file.specs.Limits.{max_app, max_back, max_events, max_hex, max_line, most_pairs};
ghost use Rattle.schedule_file.specs.declared.event.TheConstants.{MAX_BACK, MAX_EVENTS};
ghost use Rattle.schedule_file.specs.declared.field.TheConstants.{MAX_HEX};
ghost use Rattle.schedule_file.specs.declared.header_part.TheConstants.{MAX_APP};
ghost use Rattle.schedule_file.specs.declared.line_buf.TheConstants.{MAX_LINE};
ghost use Rattle.schedule_file.specs.declared.pairs_header.TheConstants.{MOST_PAIRS};
ghost use Rattle.schedule_file.specs.declared.event.ScheduleLine.TheVariants.{Step};
ghost use Rattle.schedule_file.specs.Event.{Fits, FitsEnd};
ghost use Rattle.schedule_file.specs.EventText.{IsOfTypes, event_text};
ghost use Rattle.schedule_file.specs.Header.{Heading, IsMasterOf, IsSlaveOf};
ghost use Rattle.schedule_file.specs.Input.{AtEnd, NoLine, NoNewline, Line, Refused, heading_profile, input_of, own_length};
ghost use Rattle.schedule_file.specs.WorkedInputs.{input_with};
ghost use Rattle.schedule_file.specs.declared.event.Event.TheVariants as event;
ghost use Rattle.schedule_file.specs.declared.header_kind.HeaderKind.{HeaderKind};
ghost use Rattle.schedule_file.specs.declared.header_kind.HeaderKind.TheVariants.{Node, Pair};
ghost use Rattle.schedule_file.specs.declared.line_cause.LineCause.TheVariants as cause;
ghost use Rattle.fsoe_base.specs.declared.command.End.TheVariants as side;
ghost use Rattle.schedule_file.specs.PairEvent.{pair_line};
ghost use Rattle.schedule_file.specs.PairsEvent.{numbered, pairs_line};
ghost use Rattle.schedule_file.specs.PairsFit.{FitsPair, PairsLineFits, with_pair, line_of_event};
ghost use Rattle.schedule_file.specs.PairsHeader.{pairs_of};
ghost use Rattle.schedule_file.specs.PairsInput.{pairs_input};
ghost use Rattle.schedule_file.specs.WorkedPairs.{pairs_with, says_to_two};
ghost use Rattle.schedule_file.specs.declared.pairs_line.PairsEvent.TheVariants as pairs_event;
ghost use Rattle.schedule_file.specs.declared.pairs_line.PairsLine.TheVariants.{One};

/// The line that is written of an event is read as the same event, at all ends that the event fits.
/// The call does nothing: the law is its contract.
#[tactic(auto, using(crate::proofs::ReadBack::read_back))]
pub fn written_is_read()
    ensures { (sends : End → ℕ) (profiles : End → Profile) (event : Event) → IsOfTypes event → Fits sends profiles event → pair_line sends profiles (event_text event) ≡ Ok (Step event) }
{}

/// An event line of a pair, written with the number of another pair before it, means the same for that one, if its ends
/// have equal lengths and profiles.
pub fn numbered_lines_say_the_same()
    ensures { (sends : List (End → ℕ)) (profiles : List (End → Profile)) (pair : ℕ) (own : End → ℕ) (profile : End → Profile) (text : List ℕ) (event : Event) → pair < 65536
        → numbered pair sends ≡ Some own → numbered pair profiles ≡ Some profile → pair_line own profile text ≡ Ok (Step event) → pairs_line sends profiles (with_pair pair text) ≡ Ok (One pair event) }
{}

/// The line of an event, written with the number of its pair before it, is read as the same event of this pair, at all
/// pairs that the event fits.
#[tactic(auto, using(crate::proofs::PairsRead::pair_read_back))]
pub fn written_of_pair_is_read()
    ensures { (sends : List (End → ℕ)) (profiles : List (End → Profile)) (pair : ℕ) (event : Event) → pair < 65536 → IsOfTypes event → FitsPair sends profiles pair event
        → pairs_line sends profiles (with_pair pair (event_text event)) ≡ Ok (One pair event) }
{}

/// An input without a byte is refused at its first line, since there is none.
pub fn no_bytes_are_refused()
    ensures { (kind : HeaderKind) → input_of kind [] ≡ record { heading = None; lines = 0; events = []; stop = Refused 1 NoLine } }
{}

/// The constants are the limits of the definitions.
pub fn constants()
    ensures events { MAX_EVENTS ≡ max_events }
    ensures back { MAX_BACK ≡ max_back }
    ensures line { MAX_LINE ≡ max_line }
    ensures hex { MAX_HEX ≡ max_hex }
    ensures app { MAX_APP ≡ max_app }
    ensures pairs { MOST_PAIRS ≡ most_pairs }
{}

/// An input has at most 200,000 events.
#[tactic(auto, using(crate::proofs::FewEvents::few_events))]
pub fn inputs_have_few_events()
    ensures { (kind : HeaderKind) (bytes : List ℕ) → length (input_of kind bytes).events ≤ max_events }
{}

/// The header of an input, where it is whole, gives settings of both ends, and gives no others; those of an end that it
/// doesn't describe are such as no line says.
#[tactic(auto, using(crate::proofs::Sound::gives_master, crate::proofs::Sound::gives_slave))]
pub fn whole_headers_give_settings()
    ensures master { (kind : HeaderKind) (bytes : List ℕ) → IfSome (input_of kind bytes).heading (λ h. (settings : MasterSettings) × IsMasterOf h settings) }
    ensures slave { (kind : HeaderKind) (bytes : List ℕ) → IfSome (input_of kind bytes).heading (λ h. (settings : SlaveSettings) × IsSlaveOf h settings) }
    ensures one_master { (h : Heading) (a b : MasterSettings) → IsMasterOf h a → IsMasterOf h b → a ≡ b }
    ensures one_slave { (h : Heading) (a b : SlaveSettings) → IsSlaveOf h a → IsSlaveOf h b → a ≡ b }
{}

/// The events of an input with a complete header fit the ends that it describes. These are both ends of a pair, that of
/// a node, or those of the pair that an event of several pairs names.
#[tactic(auto, using(crate::proofs::Fitting::events_fit, crate::proofs::Fitting::node_events_fit, crate::proofs::PairsFitting::pairs_events_fit))]
pub fn events_fit()
    ensures pair { (bytes : List ℕ) → IfSome (input_of Pair bytes).heading (λ h. All (Fits (own_length h) (heading_profile h)) (input_of Pair bytes).events) }
    ensures node { (end : End) (bytes : List ℕ) → IfSome (input_of (Node end) bytes).heading (λ h. All (FitsEnd end (own_length h end) (heading_profile h end)) (input_of (Node end) bytes).events) }
    ensures pairs { (bytes : List ℕ) → IfSome (pairs_input bytes).heading (λ h. All (λ event. PairsLineFits (map own_length (pairs_of h)) (map heading_profile (pairs_of h)) (line_of_event event)) (pairs_input bytes).events) }
{}

/// What comes after the line `end` changes nothing of what an input says.
#[tactic(auto, using(crate::proofs::AfterEnd::after_end))]
pub fn nothing_after_the_end_counts()
    ensures { (kind : HeaderKind) (bytes more : List ℕ) → (input_of kind bytes).stop ≡ AtEnd → input_of kind (bytes ++ more) ≡ input_of kind bytes }
{}

/// What inputs of a slave's node mean whose header has five lines: two events and the end, an id with a leading zero, a
/// line without newline, a missing line.
pub fn worked_inputs()
    ensures events { (input_with (codes "t\nh 1\nend\n")).events ≡ event.Tick side.Slave ∷ event.Hold side.Slave true ∷ [] }
    ensures end { (input_with (codes "t\nh 1\nend\n")).stop ≡ AtEnd }
    ensures leading_zero { (input_with (codes "t\nn 007\nend\n")).stop ≡ Refused 7 (Line cause.Number) }
    ensures no_newline { (input_with (codes "t\nend")).stop ≡ Refused 7 NoNewline }
    ensures no_end { (input_with (codes "t\n")).stop ≡ Refused 7 NoLine }
{}

/// What inputs of two pairs say: a tick of both, an event of one, and the end; a pair that doesn't exist; and headers
/// that are refused.
pub fn worked_pairs()
    ensures events { (pairs_with (codes "t\n1 ds -1\nend\n")).events ≡ pairs_event.Tick ∷ pairs_event.One 1 (event.Deliver side.Slave 1) ∷ [] }
    ensures end { (pairs_with (codes "t\n1 ds -1\nend\n")).stop ≡ AtEnd }
    ensures no_link { (pairs_with (codes "t\n3 ds -1\nend\n")).stop ≡ Refused 14 (Line cause.NoLink) }
    ensures first_line { (pairs_input (codes "fsoe 1 pair\n")).stop ≡ Refused 1 (Line cause.Header) }
    ensures no_pair { (pairs_input (codes "fsoe 2 pairs\ngo\n")).stop ≡ Refused 2 (Line cause.Header) }
    ensures second_first { (pairs_input (codes "fsoe 2 pairs\npair 2\n")).stop ≡ Refused 2 (Line cause.Range) }
    ensures part_of_pair { (pairs_input (codes "fsoe 2 pairs\npair 1\npair 2\n")).stop ≡ Refused 3 (Line cause.Header) }
    ensures early_go { (pairs_input (codes "fsoe 2 pairs\npair 1\nlengths 2 2\ngo\n")).stop ≡ Refused 4 (Line cause.Header) }
{}

/// Why lines of two pairs are refused, and which cause counts where several apply.
pub fn worked_lines_of_pairs()
    ensures digits_alone { says_to_two (codes "1") ≡ Err cause.Fields }
    ensures end_of_pair { says_to_two (codes "1 end") ≡ Err cause.Word }
    ensures tick_of_pair { says_to_two (codes "1 t") ≡ Err cause.Word }
    ensures empty_word { says_to_two (codes "1 ") ≡ Err cause.Word }
    ensures word_before_number { says_to_two (codes "007 x") ≡ Err cause.Word }
    ensures leading_zeros { says_to_two (codes "007 tm") ≡ Err cause.Number }
    ensures high_number { says_to_two (codes "65536 tm") ≡ Err cause.Number }
    ensures no_digits { says_to_two (codes "1x tm") ≡ Err cause.Word }
    ensures sign { says_to_two (codes "-1 tm") ≡ Err cause.Word }
    ensures tick_with_field { says_to_two (codes "t 1") ≡ Err cause.Fields }
    ensures end_with_field { says_to_two (codes "end 1") ≡ Err cause.Fields }
    ensures no_pair { says_to_two (codes "0 tm") ≡ Err cause.NoLink }
    ensures fields_before_pair { says_to_two (codes "3 tm 1") ≡ Err cause.Fields }
    ensures number_before_pair { says_to_two (codes "3 nm 65536") ≡ Err cause.Number }
    ensures nonce_of_no_pair { says_to_two (codes "3 nm 65535") ≡ Err cause.NoLink }
    ensures pair_before_reference { says_to_two (codes "3 ds -65") ≡ Err cause.NoLink }
    ensures number_before_reference { says_to_two (codes "01 ds -65") ≡ Err cause.Number }
    ensures reference { says_to_two (codes "2 ds -65") ≡ Err cause.Reference }
{}

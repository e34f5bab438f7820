//! What holds of conversions. The calls do nothing: each law is a contract.

ghost use Rattle.std.specs.Prelude.{◌≡◌, ◌++◌, ◌∷◌, ℕ, List, [], codes, false, map};
ghost use Rattle.std.specs.declared.result.Result.TheVariants.{Ok};
ghost use Rattle.schedule_file.specs.Header.{Heading, heading_after, heading_is_whole, heading_new};
ghost use Rattle.schedule_file.specs.Input.{AtEnd, Line, input_of, said_after};
ghost use Rattle.schedule_file.specs.PairsHeader.{pair_begun, pairs_heading_after, pairs_heading_new};
ghost use Rattle.schedule_file.specs.PairsInput.{pairs_said_after};
ghost use Rattle.schedule_file.specs.Place.{is_start};
ghost use Rattle.schedule_file.specs.declared.event.ScheduleLine.TheVariants as said;
ghost use Rattle.schedule_file.specs.declared.line_cause.LineCause.TheVariants as cause;
ghost use Rattle.schedule_file.specs.declared.pairs_header.PairsStage.TheVariants as stage;
ghost use Rattle.schedule_file.specs.declared.pairs_line.PairsEvent.TheVariants as pairs_event;
ghost use Rattle.schedule_file.specs.declared.pairs_line.PairsLine.TheVariants as pairs_said;
ghost use Rattle.schedule_file.specs.declared.event.Event.{Event};
ghost use Rattle.schedule_file.specs.declared.header_kind.HeaderKind.TheVariants as kind;
ghost use Rattle.file_run.specs.Report.{refused_line};
ghost use Rattle.exchange_model.specs.World.{world};
ghost use Rattle.pair_convert.specs.Convert.{SaysTheSame, converted, only_pair};
ghost use Rattle.duo_run.specs.Pairs.{Pair, events_done, world_of};

/// Line by line, a converted file means the same as the pair file. That holds for the lines that its first line gives,
/// each later header line, each event line, and the last line.
#[tactic(auto, using(crate::proofs::Conversion::SameLines::header_line_same, crate::proofs::Conversion::SameLines::last_line_same))]
pub fn converted_lines_say_the_same()
    ensures title { heading_after (heading_new kind.Pair) (codes "fsoe 1 pair") ≡ Ok pair_begun }
    ensures first { pairs_heading_after pairs_heading_new (codes "fsoe 2 pairs") ≡ Ok (record pairs_heading_new { stage = stage.Title }) }
    ensures pair { pairs_heading_after (record pairs_heading_new { stage = stage.Title }) (codes "pair 1") ≡ Ok (only_pair pair_begun) }
    ensures header { (h next : Heading) (line : List ℕ) → is_start h.place ≡ false → heading_is_whole h ≡ false → heading_after h line ≡ Ok next → pairs_heading_after (only_pair h) line ≡ Ok (only_pair next) }
    ensures event { (h : Heading) (line : List ℕ) (event : Event) → said_after kind.Pair h line ≡ Ok (said.Step event) → pairs_said_after (only_pair h) (codes "1 " ++ line) ≡ Ok (pairs_said.One 1 event) }
    ensures last { (h : Heading) → pairs_said_after (only_pair h) (codes "end") ≡ Ok pairs_said.End }
{}

/// If a pair file ends with `end`, the converted file is read as a file of one pair, with the same header, the same
/// events and the same end. The entries of this pair are the same in both runs.
pub fn conversions_say_the_same()
    ensures world { (p : Pair) (events : List Event) → world_of 1 p (events_done (p ∷ []) (map (λ event. pairs_event.One 1 event) events)) ≡ world p.master p.slave events }
    ensures input { (bytes : List ℕ) → (input_of kind.Pair bytes).stop ≡ AtEnd → SaysTheSame bytes (converted bytes) }
{}

/// What pair files are converted to. One has an event that names a frame that wasn't sent; two are refused, in the
/// header and after an event.
pub fn worked_conversions()
    ensures whole { converted (codes "fsoe 1 pair\nlengths 2 2\nmaster 1 2 100 1\nslave 2 200 1000 2\nrule any 0\ngo\ndm -1\nend\n") ≡ codes "fsoe 2 pairs\npair 1\nlengths 2 2\nmaster 1 2 100 1\nslave 2 200 1000 2\nrule any 0\ngo\n1 dm -1\nend\n" }
    ensures header { converted (codes "fsoe 1 pair\nlengths 2 2\ngo\n") ≡ codes "fsoe 2 pairs\npair 1\nlengths 2 2\n" ++ refused_line 3 (Line cause.Header) }
    ensures event { converted (codes "fsoe 1 pair\nlengths 2 2\nmaster 1 2 100 1\nslave 2 200 1000 2\nrule any 0\ngo\ntm\nq\n") ≡ codes "fsoe 2 pairs\npair 1\nlengths 2 2\nmaster 1 2 100 1\nslave 2 200 1000 2\nrule any 0\ngo\n1 tm\n" ++ refused_line 8 (Line cause.Word) }
{}

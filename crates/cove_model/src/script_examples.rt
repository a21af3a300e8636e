#![tactic(auto, unfolding(crate::specs::Fronts::front_of, crate::specs::Grammar::script_of, crate::specs::Grammar::line_read, crate::specs::Grammar::words_read, crate::specs::Grammar::content_of, crate::specs::Grammar::judged, crate::specs::Grammar::is_number, crate::specs::Grammar::value, crate::specs::Grammar::bytes_of, crate::specs::Grammar::is_line_word, crate::specs::Grammar::line_of))]

ghost use Rattle.std.specs.Prelude.{◌≡◌, [], ◌∷◌, ◌++◌, codes, Ok, Err};
ghost use Rattle.cove_base.specs.declared.faults.Kind.TheVariants.{TooLong, NotAscii, BadHeader, UnknownWord, BadNumber, WrongCount, OutOfBoard, NoEnd};
ghost use Rattle.cove_model.specs.Examples.{load, loaded, text};
ghost use Rattle.cove_model.specs.Fronts.{front_of};
ghost use Rattle.cove_model.specs.Grammar.{default_key, fault_at, script_of};
ghost use Rattle.cove_model.specs.Played.{played};
ghost use Rattle.cove_model.specs.RefusedLines.{AreRefused, first_lines, lines_after_board, lines_after_body, lines_after_end, lines_after_key};
ghost use Rattle.cove_model.specs.ScriptExamples.{IsRefused, IsScript, every_line, every_line_text, first, lines_of_one, two_fills, two_fills_text};
ghost use Rattle.cove_model.specs.Types.{Walk};

/// Texts that spell scripts, and one text for each kind of fault and for what comes first where two kinds apply.
pub fn worked_scripts()
    ensures every_line { IsScript every_line_text every_line }
    ensures two_fills { IsScript two_fills_text two_fills }
    ensures later_fill_wins { played 2 two_fills ≡ loaded 0 0x4000 Walk 0x3311 ∷ [] }
    ensures shortest { script_of 17 (text (first ∷ codes "end" ∷ [])) ≡ Ok (lines_of_one default_key []) }
    ensures too_long { script_of 16 (text (first ∷ codes "end" ∷ [])) ≡ Err (fault_at 0 TooLong) }
    ensures not_ascii { IsRefused (first ∷ codes "end" ∷ (35 ∷ 127 ∷ []) ∷ []) 3 NotAscii }
    ensures bad_header { IsRefused (codes "#" ∷ codes "0 fly" ∷ []) 2 BadHeader }
    ensures unknown_word { IsRefused (first ∷ codes "0zz fly" ∷ []) 2 UnknownWord }
    ensures bad_number { IsRefused (first ∷ codes "0zz gfence 1" ∷ []) 2 BadNumber }
    ensures wrong_count { IsRefused (first ∷ codes "1 convert 1" ∷ []) 2 WrongCount }
    ensures out_of_board { IsRefused (first ∷ codes "1 convert 1 2" ∷ []) 2 OutOfBoard }
    ensures no_end { IsRefused (first ∷ codes "0 gfence" ∷ []) 3 NoEnd }
    ensures nothing { IsRefused [] 1 NoEnd }
    ensures front { front_of 99 (text (first ∷ codes "0 ld 0" ∷ codes "end" ∷ (127 ∷ []) ∷ [])) ≡ Ok (lines_of_one default_key (load 0 0 ∷ []), 24) }
    ensures no_front { front_of 99 (text (first ∷ codes "end 1" ∷ codes "end" ∷ [])) ≡ Err (fault_at 2 WrongCount) }
{}

/// Lines that are refused, by what came before them.
pub fn refused_lines()
    ensures first { AreRefused [] first_lines }
    ensures after_board { AreRefused (codes "board 4 2 1" ∷ []) lines_after_board }
    ensures after_key { AreRefused (codes "# a board" ∷ codes "board 4 2 1" ∷ codes "key 00" ∷ []) lines_after_key }
    ensures after_body { AreRefused (codes "board 4 2 1" ∷ [] ∷ codes "0 gfence" ∷ []) lines_after_body }
    ensures after_end { AreRefused (codes "board 4 2 1" ∷ codes "end" ∷ (32 ∷ 9 ∷ 13 ∷ []) ∷ codes "# more" ∷ []) lines_after_end }
{}

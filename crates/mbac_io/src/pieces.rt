ghost use Rattle.std.specs.Prelude.{ℕ, ◌≤◌, ◌++◌, List, [], Option};
ghost use Rattle.mbac_io.specs.Device.{Rose, Appends, AppendsPart};

/// Laws on a text that is written in pieces: pieces written whole make the text of both, and a part of
/// a piece makes a part of the whole text.
pub fn pieces_make_a_text()
    ensures whole { (first second third : Option (List ℕ)) (xs ys : List ℕ) →
        Appends first second xs → Appends second third ys → Appends first third (xs ++ ys) }
    ensures part_of_first { (first second : Option (List ℕ)) (xs ys : List ℕ) →
        AppendsPart first second xs → AppendsPart first second (xs ++ ys) }
    ensures part_of_next { (first second third : Option (List ℕ)) (xs ys : List ℕ) →
        Appends first second xs → AppendsPart second third ys → AppendsPart first third (xs ++ ys) }
    ensures nothing { (first : Option (List ℕ)) → Appends first first [] }
    ensures rose_later { (first second third : ℕ) → first ≤ second → Rose second third → Rose first third }
{}

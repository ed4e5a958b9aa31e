//! Laws of pictures, each the contract of a function that does nothing.
ghost use Rattle.std.specs.Prelude.{◌≡◌, ◌==◌, [], ◌∷◌, ◌++◌, Bool, IfSome, List, Some, false, true, length, ℕ};
ghost use Rattle.script_mean.specs.Words.{Word};
ghost use Rattle.chart_mean.specs.Arrows.{IsFoundIn, NoneCarries, NoneGives};
ghost use Rattle.chart_mean.specs.Escape.{escaped, is_escaped};
ghost use Rattle.chart_mean.specs.Mark.{Manner, bearer, carries, marks, sender_of};
ghost use Rattle.chart_mean.specs.Place.{Line, lines_from};
ghost use Rattle.chart_mean.specs.Stub.{Post, gives_at, goes_to, rank_in, stub, stub_if};

/// A picture has a mark for each line, and no other.
pub fn each_line_has_its_mark()
    ensures lines { (hide : Word) (first place x : ℕ) (texts : List (List ℕ)) →
        length (lines_from hide first place x texts) ≡ length texts }
    ensures marks { (manner : Manner) (before lines : List Line) → length (marks manner before lines) ≡ length lines }
{}

/// An arrow leads to a line from the last packet before it that carries the word by which the line finds its packet;
/// and from no packet but one that stands before it and carries that word.
pub fn arrows_lead_from_packets()
    ensures each { (told : Bool) (before between : List Line) (sent : Line) (word : Word) →
        carries told word sent.says ≡ true → NoneCarries told word between →
        bearer told (before ++ sent ∷ between) word ≡ Some (record { x = sent.x; member = sender_of sent.says }) }
    ensures no_other { (told : Bool) (before : List Line) (word : Word) →
        IfSome (bearer told before word) (IsFoundIn told word before) }
{}

/// A stub leads from a packet towards each other member to which it goes and was not given, and towards no member to
/// which it was given.
pub fn stubs_lead_to_those_never_reached()
    ensures each { (lines : List Line) (post : Post) (member : ℕ) → NoneGives post.number member lines →
        (member == post.sender) ≡ false → goes_to post.to (rank_in post.known member) ≡ true →
        stub_if lines post member ≡ stub post member }
    ensures no_other { (before after : List Line) (line : Line) (post : Post) (member : ℕ) →
        gives_at post.number member line ≡ true → stub_if (before ++ line ∷ after) post member ≡ [] }
{}

/// No text of a report can be taken for anything else in a picture: no `<`, `>` or `"` of it remains, and each `&`
/// begins a name.
pub fn text_is_escaped()
    ensures { (text : List ℕ) → is_escaped (escaped text) ≡ true }
{}

//! The words by which lines are told apart.
ghost use Rattle.std.specs.Prelude.{◌≡◌, bytes_eq};
ghost use Rattle.std.specs.List.{list_any};
ghost use Rattle.chart_mean.specs.Says as spec;
ghost use Rattle.chart_mean.specs.Label.{dull, quiet};

/// The kinds of deliveries.
static KINDS: [&[u8]; 2] = [b"cast", b"send"];

/// The first words of the other lines whose second word is the member of which they tell.
static OTHERS: [&[u8]; 8] = [
    b"block",
    b"announce",
    b"timer",
    b"refused",
    b"absent",
    b"state",
    b"cell",
    b"deaf",
];

/// The events that bring bytes, which follow the member.
static ASKINGS: [&[u8]; 2] = [b"cast", b"raw"];

/// The events that bring none.
static BEFALLINGS: [&[u8]; 3] = [b"tick", b"leave", b"state"];

/// The first words of lines that have a sign and no words.
static QUIET: [&[u8]; 3] = [b"timer", b"state", b"cell"];

/// The headers that say nothing.
static DULL: [&[u8]; 2] = [b"", b"none()"];

/// Whether a word is a kind of delivery: `cast` or `send`.
pub(crate) fn is_kind(word: &[u8]) -> bool
    ensures { result ≡ spec.is_one_of spec.kinds word.now }
{
    is_one_of(word, &KINDS)
}

/// Whether this is the first word of one of the other lines, whose second word is the member of which they tell.
pub(crate) fn is_other(verb: &[u8]) -> bool
    ensures { result ≡ spec.is_one_of spec.others verb.now }
{
    is_one_of(verb, &OTHERS)
}

/// Whether this is an event that brings bytes.
pub(crate) fn is_asking(verb: &[u8]) -> bool
    ensures { result ≡ spec.is_one_of spec.askings verb.now }
{
    is_one_of(verb, &ASKINGS)
}

/// Whether this is an event that brings none.
pub(crate) fn is_befalling(verb: &[u8]) -> bool
    ensures { result ≡ spec.is_one_of spec.befallings verb.now }
{
    is_one_of(verb, &BEFALLINGS)
}

/// Whether a header says nothing.
pub(crate) fn is_dull(name: &[u8]) -> bool
    ensures { result ≡ spec.is_one_of dull name.now }
{
    is_one_of(name, &DULL)
}

/// Whether lines with this first word have a sign and no words.
pub(crate) fn is_quiet(verb: &[u8]) -> bool
    ensures { result ≡ spec.is_one_of quiet verb.now }
{
    is_one_of(verb, &QUIET)
}

/// Whether a word is one of these.
fn is_one_of(wanted: &[u8], words: &[&[u8]]) -> bool
    ensures { result ≡ list_any (λ word. bytes_eq wanted.now word.now) words.now }
{
    words.iter().any(|word| wanted == *word)
}
